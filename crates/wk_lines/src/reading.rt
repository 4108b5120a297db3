//! How an input is read into a line cutter.
ghost use Rattle.std.specs.Prelude.{◌≡◌, ◌+◌, ◌^◌, ◌<◌, ◌≤◌, [], IfErr, IfOk, OnOk, Err};
ghost use Rattle.wk_base.specs.Faults.{Rose};
ghost use Rattle.wk_bytes.specs.LineCutter.{HasNoNewline};
ghost use Rattle.wk_lines.specs.Reading.{Fills, Gives, StopsReading};

use crate::stop::Stop;
use wk_base::{Failed, Source};
use wk_bytes::{Line, LineCutter};
use wk_memory::Memory;

/// What comes next of an input.
#[derive(PartialEq, Eq, Drop)]
pub enum NextLine {
    /// A line that ends with a newline.
    Inner(Line),
    /// The input is at its end: the line behind the last newline, or `More` where no byte stands there.
    Last(Line),
}

/// Reads once, where no whole line is left, and pushes what was read. Whether the input is at its end.
fn fill<I: Source>(cutter: &mut LineCutter, total: &mut u64, input: &mut I) -> Result<bool, Stop>
    requires none { cutter.old.whole ≡ [] }
    requires begun { HasNoNewline cutter.old.rest }
    ensures ok { IfOk result (Fills (record { cutter = cutter.old; total = total.old }) (record { cutter = cutter.new; total = total.new })
        (I.rest input.old) (I.rest input.new)) }
    ensures err { IfErr result (StopsReading (record { cutter = cutter.old; total = total.old })
        (record { cutter = cutter.new; total = total.new }) (I.rest input.old) (I.rest input.new)) }
    ensures few { total.old < 2 ^ 40 + 2 ^ 13 → total.new < 2 ^ 40 + 2 ^ 13 }
    ensures begun { HasNoNewline cutter.new.rest }
    ensures never_falls { I.faults input.old ≤ I.faults input.new }
    ensures no_fault { OnOk result (I.faults input.new ≡ I.faults input.old) }
    ensures cause { result ≡ Err Stop.ReadFault → Rose (I.faults input.old) (I.faults input.new) }
{
    if BOUND <= *total {
        return Err(Stop::Bound);
    }
    let mut room = [0u8; ROOM];
    let n = match input.read(&mut room) {
        Ok(n) => n,
        Err(Failed) => return Err(Stop::ReadFault),
    };
    if n == 0 {
        return Ok(true);
    }
    *total += n as u64;
    if let Err(Memory) = cutter.push(&room[..n]) {
        return Err(Stop::Memory);
    }
    Ok(false)
}

/// What comes next of an input, of which so many bytes were read and pushed. It is read only where no whole line is
/// there.
pub fn next_line<I: Source>(
    cutter: &mut LineCutter,
    total: &mut u64,
    input: &mut I,
) -> Result<NextLine, Stop>
    requires few { total.old < 2 ^ 40 + 2 ^ 13 }
    requires begun { HasNoNewline cutter.old.rest }
    ensures ok { IfOk result (Gives (record { cutter = cutter.old; total = total.old }) (record { cutter = cutter.new; total = total.new })
        (I.rest input.old) (I.rest input.new)) }
    ensures err { IfErr result (StopsReading (record { cutter = cutter.old; total = total.old })
        (record { cutter = cutter.new; total = total.new }) (I.rest input.old) (I.rest input.new)) }
    ensures few { total.new < 2 ^ 40 + 2 ^ 13 }
    ensures begun { HasNoNewline cutter.new.rest }
    ensures never_falls { I.faults input.old ≤ I.faults input.new }
    ensures no_fault { OnOk result (I.faults input.new ≡ I.faults input.old) }
    ensures cause { result ≡ Err Stop.ReadFault → Rose (I.faults input.old) (I.faults input.new) }
{
    'reads: loop {
        match cutter.next() {
            Line::More => {
                let ended = match fill(cutter, total, input) {
                    Ok(ended) => ended,
                    Err(stop) => return Err(stop),
                };
                if ended {
                    return Ok(NextLine::Last(cutter.end()));
                }
            }
            line => return Ok(NextLine::Inner(line)),
        }
    }
}

/// The bytes that are asked of one read.
const ROOM: usize = 8_192;

/// An input is read no further once so many bytes were read.
const BOUND: u64 = 1 << 40;

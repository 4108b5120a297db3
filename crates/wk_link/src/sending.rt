// Sending the whole of a text.
ghost use Rattle.std.specs.Prelude.{◌≡◌, ◌≤◌, OnErr, OnOk};
ghost use Rattle.std.specs.Io.KnownBytes.{Appends};
ghost use Rattle.wk_base.specs.Faults.{Rose};
ghost use Rattle.wk_link.specs.Sending.{AppendsProperPrefix};

use crate::Link;
use wk_base::Failed;

/// Sends all the bytes, in as many writes as the link wants. Where there are none, it writes nothing. What is left to read
/// stays as it is.
///
/// `Failed` is that of the first write that fails, and comes only where the link's count of such faults rose in this call, or
/// stands at its end. A prefix of the bytes was then taken, never all of them, and no write was made after that one.
pub fn send_all<L: Link>(link: &mut L, bytes: &[u8]) -> Result<(), Failed>
    ensures ok { OnOk result (Appends (L.Sink.taken link.old) (L.Sink.taken link.new) bytes.now) }
    ensures err { OnErr result (AppendsProperPrefix (L.Sink.taken link.old) (L.Sink.taken link.new) bytes.now) }
    ensures never_falls { L.Sink.faults link.old ≤ L.Sink.faults link.new }
    ensures no_fault { OnOk result (L.Sink.faults link.new ≡ L.Sink.faults link.old) }
    ensures cause { OnErr result (Rose (L.Sink.faults link.old) (L.Sink.faults link.new)) }
    ensures rest { L.Source.rest link.new ≡ L.Source.rest link.old }
    ensures read_faults { L.Source.faults link.new ≡ L.Source.faults link.old }
{
    let mut at = 0;
    'writes: while at < bytes.len() {
        at += link.send(&bytes[at..])?;
    }
    Ok(())
}

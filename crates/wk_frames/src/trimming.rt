//! Outputs without the blank bytes at their ends.
ghost use Rattle.std.specs.Prelude.{◌≡◌, unwrap_or, IfOk};
ghost use Rattle.std.specs.Bool.{OnTrue};
ghost use Rattle.wk_text_rules.specs.Marked.{trimmed_output};

use std::alloc::Global;
use wk_bytes::trim;
use wk_memory::Memory;
use wk_out::Out;

/// Whether an output has no blank byte at its ends, plain or sealed.
fn is_trimmed(out: &Out) -> bool
    ensures { OnTrue result (trimmed_output out.now ≡ out.now) }
{
    let text = out.text().as_bytes();
    trim(text).len() == text.len()
}

/// The output without the plain blank bytes at both ends: the same one, in its own memory, where it has no blank byte
/// there. Memory: there was none for a copy.
pub fn trimmed(alloc: Global, out: Out) -> Result<Out, Memory>
    ensures { IfOk result (λ given. given ≡ trimmed_output out) }
{
    if is_trimmed(&out) {
        return Ok(out);
    }
    out.trimmed(alloc)
}

/// The output without the plain blank bytes at both ends, in memory of its own; None where it has no blank byte there.
/// Memory: there was none for it.
pub fn trimmed_copy(alloc: Global, out: &Out) -> Result<Option<Out>, Memory>
    ensures { IfOk result (λ made. unwrap_or made out.now ≡ trimmed_output out.now) }
{
    if is_trimmed(out) {
        return Ok(None);
    }
    Ok(Some(out.trimmed(alloc)?))
}

/// What was made of an output, or the output itself where nothing was. Takes no memory.
pub fn made_or<'a>(made: &'a Option<Out>, out: &'a Out) -> &'a Out
    ensures { result.now ≡ unwrap_or made.now out.now }
{
    match made {
        Some(made) => made,
        None => out,
    }
}

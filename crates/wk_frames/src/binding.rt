//! What is bound for a part of a template (MediaWiki's Help:Templates).
ghost use Rattle.std.specs.Prelude.{◌≡◌, IfSome, OnOk, decimal};
ghost use Rattle.std.specs.FinMap as map;
ghost use Rattle.wk_text_rules.specs.Marked.{plain_text_of, trimmed_output};
ghost use Rattle.wk_frames.specs.Bindings.{named_in};

use crate::levels::Bound;
use crate::trimming::trimmed;
use std::alloc::Global;
use wk_args::Args;
use wk_memory::Memory;
use wk_out::Out;

/// Binds a text to a value, which counts in the place of an earlier one. Memory: there was none for it.
#[inline(always)]
pub fn bind(args: &mut Args<Bound>, name: &str, value: Bound) -> Result<(), Memory>
    ensures { OnOk result (args.new ≡ map.insert args.old name.now value) }
{
    match args.bind(name, value) {
        Ok(()) => Ok(()),
        Err((_, memory)) => Err(memory),
    }
}

/// A number from 1 to 9, as a decimal text.
fn digit(number: u64) -> Option<&'static str>
    ensures { IfSome result (λ text. text.now ≡ decimal number) }
{
    match number {
        1 => Some("1"),
        2 => Some("2"),
        3 => Some("3"),
        4 => Some("4"),
        5 => Some("5"),
        6 => Some("6"),
        7 => Some("7"),
        8 => Some("8"),
        9 => Some("9"),
        _ => None,
    }
}

/// Binds a number, as a decimal text without sign or leading zero, to a value. Memory: there was none for it.
#[inline(always)]
pub fn bind_number(
    alloc: Global,
    args: &mut Args<Bound>,
    number: u64,
    value: Bound,
) -> Result<(), Memory>
    ensures { OnOk result (args.new ≡ map.insert args.old (decimal number) value) }
{
    if let Some(name) = digit(number) {
        return bind(args, name, value);
    }
    let name = number.to_string(alloc)?;
    bind(args, &name, value)
}

/// Binds a name, trimmed, to a value; nothing is bound where the name holds a sealed byte. Memory: there was none for it.
pub fn bind_name(
    alloc: Global,
    args: &mut Args<Bound>,
    name: Out,
    value: Bound,
) -> Result<(), Memory>
    ensures { OnOk result (args.new ≡ named_in args.old (plain_text_of (trimmed_output name)) value) }
{
    let name = trimmed(alloc, name)?;
    match name.plain_text() {
        Some(text) => bind(args, text, value),
        None => Ok(()),
    }
}

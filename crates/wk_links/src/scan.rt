//! The search for links.
ghost use Rattle.std.specs.Prelude.{◌≡◌, ◌≢◌, ◌+◌, ◌≤◌, ◌<◌, ◌++◌, ℕ, drop, length, map, option_map, replicate, IfOk, OnOk};
ghost use Rattle.std.specs.Option.{option_copied};
ghost use Rattle.wk_out.specs.Runs.{marked};
ghost use Rattle.wk_text_rules.specs.Occurrences.{occurrences};
ghost use Rattle.wk_links.specs.Brackets.{IsBracketsAt, end_of};
ghost use Rattle.wk_links.specs.Cuts.{IsCutBy};
ghost use Rattle.wk_links.specs.Found.{occurrence_in, occurrence_by};
ghost use Rattle.wk_links.specs.Parts.{part};
ghost use Rattle.wk_links.specs.Rest.{occurrences_from};
ghost use Rattle.wk_links.specs.Seen.{seen};

use crate::brackets::{Brackets, brackets_at};
use crate::found::Found;
use crate::what::what;
use std::alloc::Global;
use wk_memory::Memory;
use wk_out::Out;

fn push_newlines(bytes: &mut Vec<u8>, count: usize) -> Result<(), Memory>
    ensures { OnOk result (bytes.new.items ≡ bytes.old.items ++ replicate count 10) }
{
    for _ in 0..count {
        bytes.push(b'\n')?;
    }
    Ok(())
}

/// Appends what is seen of a text.
fn push_seen(bytes: &mut Vec<u8>, text: &str, sealed: bool) -> Result<(), Memory>
    ensures { OnOk result (bytes.new.items ≡ bytes.old.items ++ seen (marked sealed text.now)) }
{
    if sealed {
        push_newlines(bytes, text.len())
    } else {
        bytes.extend_from_slice(text.as_bytes())?;
        Ok(())
    }
}

/// The bytes of an output with a newline in the place of each sealed byte. A newline is no byte of a target, and none of
/// the brackets or the bar.
fn seen_bytes(alloc: Global, out: &Out) -> Result<Vec<u8>, Memory>
    ensures { IfOk result (λ bytes. bytes.items ≡ seen out.now) }
{
    let mut bytes = Vec::with_capacity(alloc, out.len())?;
    for (text, sealed) in out.runs() {
        push_seen(&mut bytes, text, sealed)?;
    }
    Ok(bytes)
}

fn target_of<'a>(text: &'a str, b: &Brackets) -> &'a str
    requires { IsCutBy text.now b.now }
    ensures { result.now ≡ part text.now (b.now.start + 2) b.now.target_end }
{
    &text[b.start + 2..b.target_end]
}

fn label_of<'a>(text: &'a str, b: &Brackets) -> Option<&'a str>
    requires { IsCutBy text.now b.now }
    ensures { option_copied result ≡ option_map (part text.now (b.now.target_end + 1)) b.now.label_end }
{
    match b.label_end {
        Some(end) => Some(&text[b.target_end + 1..end]),
        None => None,
    }
}

fn found_in(alloc: Global, out: &Out, b: &Brackets) -> Result<Found, Memory>
    requires { IsBracketsAt (seen out.now) b.now.start b.now }
    ensures { IfOk result (λ found. occurrence_in found ≡ occurrence_by out.now b.now) }
{
    let text = out.text();
    let what = what(alloc, target_of(text, b), label_of(text, b))?;
    Ok(Found {
        start: b.start,
        end: b.end(),
        what,
    })
}

/// Takes the link whose brackets begin at a place, if any do, and gives the place at which the search goes on.
fn step(
    alloc: Global,
    out: &Out,
    bytes: &[u8],
    at: usize,
    found: &mut Vec<Found>,
) -> Result<usize, Memory>
    requires bytes { bytes.now ≡ seen out.now }
    requires place { at < length bytes.now }
    ensures next { IfOk result (λ next. (at < next) × (next ≤ length bytes.now)) }
    ensures found { IfOk result (λ next. map occurrence_in found.new.items ++ occurrences_from next (drop next out.now)
        ≡ map occurrence_in found.old.items ++ occurrences_from at (drop at out.now)) }
{
    match brackets_at(bytes, at) {
        Some(b) => {
            let link = found_in(alloc, out, &b)?;
            found.push(link)?;
            Ok(b.end())
        }
        None => Ok(at + 1),
    }
}

/// The links in an output, from first to last (MediaWiki's Help:Links and Help:Categories).
///
/// A link is `[[`, a target, and `]]`, or a bar, a label and `]]`, all of them plain but for the label, which may hold
/// sealed bytes. A target has none of the bytes `[ ] | { } < >` and no newline. A label ends at the nearest plain `]]`,
/// holds no plain `[[`, and has at most 2,097,152 bytes (own). The search goes on behind a link, and one byte further
/// where none begins.
pub fn links(alloc: Global, out: &Out) -> Result<Vec<Found>, Memory>
    ensures { IfOk result (λ found. map occurrence_in found.items ≡ occurrences out.now) }
{
    let bytes = seen_bytes(alloc, out)?;
    let mut found = Vec::new(alloc);
    let mut at = 0;
    while at < bytes.len() {
        at = step(alloc, out, &bytes, at, &mut found)?;
    }
    Ok(found)
}

//! The atoms of a text.
ghost use Rattle.std.specs.Prelude.{◌≡◌, ◌≢◌, ◌<◌, ◌≤◌, ◌^◌, length, map, not, slice_index, IfOk};
ghost use Rattle.std.specs.Bool.{OnFalse, OnTrue};
ghost use Rattle.std.specs.List.{All};
ghost use Rattle.wk_tree_rules.specs.Atoms.{atoms};
ghost use Rattle.wk_lex.specs.Spans.{span_of, is_mark, IsAtomAt, IsPlain, IsRow, IsWithin, IsRunWhereMarks};
ghost use Rattle.wk_lex.specs.FirstBytes.{ends_line, IsClosing, IsInLine, IsNoLineAt, IsNoTagByte, IsOpening};
ghost use Rattle.wk_tree_rules.specs.declared.Mode.{Mode as ReadingMode};

use crate::Atom;
use crate::comment::{comment, whole_line_of_comments};
use crate::marks::{closing_run, opening_run};
use crate::tags::Tags;
use std::alloc::Global;
use wk_memory::Memory;
use wk_tree_rules::{AtomKind, Mode};

/// The class of each byte. 0 is text wherever it stands: no atom begins with it but the byte alone. So is 2, a newline,
/// which ends a line. 1 is a space or a tab: no atom but a line of comments begins with it, so that it is text within a
/// line. 3 is a mark, with which another atom may begin.
static FIRST_BYTES: [u8; 256] = *b"\
    00000000012000000000000000000000\
    10000000000000000000000000003300\
    00000000000000000000000000030300\
    00000000000000000000000000033300\
    00000000000000000000000000000000\
    00000000000000000000000000000000\
    00000000000000000000000000000000\
    00000000000000000000000000000000\
";

/// Whether the byte is text within a line: neither a mark nor a newline.
#[inline(always)]
pub fn is_in_line(byte: u8) -> bool
    ensures value { result ≡ not (ends_line byte) }
    ensures text { OnTrue result (IsInLine byte) }
{
    FIRST_BYTES[byte as usize] < b'2'
}

/// Whether the byte is text wherever it stands.
#[inline(always)]
pub fn is_text(byte: u8) -> bool
    ensures plain { OnTrue result (IsPlain byte) }
    ensures space { OnTrue result (byte ≢ 32) }
    ensures tab { OnTrue result (byte ≢ 9) }
{
    FIRST_BYTES[byte as usize] & 1 == 0
}

/// Whether no atom but a line of comments or a single byte begins with the byte.
pub fn is_plain(byte: u8) -> bool
    ensures value { result ≡ not (is_mark byte) }
    ensures plain { OnTrue result (IsPlain byte) }
{
    !matches!(byte, b'<' | b'{' | b'[' | b'}' | b']' | b'|' | b'=')
}

/// Whether a comment may go on with the byte behind a `<`, or a tag that is known.
#[inline(always)]
fn is_tag_byte(byte: u8) -> bool
    ensures { OnFalse result (IsNoTagByte byte) }
{
    matches!(
        byte,
        b'!' | b'/' | b'n' | b'N' | b'p' | b'P' | b'i' | b'I' | b'o' | b'O'
    )
}

/// The same of the place behind a `<`.
#[inline(always)]
fn is_tag_at(text: &[u8], at: usize) -> bool
    ensures { OnFalse result (IsNoTagByte (slice_index text.now at)) }
{
    at < text.len() && is_tag_byte(text[at])
}

/// The kind of the atom that begins at a `<`, and the place behind it, where no line of comments begins.
#[inline(always)]
fn angle_at(tags: &mut Tags, mode: Mode, at: usize) -> (AtomKind, usize)
    requires within { at < length tags.old }
    requires angle { slice_index tags.old at ≡ 60 }
    requires line { IsNoLineAt tags.old at }
    ensures atom { IsAtomAt mode tags.old at result }
    ensures text { tags.new ≡ tags.old }
{
    let text = tags.text;
    // Most are no tags.
    if !is_tag_at(text, at + 1) {
        return (AtomKind::Byte, at + 1);
    }
    if let Some(end) = comment(text, at) {
        return (AtomKind::Comment, end);
    }
    if let Some(end) = tags.sealed_element(at) {
        return (AtomKind::Sealed, end);
    }
    if let Some(end) = tags.ignored_element(mode, at) {
        return (AtomKind::Ignored, end);
    }
    if let Some(end) = tags.silent_tag(mode, at) {
        return (AtomKind::Tag, end);
    }
    (AtomKind::Byte, at + 1)
}

/// The same at an opening brace or bracket.
#[inline(always)]
pub fn opening_at(text: &[u8], at: usize) -> (AtomKind, usize)
    requires within { at < length text.now }
    requires opening { IsOpening (slice_index text.now at) }
    ensures { (mode : ReadingMode) → IsNoLineAt text.now at → IsAtomAt mode text.now at result }
{
    match opening_run(text, at) {
        Some(end) => (AtomKind::Open, end),
        None => (AtomKind::Byte, at + 1),
    }
}

/// The same at a closing brace or bracket.
#[inline(always)]
pub fn closing_at(text: &[u8], at: usize) -> (AtomKind, usize)
    requires within { at < length text.now }
    requires closing { IsClosing (slice_index text.now at) }
    ensures { (mode : ReadingMode) → IsNoLineAt text.now at → IsAtomAt mode text.now at result }
{
    match closing_run(text, at) {
        Some(end) => (AtomKind::Close, end),
        None => (AtomKind::Byte, at + 1),
    }
}

/// The kind of the atom that begins at the place, and the place behind it. But for a line of comments it is looked for
/// by its first byte.
#[inline(always)]
pub fn marked_at(tags: &mut Tags, mode: Mode, at: usize) -> (AtomKind, usize)
    requires { at < length tags.old }
    ensures atom { IsAtomAt mode tags.old at result }
    ensures text { tags.new ≡ tags.old }
{
    let text = tags.text;
    if let Some(end) = whole_line_of_comments(text, at) {
        return (AtomKind::LineComment, end);
    }
    match text[at] {
        b'<' => angle_at(tags, mode, at),
        b'{' => opening_at(text, at),
        b'[' => opening_at(text, at),
        b'}' => closing_at(text, at),
        b']' => closing_at(text, at),
        b'|' => (AtomKind::Bar, at + 1),
        b'=' => (AtomKind::Equals, at + 1),
        _ => (AtomKind::Byte, at + 1),
    }
}

/// The kind of the atom that begins at the place, and the place behind it. One look tells whether the byte is text.
fn atom_at(tags: &mut Tags, mode: Mode, at: usize) -> (AtomKind, usize)
    requires { at < length tags.old }
    ensures atom { IsAtomAt mode tags.old at result }
    ensures text { tags.new ≡ tags.old }
{
    let text = tags.text;
    if is_text(text[at]) {
        return (AtomKind::Byte, at + 1);
    }
    marked_at(tags, mode, at)
}

/// The atoms of a text that was selected, from its start to its end. Linear in the text.
pub fn lex(alloc: Global, mode: Mode, selected: &[u8]) -> Result<Vec<Atom>, Memory>
    requires { length selected.now < 2 ^ 32 }
    ensures atoms { IfOk result (λ found. map (span_of selected.now) found.items ≡ atoms mode selected.now) }
    // Each atom starts where the one before it ends, the first at the start, and the last ends at the end.
    ensures row { IfOk result (λ found. IsRow 0 (length selected.now) found.items) }
    ensures within { IfOk result (λ found. All (IsWithin (length selected.now)) found.items) }
    ensures runs { IfOk result (λ found. All (IsRunWhereMarks selected.now) found.items) }
{
    let mut tags = Tags::new(selected);
    // No text has more atoms than bytes.
    let mut found = Vec::with_capacity(alloc, selected.len())?;
    let mut at = 0;
    while at < selected.len() {
        let (kind, end) = atom_at(&mut tags, mode, at);
        let atom = Atom {
            kind,
            start: at as u32,
            len: (end - at) as u32,
        };
        found.push(atom)?;
        at = end;
    }
    Ok(found)
}

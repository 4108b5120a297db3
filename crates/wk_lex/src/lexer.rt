//! The atoms of a text one after another.
ghost use Rattle.std.specs.Prelude.{◌≡◌, ◌+◌, ◌<◌, ◌≤◌, ◌^◌, [], length, not, slice_index, MatchOption};
ghost use Rattle.std.specs.Bool.{OnTrue};
ghost use Rattle.std.specs.List.{list_any};
ghost use Rattle.wk_lex.specs.Ahead.{AreBytes, IsLongest, IsNextAt, IsNextAtom};
ghost use Rattle.wk_lex.specs.FirstBytes.{IsBehindLine};
ghost use Rattle.wk_lex.specs.Spans.{is_mark, IsAtomAt, IsPlain};
ghost use Rattle.wk_tree_rules.specs.Atoms.{atoms};
ghost use Rattle.wk_tree_rules.specs.declared.AtomKind.TheVariants.{Byte};
ghost use Rattle.wk_tree_rules.specs.declared.Mode.{Mode as ReadingMode};

use crate::Atom;
use crate::atoms::{closing_at, is_in_line, is_plain, is_text, marked_at, opening_at};
use crate::tags::Tags;
use std::marker::Model;
use wk_tree_rules::{AtomKind, Mode};

/// The first place from a place on at which a mark or a newline stands, or the end of the text. Four bytes are looked at
/// in each turn.
#[inline(always)]
fn behind_line(text: &[u8], from: usize) -> usize
    requires { from ≤ length text.now }
    ensures { IsBehindLine text.now from result }
{
    let mut end = from;
    while text.len() - end >= 4 {
        if !is_in_line(text[end]) {
            return end;
        }
        if !is_in_line(text[end + 1]) {
            return end + 1;
        }
        if !is_in_line(text[end + 2]) {
            return end + 2;
        }
        if !is_in_line(text[end + 3]) {
            return end + 3;
        }
        end += 4;
    }
    while end < text.len() {
        if !is_in_line(text[end]) {
            return end;
        }
        end += 1;
    }
    end
}

/// The place behind the plain byte at the place and the plain bytes that follow it, up to a line that may be one of
/// comments.
#[inline(always)]
fn behind_text(text: &[u8], at: usize) -> usize
    requires within { at < length text.now }
    requires plain { IsPlain (slice_index text.now at) }
    ensures bytes { (mode : ReadingMode) → IsAtomAt mode text.now at (Byte, at + 1) → AreBytes mode text.now at result }
    ensures longest { IsLongest text.now at result }
{
    let mut end = behind_line(text, at);
    while end < text.len() && text[end] == b'\n' {
        end += 1;
        if end < text.len() && (text[end] == b' ' || text[end] == b'\t') {
            return end;
        }
        end = behind_line(text, end);
    }
    end
}

/// The same of any byte.
fn behind_bytes(text: &[u8], at: usize) -> usize
    requires { at < length text.now }
    ensures bytes { (mode : ReadingMode) → IsAtomAt mode text.now at (Byte, at + 1) → AreBytes mode text.now at result }
    ensures longest { IsLongest text.now at result }
{
    if !is_plain(text[at]) {
        return at + 1;
    }
    behind_text(text, at)
}

/// Whether a space or a tab stands at the place, and not the first of a line.
#[inline(always)]
fn is_inner_blank(text: &[u8], at: usize) -> bool
    requires { at < length text.now }
    ensures plain { OnTrue result (IsPlain (slice_index text.now at)) }
    ensures byte { OnTrue result ((mode : ReadingMode) → IsAtomAt mode text.now at (Byte, at + 1)) }
{
    if at == 0 {
        return false;
    }
    let before = text[at - 1];
    if before == b'\n' {
        return false;
    }
    if text[at] == b' ' {
        return true;
    }
    if text[at] == b'\t' {
        return true;
    }
    false
}

/// The kind of the atom that begins at a place, and the place behind it. A call of its own, so that the way over text and
/// marks stays short.
#[inline(never)]
fn mark_at(tags: &mut Tags, mode: Mode, at: usize) -> (AtomKind, usize)
    requires { at < length tags.old }
    ensures atom { IsAtomAt mode tags.old at result }
    ensures text { tags.new ≡ tags.old }
{
    marked_at(tags, mode, at)
}

/// The same of the kind of the atom that begins at the place, or of bytes as one, where mostly a `<` or a blank stands.
#[inline(always)]
fn other_at(tags: &mut Tags, mode: Mode, at: usize) -> (AtomKind, usize)
    requires { at < length tags.old }
    ensures next { IsNextAt mode tags.old at result }
    ensures text { tags.new ≡ tags.old }
{
    let text = tags.text;
    if is_inner_blank(text, at) {
        return (AtomKind::Byte, behind_text(text, at));
    }
    let (kind, end) = mark_at(tags, mode, at);
    match kind {
        AtomKind::Byte => (kind, behind_bytes(text, at)),
        _ => (kind, end),
    }
}

/// The kind of the atom that begins at the place, or of bytes as one, and the place behind it. A mark but `<` is the
/// first of no line of comments.
#[inline(always)]
fn next_at(tags: &mut Tags, mode: Mode, at: usize) -> (AtomKind, usize)
    requires { at < length tags.old }
    ensures next { IsNextAt mode tags.old at result }
    ensures text { tags.new ≡ tags.old }
{
    let text = tags.text;
    if is_text(text[at]) {
        return (AtomKind::Byte, behind_text(text, at));
    }
    match text[at] {
        b'{' => opening_at(text, at),
        b'[' => opening_at(text, at),
        b'}' => closing_at(text, at),
        b']' => closing_at(text, at),
        b'|' => (AtomKind::Bar, at + 1),
        b'=' => (AtomKind::Equals, at + 1),
        _ => other_at(tags, mode, at),
    }
}

/// Whether no mark stands in the text: neither a `<`, a brace or a bracket nor a bar or an equals sign. All of it comes
/// as one then. Takes no memory.
pub fn has_no_mark(text: &[u8]) -> bool
    ensures marks { result ≡ not (list_any is_mark text.now) }
    ensures whole { OnTrue result ((mode : ReadingMode) → 0 < length text.now → IsNextAtom text.now (atoms mode text.now) [] (record { kind = Byte; start = 0; len = length text.now })) }
{
    let mut at = 0;
    while at < text.len() {
        if !is_plain(text[at]) {
            return false;
        }
        at += 1;
    }
    true
}

/// The atoms of a text that was selected, one after another from its start to its end. Bytes that stand together come
/// as one atom. Contracts see the text, and the atoms of it that are still to come.
#[derive(Drop)]
pub struct Lexer<'a> {
    mode: Mode,
    text: &'a [u8],
    tags: Tags<'a>,
    at: usize,
}

impl<'a> Model for Lexer<'a> {
    ghost use Rattle.std.specs.Prelude.{◌≡◌, ◌<◌, ◌≤◌, ◌^◌, length};
    ghost use Rattle.wk_lex.specs.Ahead.{Ahead, atoms_from, AreSources};

    ghost Value = { Ahead };

    ghost view = { λ l. record { text = l.text.now; atoms = atoms_from l.mode l.text.now l.at } };

    ghost invariant = { λ l. (l.tags ≡ l.text.now) × (l.at ≤ length l.text.now) × (length l.text.now < 2 ^ 32)
        × AreSources (atoms_from l.mode l.text.now l.at) };
}

impl<'a> Lexer<'a> {
    /// All atoms of the text are to come. Takes no memory.
    pub fn new(mode: Mode, selected: &'a [u8]) -> Lexer<'a>
        requires { length selected.now < 2 ^ 32 }
        ensures { result ≡ record { text = selected.now; atoms = atoms mode selected.now } }
    {
        Lexer {
            mode,
            text: selected,
            tags: Tags::new(selected),
            at: 0,
        }
    }

    /// The next atom, or bytes as one, as many as can be, or None where none is to come. Takes no memory; all calls together take time
    /// that is linear in the text.
    pub fn next(&mut self) -> Option<Atom>
        ensures text { self.new.text ≡ self.old.text }
        ensures atom { MatchOption result (self.old.atoms ≡ []) (IsNextAtom self.old.text self.old.atoms self.new.atoms) }
    {
        let start = self.at;
        if self.text.len() <= start {
            return None;
        }
        let (kind, end) = next_at(&mut self.tags, self.mode, start);
        self.at = end;
        Some(Atom {
            kind,
            start: start as u32,
            len: (end - start) as u32,
        })
    }
}

//! Elements, and the tags of which the content alone is shown.
ghost use Rattle.std.specs.Prelude.{◌≡◌, ◌==◌, ◌-◌, ◌<◌, ◌≤◌, length, take, drop, codes};
ghost use Rattle.std.specs.List.{ends_with};
ghost use Rattle.wk_tree_rules.specs.Atoms.{any_tag, ignored_element, sealed_element, silent_tag};
ghost use Rattle.wk_tree_rules.specs.Tags.{element, open_ended_element};
ghost use Rattle.wk_lex.specs.Places.{EndsAt};

use crate::ends::{behind_element_end, behind_known_element_end};
use crate::tags::Tags;
use wk_tree_rules::Mode;

/// Whether the tag between the places has a `/` directly before its `>`.
fn is_closed_in_itself(text: &[u8], at: usize, end: usize) -> bool
    requires low { at ≤ end }
    requires high { end ≤ length text.now }
    ensures { result ≡ ends_with (λ a b. a == b) (take (end - at) (drop at text.now)) (codes "/>") }
{
    text[at..end].ends_with(b"/>")
}

impl<'a> Tags<'a> {
    /// The place behind the `nowiki` element at the place, if one begins there.
    fn nowiki(&mut self, at: usize) -> Option<usize>
        requires { at ≤ length self.old }
        ensures end { EndsAt (element (codes "nowiki")) self.old at result }
        ensures text { self.new ≡ self.old }
    {
        let inside = self.opening_tag(at, b"nowiki")?;
        if is_closed_in_itself(self.text, at, inside) {
            return Some(inside);
        }
        behind_known_element_end(self.text, &mut self.no_nowiki_end_from, inside, b"nowiki")
    }

    /// The place behind the `pre` element at the place, if one begins there.
    fn pre(&mut self, at: usize) -> Option<usize>
        requires { at ≤ length self.old }
        ensures end { EndsAt (element (codes "pre")) self.old at result }
        ensures text { self.new ≡ self.old }
    {
        let inside = self.opening_tag(at, b"pre")?;
        if is_closed_in_itself(self.text, at, inside) {
            return Some(inside);
        }
        behind_known_element_end(self.text, &mut self.no_pre_end_from, inside, b"pre")
    }

    /// The place behind the `nowiki` or `pre` element at the place, if one begins there.
    pub fn sealed_element(&mut self, at: usize) -> Option<usize>
        requires { at ≤ length self.old }
        ensures end { EndsAt sealed_element self.old at result }
        ensures text { self.new ≡ self.old }
    {
        if let Some(end) = self.nowiki(at) {
            return Some(end);
        }
        self.pre(at)
    }

    /// The place behind the element of the name at the place, if one begins there. Without an end it runs to the end
    /// of the text.
    #[inline(always)]
    fn open_ended_element(&mut self, at: usize, name: &[u8]) -> Option<usize>
        requires within { at ≤ length self.old }
        requires some { 0 < length name.now }
        ensures end { EndsAt (open_ended_element name.now) self.old at result }
        ensures text { self.new ≡ self.old }
    {
        let inside = self.opening_tag(at, name)?;
        if is_closed_in_itself(self.text, at, inside) {
            return Some(inside);
        }
        if let Some(end) = behind_element_end(self.text, inside, name) {
            return Some(end);
        }
        Some(self.text.len())
    }

    /// The place behind the element at the place that the mode leaves out, if one begins there.
    pub fn ignored_element(&mut self, mode: Mode, at: usize) -> Option<usize>
        requires { at ≤ length self.old }
        ensures end { EndsAt (ignored_element mode) self.old at result }
        ensures text { self.new ≡ self.old }
    {
        match mode {
            Mode::View => self.open_ended_element(at, b"includeonly"),
            Mode::Include => self.open_ended_element(at, b"noinclude"),
        }
    }

    /// The place behind the tag of the name at the place, opening or end, if one begins there.
    #[inline(always)]
    fn any_tag(&mut self, at: usize, name: &[u8]) -> Option<usize>
        requires within { at ≤ length self.old }
        requires some { 0 < length name.now }
        ensures end { EndsAt (any_tag name.now) self.old at result }
        ensures text { self.new ≡ self.old }
    {
        if let Some(end) = self.opening_tag(at, name) {
            return Some(end);
        }
        self.end_tag(at, name)
    }

    /// The place behind the tag of `noinclude` or `onlyinclude` at the place, if one begins there.
    fn tag_of_included_text(&mut self, at: usize) -> Option<usize>
        requires { at ≤ length self.old }
        ensures end { EndsAt (silent_tag Mode.View) self.old at result }
        ensures text { self.new ≡ self.old }
    {
        if let Some(end) = self.any_tag(at, b"noinclude") {
            return Some(end);
        }
        self.any_tag(at, b"onlyinclude")
    }

    /// The place behind the tag at the place of which the mode shows the content alone, if one begins there.
    pub fn silent_tag(&mut self, mode: Mode, at: usize) -> Option<usize>
        requires { at ≤ length self.old }
        ensures end { EndsAt (silent_tag mode) self.old at result }
        ensures text { self.new ≡ self.old }
    {
        match mode {
            Mode::View => self.tag_of_included_text(at),
            Mode::Include => self.any_tag(at, b"includeonly"),
        }
    }
}

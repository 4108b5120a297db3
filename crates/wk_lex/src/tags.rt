//! Tags, with a memory of what was looked for in vain, so that no search is made twice.
ghost use Rattle.std.specs.Prelude.{◌≡◌, ◌<◌, ◌≤◌, length, codes, IfSome};
ghost use Rattle.wk_text_rules.specs.Shapes.{exactly, up_to};
ghost use Rattle.wk_tree_rules.specs.Tags.{tag_rest, opening_tag, end_tag};
ghost use Rattle.wk_lex.specs.Parts.{tag_rest_to_angle};
ghost use Rattle.wk_lex.specs.Places.{EndsAt, IsNearest};

use crate::places::{behind_name_end, name_at, nearest, word_at};
use std::marker::Model;

/// The nearest `>` from the place `at` on, where the nearest one from the place `from` on is known.
fn nearest_angle(text: &[u8], from: usize, known: Option<usize>, at: usize) -> Option<usize>
    requires within { at ≤ length text.now }
    requires known { IsNearest (codes ">") text.now from known }
    ensures { IsNearest (codes ">") text.now at result }
{
    match known {
        None if from <= at => None,
        Some(place) if from <= at && at <= place => Some(place),
        _ => nearest(text, at, b">"),
    }
}

/// A text in which tags are looked for. It is seen as the text alone.
#[derive(Drop)]
pub struct Tags<'a> {
    pub text: &'a [u8],
    /// A place, and the nearest `>` from it on.
    angle_from: usize,
    angle: Option<usize>,
    /// The places from which on no `nowiki` element ends, and no `pre` element.
    pub no_nowiki_end_from: usize,
    pub no_pre_end_from: usize,
}

impl<'a> Model for Tags<'a> {
    ghost use Rattle.std.specs.Prelude.{◌≡◌, ℕ, List, codes};
    ghost use Rattle.wk_lex.specs.Places.{IsNearest, IsNowhereFrom};
    ghost use Rattle.wk_tree_rules.specs.Tags.{element_end};

    ghost Value = { List ℕ };

    ghost view = { λ t. t.text.now };

    ghost invariant = { λ t. IsNearest (codes ">") t.text.now t.angle_from t.angle
        × IsNowhereFrom (element_end (codes "nowiki")) t.text.now t.no_nowiki_end_from
        × IsNowhereFrom (element_end (codes "pre")) t.text.now t.no_pre_end_from };
}

impl<'a> Tags<'a> {
    /// The text, of which nothing is known yet.
    pub fn new(text: &'a [u8]) -> Tags<'a>
        ensures { result ≡ text.now }
    {
        Tags {
            text,
            angle_from: text.len(),
            angle: None,
            no_nowiki_end_from: text.len(),
            no_pre_end_from: text.len(),
        }
    }

    /// The place behind the nearest `>` from the place on, if there is one.
    fn behind_angle(&mut self, at: usize) -> Option<usize>
        requires { at ≤ length self.old }
        ensures end { EndsAt (up_to (exactly (codes ">"))) self.old at result }
        ensures text { self.new ≡ self.old }
    {
        let place = nearest_angle(self.text, self.angle_from, self.angle, at);
        self.angle_from = at;
        self.angle = place;
        match place {
            Some(place) => Some(place + 1),
            None => None,
        }
    }

    /// The place behind a space, a tab or a newline at the place and all up to the nearest `>`.
    fn tag_rest_to_angle(&mut self, at: usize) -> Option<usize>
        requires { at ≤ length self.old }
        ensures end { EndsAt tag_rest_to_angle self.old at result }
        ensures text { self.new ≡ self.old }
    {
        let inside = behind_name_end(self.text, at)?;
        self.behind_angle(inside)
    }

    /// The place behind the rest of a tag behind its name.
    fn tag_rest(&mut self, at: usize) -> Option<usize>
        requires { at ≤ length self.old }
        ensures end { EndsAt tag_rest self.old at result }
        ensures text { self.new ≡ self.old }
    {
        if let Some(end) = word_at(self.text, at, b">") {
            return Some(end);
        }
        if let Some(end) = word_at(self.text, at, b"/>") {
            return Some(end);
        }
        self.tag_rest_to_angle(at)
    }

    /// The place behind the opening tag of the name at the place, if one begins there.
    #[inline(always)]
    pub fn opening_tag(&mut self, at: usize, name: &[u8]) -> Option<usize>
        requires within { at ≤ length self.old }
        requires some { 0 < length name.now }
        ensures end { EndsAt (opening_tag name.now) self.old at result }
        ensures text { self.new ≡ self.old }
    {
        let start = word_at(self.text, at, b"<")?;
        let rest = name_at(self.text, start, name)?;
        self.tag_rest(rest)
    }

    /// The place behind the end tag of the name at the place, if one begins there.
    #[inline(always)]
    pub fn end_tag(&mut self, at: usize, name: &[u8]) -> Option<usize>
        requires within { at ≤ length self.old }
        requires some { 0 < length name.now }
        ensures end { EndsAt (end_tag name.now) self.old at result }
        ensures text { self.new ≡ self.old }
    {
        let start = word_at(self.text, at, b"</")?;
        let rest = name_at(self.text, start, name)?;
        self.tag_rest(rest)
    }
}

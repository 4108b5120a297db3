//! What a page's inclusion finds.
ghost use Rattle.std.specs.Prelude.{◌≡◌, IfOk, OnOk, Some};
ghost use Rattle.wk_tree_rules.specs.Redirects.{redirect_target};
ghost use Rattle.wk_view_rules.specs.Expand.{included_text, inclusion, redirected};
ghost use Rattle.wk_expand.specs.Inclusions.{Finds, FindsIn};
ghost use Rattle.wk_expand.specs.Running.{IsSame, Keeps};

use crate::answer::Answer;
use crate::seen::Seen;
use crate::state::{Expander, Stop};
use crate::texts::{depth_error, link_text, loop_error, node_error};
use wk_bytes::Text;
use wk_memory::Memory;
use wk_out::Out;
use wk_redirect::redirect_target;
use wk_title::Title;
use wk_view_rules::Kind;

/// What an inclusion finds.
#[derive(Drop)]
pub enum Found {
    /// Nothing to be included: this output stands in its place.
    Gives(Out),
    /// The text of this title.
    Includes(Title, Text),
    /// The title redirects to this one, whose text isn't asked for yet.
    Redirects(Title),
}

impl Expander {
    /// What is included for a title (MediaWiki's Help:Templates and Help:Redirects).
    #[inline(always)]
    pub fn inclusion(&mut self, seen: &Seen, title: &Title) -> Result<Found, Stop>
        ensures same { OnOk result (IsSame self.old self.new) }
        ensures keeps { Keeps result self.old self.new }
        ensures finds { Finds seen.now (λ inner viewed frame parts.
            inclusion inner viewed frame title.now parts) title.now self.old result self.new }
    {
        if title.is_virtual() {
            return Ok(Found::Gives(link_text(self.alloc, title)?));
        }
        if self.levels.is_within(title) {
            return Ok(Found::Gives(loop_error(self.alloc, title)?));
        }
        if self.levels.is_deep() {
            return Ok(Found::Gives(depth_error(self.alloc, title)?));
        }
        match self.answer(seen, title, Kind::Include)? {
            Answer::Page(Some((_, text))) => Ok(self.included_text(title, text)?),
            Answer::Page(None) => Ok(Found::Gives(link_text(self.alloc, title)?)),
            Answer::Exists(_) => Ok(Found::Gives(link_text(self.alloc, title)?)),
        }
    }

    /// What is included for a title with this text: the text, or where it redirects to.
    #[inline(always)]
    fn included_text(&mut self, title: &Title, text: Text) -> Result<Found, Memory>
        ensures same { IfOk result (λ found. IsSame self.old self.new) }
        ensures finds { IfOk result (λ found. FindsIn (λ inner viewed frame parts.
            included_text inner viewed frame title.now text parts) title.now self.old found self.new) }
    {
        let Some(target) = redirect_target(self.alloc, text.as_str())? else {
            return Ok(Found::Includes(title.share()?, text));
        };
        if !self.charge(1 + text.len() as u64 / 64) {
            return Ok(Found::Gives(node_error(self.alloc)?));
        }
        Ok(Found::Redirects(target))
    }

    /// What is included for a title that redirects to a target, which isn't followed further (own).
    pub fn redirected(&mut self, seen: &Seen, title: &Title, target: &Title) -> Result<Found, Stop>
        ensures same { OnOk result (IsSame self.old self.new) }
        ensures keeps { Keeps result self.old self.new }
        ensures finds { Finds seen.now (λ inner viewed frame parts.
            redirected inner viewed frame title.now target.now parts) title.now self.old result self.new }
    {
        if self.levels.is_within(target) {
            return Ok(Found::Gives(loop_error(self.alloc, target)?));
        }
        match self.answer(seen, target, Kind::Include)? {
            Answer::Page(Some((_, text))) => Ok(Found::Includes(target.share()?, text)),
            Answer::Page(None) => Ok(Found::Gives(link_text(self.alloc, title)?)),
            Answer::Exists(_) => Ok(Found::Gives(link_text(self.alloc, title)?)),
        }
    }
}

//! What a text becomes.
ghost use Rattle.std.specs.Prelude.{◌≡◌, map};
ghost use Rattle.wk_view_rules.specs.Worlds.{IsSeen};
ghost use Rattle.wk_expand.specs.Drafts.{with_mark};
ghost use Rattle.wk_subst.specs.Substituted.{IsSubstituted};

use crate::output::Output;
use crate::reads::Reads;
use std::marker::Model;
use wk_bytes::Text;
use wk_expand::Read;
use wk_title::Title;

/// What a text becomes before it is saved, and what was read for it.
///
/// Contracts see the text that is saved, what it becomes, and the reads with their answers. By its type it is what the text
/// becomes in each world that answers its reads in the same way.
#[derive(Drop)]
pub struct Substituted {
    pub(crate) saved: Text,
    pub(crate) out: Output,
    pub(crate) reads: Reads,
}

impl Model for Substituted {
    ghost use Rattle.wk_subst.specs.Substituted.{IsSubstituted, SubstitutedShown};

    ghost Value = { SubstitutedShown };

    ghost view = { λ s. record { saved = s.saved; text = s.out; reads = s.reads } };

    ghost invariant = { λ s. IsSubstituted s.saved s.out s.reads };
}

/// What a substitution comes to.
#[derive(Drop)]
pub enum SubstStep {
    /// All that was asked was seen.
    Done(Substituted),
    /// The text of this title's page wasn't seen.
    Needs(Title),
}

impl Substituted {
    /// The text that is saved, as it was given. Takes no memory.
    pub fn saved(&self) -> &Text
        ensures { result.now ≡ self.now.saved }
    {
        &self.saved
    }

    /// What the text becomes. Takes no memory.
    pub fn text(&self) -> &str
        ensures value { result.now ≡ self.now.text }
        // What is known of each: it is what the text becomes wherever its reads are answered so.
        ensures everywhere { IsSubstituted self.now.saved self.now.text self.now.reads }
    {
        self.out.as_str()
    }

    /// What was read, each title once and with kind Include, in the order of first reading. Takes no memory.
    pub fn reads(&self) -> &[Read]
        ensures value { result.now ≡ map with_mark self.now.reads }
        // What is known of each: no pair is read twice, and each answer has the form that its kind asks for.
        ensures seen { IsSeen self.now.reads }
    {
        self.reads.marked()
    }
}

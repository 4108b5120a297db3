//! What a page or a given text expands to.
ghost use Rattle.std.specs.Prelude.{◌≡◌, map};
ghost use Rattle.std.specs.Option.{option_copied};
ghost use Rattle.wk_view_rules.specs.Worlds.{IsSeen};
ghost use Rattle.wk_expand.specs.Answers.{counters_of};
ghost use Rattle.wk_expand.specs.Drafts.{IsDraft, with_mark, turned_by};

use crate::answer::{Counts, Read};
use crate::seen::Seen;
use std::alloc::Global;
use std::marker::Model;
use wk_bytes::Text;
use wk_memory::Memory;
use wk_out::Out;
use wk_title::Title;
use wk_view_rules::Kind;

/// What is expanded.
#[derive(Drop)]
pub enum Root {
    /// The page's own text.
    Page,
    /// A text in the place of the page's own.
    Given(Text),
}

/// What a page, or a text in the place of its own, expands to: the output, what it cost, and what was read for it.
///
/// Contracts see the page, the given text, the output and what it cost, and the reads with their answers. By its type
/// a draft is what the page expands to in each world that answers its reads in the same way.
#[derive(Drop)]
pub struct Draft {
    pub(crate) page: Title,
    pub(crate) given: Option<Text>,
    pub(crate) out: Out,
    pub(crate) counts: Counts,
    pub(crate) seen: Seen,
    pub(crate) reads: Vec<Read>,
    pub(crate) turned: Option<Title>,
}

impl Model for Draft {
    ghost use Rattle.wk_expand.specs.Drafts.{DraftShown};

    ghost Value = { DraftShown };

    ghost use Rattle.wk_expand.specs.Kept.{expanded_with, IsKept};

    ghost view = { λ d. record {
      page = d.page;
      given = d.given;
      expanded = expanded_with d.out d.counts;
      reads = d.seen;
    } };

    ghost invariant = { λ d. IsKept d };
}

/// What a draft comes to.
#[derive(Drop)]
pub enum Step {
    /// All that was asked was seen.
    Done(Draft),
    /// This title wasn't seen with this kind.
    Needs(Title, Kind),
}

impl Draft {
    /// The page. Takes no memory.
    pub fn page(&self) -> &Title
        ensures value { result.now ≡ self.now.page }
        // What is known of each draft: its output is what the page expands to wherever its reads are answered so.
        ensures everywhere { IsDraft self.now.page self.now.given self.now.expanded self.now.reads }
    {
        &self.page
    }

    /// The output. Takes no memory.
    pub fn out(&self) -> &Out
        ensures { result.now ≡ self.now.expanded.out }
    {
        &self.out
    }

    /// What was read, each pair of a title and a kind once, in the order of first reading. Takes no memory.
    pub fn reads(&self) -> &[Read]
        ensures value { result.now ≡ map with_mark self.now.reads }
        // What is known of each draft's reads: no pair is read twice, and each answer has the form that its kind asks for.
        ensures seen { IsSeen self.now.reads }
    {
        &self.reads
    }

    /// What it cost. Takes no memory.
    pub fn counts(&self) -> Counts
        ensures { counters_of result ≡ self.now.expanded.counters }
    {
        self.counts
    }

    /// The title that the page redirects to; `None` where it redirects nowhere, is missing, or a text was given in the
    /// place of its own. Takes no memory.
    pub fn turned(&self) -> Option<&Title>
        ensures { option_copied result ≡ turned_by self.now.page self.now.given self.now.reads }
    {
        self.turned.as_ref()
    }
}

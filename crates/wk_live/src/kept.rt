//! What is kept of a wiki's state as it begins.
ghost use Rattle.std.specs.Prelude.{◌≡◌, IfOk};
ghost use Rattle.wk_wiki_rules.specs.Starts.{kept_of};

use crate::live::Live;
use std::marker::Model;
use wk_index::SharedRows;
use wk_jobs::ListedJobs;
use wk_memory::Memory;

/// What is kept of the state of a wiki as it begins, so that it can be told later: how many revisions and pages stood, and
/// the link rows and the jobs. A page costs a pointer.
#[derive(Drop)]
pub struct Kept {
    /// How many revisions stood.
    pub revisions: u64,
    /// How many pages there were.
    pub pages: usize,
    /// The link rows that were stored of each page, in the order of the pages.
    pub stored: Vec<SharedRows>,
    /// The jobs.
    pub jobs: ListedJobs,
}

impl Model for Kept {
    ghost use Rattle.wk_wiki_rules.specs.Starts.{StartKept};

    ghost Value = { StartKept };

    ghost view = { λ k. record { revisions = k.revisions; pages = k.pages; stored = k.stored.items; jobs = k.jobs } };
}

impl Live {
    /// What is kept of the state of this moment, if a wiki begins in it. No text and no title is copied.
    pub fn kept(&self) -> Result<Kept, Memory>
        ensures { IfOk result (λ kept. kept ≡ kept_of self.now.state) }
    {
        Ok(Kept {
            revisions: self.revs.next_revision() - 1,
            pages: self.revs.page_count(),
            stored: self.index.stored()?,
            jobs: self.jobs.listed()?,
        })
    }
}

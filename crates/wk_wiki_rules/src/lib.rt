//! The rules of a wiki, as definitions. Of its states: what a state is, which events there are and what each does, what a restart
//! and a new version of the store give, and what it means that link rows are sound. Of its jobs: which stand and in which order,
//! what each call does to them, and which pages name a title. Of its listings: pages and revisions that a history has, the pages
//! that link to a title, and the members of a category, each as a filter and a sort of what is stored; and how a page's names
//! change in two halves. Of its calls: the change of the tables that goes with each event, what each call tells, the room that it
//! needs, the wiki's start and its entries, and what one caller has seen.
//! Nothing here runs. The contracts of the crates above cite `specs/`.
#![tactic(auto)]

mod laws;

pub use laws::{
    a_job_has_a_number_of_its_own, a_page_has_one_refresh_job, a_title_has_one_fan_job,
    which_pages_have_a_job,
};

/// An entry of a wiki's journal. A save stands by the number of its revision, which has the title, the text and the
/// moment; so an entry is small.
#[derive(Clone, Copy, PartialEq, Eq)]
pub enum Entry {
    /// A save made this revision.
    Save {
        /// The number of the revision, from 1.
        revision: u64,
    },
    /// The first queued refresh job was claimed. Its ticket is the number of this entry, from 1.
    Claim,
    /// The refresh with this ticket has set its page's link rows.
    Done(u64),
    /// The refresh with this ticket was given back.
    Back(u64),
    /// The first fan job has served its next pages.
    Fan,
}

/// How many jobs stand.
#[derive(Clone, Copy, PartialEq, Eq)]
pub struct Left {
    /// The refresh jobs that wait.
    pub queued: u64,
    /// The refresh jobs that are claimed.
    pub claimed: u64,
    /// The fan jobs.
    pub fans: u64,
}

//! What a step of a worker comes to.

use wk_core::{Fanned, Kind};
use wk_title::Title;

/// What a step of a worker did (own; MediaWiki's Manual:Job queue).
#[derive(Drop)]
pub enum Refreshed {
    /// No refresh job is queued and no fan job stands.
    Idle {
        /// How many refresh jobs are claimed.
        claimed: u64,
    },
    /// A fan job was served.
    Fanned(Fanned),
    /// The page's link rows are those that it has in the present world, and its job is gone.
    Done(Title),
    /// A title that was read for the page has changed since: the first such read. The job is queued again.
    Back {
        /// The title that was read.
        title: Title,
        /// What was asked of it.
        kind: Kind,
        /// The mark that was read.
        read: u64,
        /// The mark that it has now.
        now: u64,
    },
    /// The journal has no room. Nothing was done.
    JournalFull,
    /// The store failed. A job that was claimed is queued again.
    StoreFault,
    /// Memory ran out. A job that was claimed is queued again.
    Memory,
}

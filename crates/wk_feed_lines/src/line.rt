//! What a line says.

use wk_bytes::Text;
use wk_table_rows::{CategoryRow, JobRow, LinkRow, PageRow, RedirectRow, RevisionRow};

/// A row of a store's tables, by its table.
#[derive(Drop)]
pub enum FeedRow {
    /// A row of page.
    Page(PageRow),
    /// A row of revision.
    Revision(RevisionRow),
    /// A row of pagelinks.
    PageLink(LinkRow),
    /// A row of templatelinks.
    TemplateLink(LinkRow),
    /// A row of existlinks.
    ExistLink(LinkRow),
    /// A row of categorylinks.
    CategoryLink(CategoryRow),
    /// A row of redirect.
    Redirect(RedirectRow),
    /// A row of job.
    Job(JobRow),
    /// The row `version` of site, with its value as it is written.
    Site(Text),
}

/// An event, as its line tells it.
#[derive(Drop)]
pub enum EventLine {
    /// A save.
    Save {
        /// The title as it is shown.
        title: String,
        /// The text as it is kept, or none for a deletion.
        text: Option<String>,
        /// Seconds since 1970.
        moment: u64,
    },
    /// A claim of the first refresh job that waits.
    Claim,
    /// The refresh with this ticket was done.
    Done(u64),
    /// The refresh with this ticket was given back.
    Back(u64),
    /// A step of the first fan-out job.
    Fan,
}

/// What a line of a feed says.
#[derive(Drop)]
pub enum FeedLine {
    /// A row of a table.
    Row(FeedRow),
    /// All rows are told, and events follow.
    Start,
    /// An event.
    Event(EventLine),
}

//! What is asked of a save, and how much a wiki holds at most.
ghost use Rattle.std.specs.Prelude.{◌≡◌};
ghost use Rattle.wk_page_rules.specs.Verdict.{full_limits};
ghost use Rattle.wk_revs.specs.Edit.{most_held};

/// An edit of a page, as it is asked for.
#[derive(Drop)]
pub struct Edit {
    /// A text that names the page, in main where it gives no namespace.
    pub title: String,
    /// The new text, or `None` for a deletion.
    pub body: Option<String>,
    /// The revision that the editor began with, 0 for a missing page; without one the edit never conflicts.
    pub base: Option<u64>,
    /// Only a page that is missing may be saved.
    pub create_only: bool,
    /// Only a page that exists may be saved.
    pub no_create: bool,
}

/// How much a wiki holds at most (own).
#[derive(Clone, Copy, PartialEq, Eq)]
pub struct Limits {
    /// The number of pages, those that are missing now among them.
    pub pages: u64,
    /// The number of revisions.
    pub revisions: u64,
    /// The bytes of the texts of all revisions.
    pub text: u64,
    /// The number of events since the store was opened.
    pub journal: u64,
}

impl Limits {
    /// The limits that no wiki goes beyond. Tests lower them.
    pub const FULL: Limits = Limits {
        pages: 1_000_000,
        revisions: 16_777_216,
        text: 1_073_741_824,
        journal: 33_554_432,
    };
}

/// The full limits are those of the rules.
pub fn full_is_the_full_limits()
    ensures { most_held Limits.FULL ≡ full_limits }
{}

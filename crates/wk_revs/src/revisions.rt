//! The revisions of a wiki, in the order of their saves.
ghost use Rattle.std.specs.Prelude.{◌≡◌, ℕ, ◌+◌, ◌-◌, ◌<◌, ◌^◌, ◌==◌, None, nat_lt, slice_get, if◌then◌else◌};
ghost use Rattle.std.specs.Option.{SomeIff, option_copied};
ghost use Rattle.wk_page_rules.specs.History.{text_of_revision};
ghost use Rattle.wk_revs.specs.Revs.{of_revisions};

use std::marker::Model;
use wk_bytes::Text;

/// One saved text. Its number is one more than its place in the list.
#[derive(Drop)]
pub struct Revision {
    /// The number of its page.
    page: u32,
    /// The revision that was current before it, 0 where the page was missing.
    parent: u64,
    /// When it was saved, in seconds since 1970.
    moment: u64,
    /// What was saved, or `None` where the page was deleted.
    text: Option<Text>,
}

impl Model for Revision {
    ghost use Rattle.wk_page_rules.specs.History.{Revision as RevisionRecord};

    ghost Value = { RevisionRecord };

    ghost view = { λ r. record { page = r.page; parent = r.parent; moment = r.moment; text = r.text } };
}

impl Revision {
    pub(crate) fn new(page: u32, parent: u64, moment: u64, text: Option<Text>) -> Revision
        ensures { result ≡ record { page = page; parent = parent; moment = moment; text = text } }
    {
        Revision {
            page,
            parent,
            moment,
            text,
        }
    }

    /// The number of its page. Takes no memory.
    pub fn page(&self) -> u32
        ensures { result ≡ self.now.page }
    {
        self.page
    }

    /// The revision that was current before it, 0 where the page was missing. Takes no memory.
    pub fn parent(&self) -> u64
        ensures { result ≡ self.now.parent }
    {
        self.parent
    }

    /// When it was saved, in seconds since 1970. Takes no memory.
    pub fn moment(&self) -> u64
        ensures { result ≡ self.now.moment }
    {
        self.moment
    }

    /// What was saved, `None` exactly where the page was deleted. Takes no memory.
    pub fn text(&self) -> Option<&Text>
        ensures { option_copied result ≡ self.now.text }
    {
        self.text.as_ref()
    }
}

/// The sum of two numbers of bytes, of which the first may be too large for its type, and then the sum is.
pub fn sum_of(bytes: Option<u64>, more: u64) -> Option<u64>
    ensures { (sum : ℕ) → SomeIff bytes (sum < 2 ^ 64) sum → SomeIff result (sum + more < 2 ^ 64) (sum + more) }
{
    match bytes {
        Some(sum) => sum.checked_add(more),
        None => None,
    }
}

/// Whether so many bytes, which may be too many for their type, and `more` bytes are more than `most` together.
pub fn is_sum_above(bytes: Option<u64>, more: u64, most: u64) -> bool
    ensures { (sum : ℕ) → SomeIff bytes (sum < 2 ^ 64) sum → result ≡ nat_lt most (sum + more) }
{
    match bytes {
        Some(sum) => most < sum || most - sum < more,
        None => true,
    }
}

/// The revision with this number.
pub fn revision_at(revisions: &[Revision], number: u64) -> Option<&Revision>
    ensures { option_copied result ≡ (if number == 0 then None else slice_get revisions.now (number - 1)) }
{
    if number == 0 {
        return None;
    }
    revisions.get(number as usize - 1)
}

/// The text of the revision with this number, where it has one.
pub fn text_of_revision(revisions: &[Revision], number: u64) -> Option<&Text>
    ensures { option_copied result ≡ text_of_revision (of_revisions revisions.now) number }
{
    match revision_at(revisions, number) {
        Some(revision) => revision.text(),
        None => None,
    }
}

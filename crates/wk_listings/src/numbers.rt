//! The numbers of the revisions below a number, the newest first.
ghost use Rattle.std.specs.Prelude.{◌≡◌, IfOk, map};
ghost use Rattle.wk_listings.specs.Owners.{falling, newest, number_before, numbered_at};
ghost use Rattle.wk_listings.specs.declared.numbers.Owner.TheVariants.{Every};

use std::alloc::Global;
use wk_memory::Memory;
use wk_revs::Revs;

/// Whose revisions are listed.
#[derive(Clone, Copy, PartialEq, Eq)]
pub enum Owner {
    /// Those of all pages.
    Every,
    /// Those of the page with this number.
    OfPage(u32),
}

/// The number before this one, where it is a revision's: revisions are numbered from 1.
fn before(number: u64) -> Option<u64>
    ensures { result ≡ number_before number }
{
    if 1 < number { Some(number - 1) } else { None }
}

/// The newest revision of all below this number, `None` exactly where there is none.
#[tactic(auto, using(crate::proofs::Falling::newest_of_all))]
fn newest_of_all(revs: &Revs, below: u64) -> Option<u64>
    ensures { result ≡ newest revs.now.history Every below }
{
    before(below.min(revs.next_revision()))
}

/// The newest revision below this number, `None` exactly where there is none.
fn newest_of(revs: &Revs, owner: Owner, below: u64) -> Option<u64>
    ensures { result ≡ newest revs.now.history owner below }
{
    match owner {
        Owner::Every => newest_of_all(revs, below),
        Owner::OfPage(page) => revs.newest_below(page, below),
    }
}

/// The numbers of the revisions below this number, deletions among them, the newest first, at most so many.
pub fn numbers_below(
    alloc: Global,
    revs: &Revs,
    owner: Owner,
    below: u64,
    most: usize,
) -> Result<Vec<u64>, Memory>
    ensures { IfOk result (λ numbers. map (numbered_at revs.now.history) numbers.items ≡ falling revs.now.history owner below most) }
{
    let mut numbers = Vec::new(alloc);
    let mut end = below;
    'steps: for step in 0..most {
        match newest_of(revs, owner, end) {
            Some(number) => {
                numbers.push(number)?;
                end = number;
            }
            None => return Ok(numbers),
        }
    }
    Ok(numbers)
}

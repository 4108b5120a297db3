//! Rows by their numbers.
ghost use Rattle.std.specs.Prelude.{◌≡◌, ◌-◌, ◌^◌, ◌<◌, take, option_copied};
ghost use Rattle.wk_table_rules.specs.GoodStore.{current_of};
ghost use Rattle.wk_bad_rows.specs.Keys.{current_with, is_bad_parent, row_at};

use wk_table_rows::RevisionRow;

/// The row with this number, counted from 1.
pub fn row_at<T>(rows: &[T], row: u64) -> Option<&T>
    ensures { option_copied result ≡ row_at rows.now row }
{
    if row == 0 {
        return None;
    }
    rows.get((row - 1) as usize)
}

/// The page's current revision behind one more revision, where this one was current before, 0 where there is none.
fn current_with(current: u64, revision: &RevisionRow, page: u64) -> u64
    ensures { result ≡ current_with current revision.now page }
{
    if revision.rev_page != page {
        current
    } else if revision.rev_gone {
        0
    } else {
        revision.rev_id
    }
}

/// The page's current revision by these revisions, 0 where it has none or its last is a deletion.
fn current_of(revisions: &[RevisionRow], page: u64) -> u64
    ensures { result ≡ current_of revisions.now page }
{
    let mut current = 0;
    for i in 0..revisions.len() {
        current = current_with(current, &revisions[i], page);
    }
    current
}

/// Whether the revision with this number, if there is one, has another parent than the revision that was current before it.
pub fn is_bad_parent(revisions: &[RevisionRow], row: u64) -> bool
    ensures { result ≡ is_bad_parent revisions.now row (row_at revisions.now row) }
{
    match row_at(revisions, row) {
        None => false,
        Some(revision) => {
            let before = &revisions[..(row - 1) as usize];
            revision.rev_parent_id != current_of(before, revision.rev_page)
        }
    }
}

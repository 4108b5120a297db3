//! Numbers of a change have 64 bits, as contracts know them. None of these does anything.
ghost use Rattle.std.specs.Prelude.{◌<◌, ◌^◌, map};
ghost use Rattle.wk_tables.specs.Edits.{edit_of};
ghost use Rattle.wk_sqlmemory.specs.Told.{AreEditsInRange, IsEditInRange};

use wk_tables::{Change, RowEdit};

fn number_is_in_range(number: u64)
    ensures { number < 2 ^ 64 }
{
    let _ = number;
}

fn edit_is_in_range(edit: &RowEdit)
    ensures { IsEditInRange (edit_of edit.now) }
{
    match edit {
        RowEdit::AddRevision(row) => number_is_in_range(row.rev_timestamp),
        RowEdit::SetVersion(version) => number_is_in_range(*version),
        _ => (),
    }
}

fn edits_are_in_range(edits: &[RowEdit])
    ensures { AreEditsInRange (map edit_of edits.now) }
{
    'edits: for edit in edits {
        edit_is_in_range(edit);
    }
}

/// Moments and the version in a change are below 2^64.
pub fn change_is_in_range(change: &Change)
    ensures { AreEditsInRange change.now }
{
    edits_are_in_range(&change.edits);
}

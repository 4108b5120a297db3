//! Changes of the tables.
ghost use Rattle.std.specs.Prelude.{◌≡◌, ◌+◌, ◌^◌, ◌<◌, IfOk, SomeIff};
ghost use Rattle.wk_tables.specs.Edits.{edit_of};
ghost use Rattle.wk_tables.specs.Room.{edit_room, lists_room, room_for};

use std::marker::Model;
use wk_memory::Memory;
use wk_table_rows::{JobRow, PageRow, PageRows, RevisionRow, Share, share_all};

/// One edit of the tables.
#[derive(Drop)]
pub enum RowEdit {
    /// Appends the revision.
    AddRevision(RevisionRow),
    /// Puts the row in the place of the page's row, or at the end where the page has none.
    SetPage(PageRow),
    /// Makes these all link rows of the page with this number.
    SetRows(u32, PageRows),
    /// Appends the job.
    AddJob(JobRow),
    /// Puts the row in the place of the job's row.
    SetJob(JobRow),
    /// Takes away the job with this number.
    DropJob(u64),
    /// Makes this the version.
    SetVersion(u64),
}

impl Share for RowEdit {
    fn share(&self) -> Result<RowEdit, Memory> {
        match self {
            RowEdit::AddRevision(row) => Ok(RowEdit::AddRevision(row.share()?)),
            RowEdit::SetPage(row) => Ok(RowEdit::SetPage(row.share()?)),
            RowEdit::SetRows(page, rows) => Ok(RowEdit::SetRows(*page, rows.share()?)),
            RowEdit::AddJob(row) => Ok(RowEdit::AddJob(row.share()?)),
            RowEdit::SetJob(row) => Ok(RowEdit::SetJob(row.share()?)),
            RowEdit::DropJob(id) => Ok(RowEdit::DropJob(*id)),
            RowEdit::SetVersion(version) => Ok(RowEdit::SetVersion(*version)),
        }
    }
}

/// A change of the tables: edits that are made in order. Contracts see them as a list.
#[derive(Drop)]
pub struct Change {
    pub edits: Vec<RowEdit>,
}

impl Model for Change {
    ghost use Rattle.std.specs.Prelude.{List, map};
    ghost use Rattle.wk_table_rules.specs.Changes.{TableEdit};
    ghost use Rattle.wk_tables.specs.Edits.{edit_of};

    ghost Value = { List TableEdit };

    ghost view = { λ c. map edit_of c.edits.items };
}

impl Change {
    /// The same change for a further owner. Its texts are shared, and its lists are copied.
    pub fn copy(&self) -> Result<Change, Memory>
        ensures { IfOk result (λ change. change ≡ self.now) }
    {
        let edits = share_all(*self.edits.allocator(), &self.edits)?;
        Ok(Change { edits })
    }

    /// How much room the change wants, where that is a number of the machine's.
    pub fn room(&self) -> Result<usize, Memory>
        ensures { IfOk result (λ room. room ≡ room_for self.now) }
    {
        let mut room: usize = 0;
        for edit in &self.edits {
            room = sum(room, edit_room(edit)?)?;
        }
        Ok(room)
    }
}

/// The sum, where it is a number of the machine's.
fn sum(a: usize, b: usize) -> Result<usize, Memory>
    ensures { IfOk result (λ sum. sum ≡ a + b) }
{
    a.checked_add(b).ok_or(Memory)
}

/// How much room the edit wants, where that is a number of the machine's.
fn edit_room(edit: &RowEdit) -> Result<usize, Memory>
    ensures { IfOk result (λ room. room ≡ edit_room (edit_of edit.now)) }
{
    match edit {
        RowEdit::SetRows(_, rows) => lists_room(rows).ok_or(Memory),
        _ => Ok(1),
    }
}

/// How much room the link rows of a page want, or `None` exactly where no number of the machine's tells it.
pub fn lists_room(rows: &PageRows) -> Option<usize>
    ensures { SomeIff result (lists_room rows.now < 2 ^ 64) (lists_room rows.now) }
{
    let read = rows.templates.len().checked_add(rows.exists.len())?;
    let linked = rows.links.len().checked_add(rows.members.len())?;
    read.checked_add(linked)?.checked_add(1)
}

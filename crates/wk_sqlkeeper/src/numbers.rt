//! Whether the numbers of a change fit the columns of a database, which keep whole numbers below 2^63.
ghost use Rattle.std.specs.Prelude.{◌≡◌, ◌&&◌};
ghost use Rattle.std.specs.List.{list_all};
ghost use Rattle.wk_tables.specs.Edits.{edit_of};
ghost use Rattle.wk_sqlkeeper.specs.Numbers.{change_fits_columns, edit_fits_columns, fits_column, page_fits, revision_fits};

use wk_table_rows::{PageRow, RevisionRow};
use wk_tables::{Change, RowEdit};

fn fits_column(number: u64) -> bool
    ensures { result ≡ fits_column number }
{
    number < 1 << 63
}

fn both_fit(a: u64, b: u64) -> bool
    ensures { result ≡ (fits_column a && fits_column b) }
{
    fits_column(a) && fits_column(b)
}

fn revision_fits(row: &RevisionRow) -> bool
    ensures { result ≡ revision_fits row.now }
{
    both_fit(row.rev_id, row.rev_page) && both_fit(row.rev_parent_id, row.rev_len)
}

fn page_fits(row: &PageRow) -> bool
    ensures { result ≡ page_fits row.now }
{
    fits_column(row.page_id) && both_fit(row.page_latest, row.page_len)
}

fn edit_fits_columns(edit: &RowEdit) -> bool
    ensures { result ≡ edit_fits_columns (edit_of edit.now) }
{
    match edit {
        RowEdit::AddRevision(row) => revision_fits(row),
        RowEdit::SetPage(row) => page_fits(row),
        RowEdit::AddJob(row) => fits_column(row.job_id),
        RowEdit::SetJob(row) => fits_column(row.job_id),
        RowEdit::DropJob(id) => fits_column(*id),
        RowEdit::SetRows(_, _) => true,
        RowEdit::SetVersion(_) => true,
    }
}

fn edits_fit_columns(edits: &[RowEdit]) -> bool
    ensures { result ≡ list_all (λ edit. edit_fits_columns (edit_of edit)) edits.now }
{
    edits.iter().all(|edit| edit_fits_columns(edit))
}

/// Whether each number of the change, but for moments and the version, is below 2^63. Takes no memory.
pub fn change_fits_columns(change: &Change) -> bool
    ensures { result ≡ change_fits_columns change.now }
{
    edits_fit_columns(&change.edits)
}

//! Whether the link rows of a change are in order: by title, each title once.
ghost use Rattle.std.specs.Prelude.{◌≡◌, map};
ghost use Rattle.std.specs.List.{list_all};
ghost use Rattle.std.specs.Ordering.{is_lt};
ghost use Rattle.wk_text_rules.specs.Titles.{title_cmp};
ghost use Rattle.wk_table_rows.specs.Members.{member_of};
ghost use Rattle.wk_tables.specs.Edits.{edit_of};
ghost use Rattle.wk_sqltables.specs.Members.{category_cmp};
ghost use Rattle.wk_sqlkeeper.specs.Rising.{change_rises, edit_rises, rises, rows_rise};

use wk_bytes::Text;
use wk_tables::{Change, PageLists, RowEdit};
use wk_title::Title;

fn is_below(a: &Title, b: &Title) -> bool
    ensures { result ≡ is_lt (title_cmp a.now b.now) }
{
    a.cmp(b).is_lt()
}

/// Whether each title is below those behind it.
fn titles_rise(titles: &[Title]) -> bool
    ensures { result ≡ rises title_cmp titles.now }
{
    titles.is_sorted_by(|a, b| is_below(a, b))
}

/// Whether the key of the category is below the other one's.
fn is_category_below(a: &(Title, Text, Text), b: &(Title, Text, Text)) -> bool
    ensures { result ≡ is_lt (category_cmp (member_of a.now) (member_of b.now)) }
{
    a.0.key().cmp(b.0.key()).is_lt()
}

/// Whether the key of each category is below those behind it.
fn members_rise(members: &[(Title, Text, Text)]) -> bool
    ensures { result ≡ rises category_cmp (map member_of members.now) }
{
    members.is_sorted_by(|a, b| is_category_below(a, b))
}

fn rows_rise(rows: &PageLists) -> bool
    ensures { result ≡ rows_rise rows.now }
{
    if !titles_rise(&rows.templates) {
        return false;
    }
    if !titles_rise(&rows.exists) {
        return false;
    }
    if !titles_rise(&rows.links) {
        return false;
    }
    members_rise(&rows.members)
}

fn edit_rises(edit: &RowEdit) -> bool
    ensures { result ≡ edit_rises (edit_of edit.now) }
{
    match edit {
        RowEdit::SetRows(_, rows) => rows_rise(rows),
        _ => true,
    }
}

fn edits_rise(edits: &[RowEdit]) -> bool
    ensures { result ≡ list_all (λ edit. edit_rises (edit_of edit)) edits.now }
{
    edits.iter().all(|edit| edit_rises(edit))
}

/// Whether each list of link rows in the change is in the order of its titles, and has each title once. Takes no memory.
pub fn change_rises(change: &Change) -> bool
    ensures { result ≡ change_rises change.now }
{
    edits_rise(&change.edits)
}

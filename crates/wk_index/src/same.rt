//! Whether two pages' rows are the same.
ghost use Rattle.std.specs.Prelude.{◌≡◌, ◌↔◌, IsTrue, map};
ghost use Rattle.wk_table_rows.specs.Members.{member_of};

use wk_bytes::Text;
use wk_table_rows::PageRows;
use wk_title::Title;

fn same_titles(a: &[Title], b: &[Title]) -> bool
    ensures { IsTrue result ↔ (a.now ≡ b.now) }
{
    a == b
}

fn same_members(a: &[(Title, Text, Text)], b: &[(Title, Text, Text)]) -> bool
    ensures { IsTrue result ↔ (map member_of a.now ≡ map member_of b.now) }
{
    a == b
}

fn same_redirect(a: &Option<Title>, b: &Option<Title>) -> bool
    ensures { IsTrue result ↔ (a.now ≡ b.now) }
{
    a == b
}

/// Whether the rows are the same: the same titles and members in the same order, and the same redirect. Takes no
/// memory.
pub fn is_same(a: &PageRows, b: &PageRows) -> bool
    ensures { IsTrue result ↔ (a.now ≡ b.now) }
{
    if !same_titles(&a.templates, &b.templates) {
        return false;
    }
    if !same_titles(&a.exists, &b.exists) {
        return false;
    }
    if !same_titles(&a.links, &b.links) {
        return false;
    }
    if !same_members(&a.members, &b.members) {
        return false;
    }
    same_redirect(&a.redirect, &b.redirect)
}

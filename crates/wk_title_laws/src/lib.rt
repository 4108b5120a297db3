//! The laws of titles, of those that pages can have, and of those in a page's rows. Nothing here runs.
#![tactic(auto)]

ghost use Rattle.std.specs.Prelude.{◌≡◌, ℕ, ℤ, pos, true, List, Some};
ghost use Rattle.wk_text_rules.specs.Titles.{PageTitle, is_namespace, normal, shown, is_page_title};
ghost use Rattle.wk_view_rules.specs.Rows.{rows};
ghost use Rattle.wk_view_rules.specs.Worlds.{World};
ghost use Rattle.wk_view_laws.specs.Titles.{IsPageTitle};
ghost use Rattle.wk_title_laws.specs.NormalTitles.{RowsHaveNormalTitles};

use wk_title::Title;

/// Where some text names a title, the title's shown form names it too, with main as the default. The text need not be
/// UTF-8.
pub fn shown_form_names_its_title()
    ensures { (text : List ℕ) (default_ns : ℤ) (title : PageTitle) → is_namespace default_ns ≡ true → normal text default_ns ≡ Some title → normal (shown title) (pos 0) ≡ Some title }
{}

/// The shown form of a `Title` names it, with main as the default.
pub fn shown_normalizes(title: &Title)
    ensures { normal (shown title.now) (pos 0) ≡ Some title.now }
{
    let _key = title.key();
}

/// The namespace of a `Title` is one of the table's.
pub fn namespace_is_in_the_table(title: &Title)
    ensures { is_namespace title.now.ns ≡ true }
{
    let _key = title.key();
}

/// Some text names a title, and it isn't virtual, exactly where the title's shown form names it, and it isn't virtual.
pub fn a_page_title_is_named_by_its_shown_form()
    ensures named { (title : PageTitle) → IsPageTitle title → is_page_title title ≡ true }
    ensures only_so { (title : PageTitle) → is_page_title title ≡ true → IsPageTitle title }
{}

/// Each title in a page's rows is normal, whatever the texts of the world are.
pub fn titles_of_rows_are_normal()
    ensures { (pages : World) (page : PageTitle) → RowsHaveNormalTitles (rows pages page) }
{}

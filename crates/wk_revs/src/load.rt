//! The revisions and pages of the tables of a store.
ghost use Rattle.std.specs.Prelude.{◌≡◌, ℕ, ◌≤◌, ◌<◌, ◌==◌, [], not, true, map, length, slice_get, if◌then◌else◌, None, Some, IfOk, OnOk};
ghost use Rattle.std.specs.List.{count_by};
ghost use Rattle.wk_text_rules.specs.Titles.{is_page_title};
ghost use Rattle.wk_table_rules.specs.GoodStore.{IsGood, has_good_title};
ghost use Rattle.wk_table_rules.specs.Stored.{history_of, page_of_row, revision_of_row};
ghost use Rattle.wk_page_rules.specs.Verdict.{max_pages};
ghost use Rattle.wk_table_rules.specs.Rows.{RevisionColumns};
ghost use Rattle.wk_table_laws.specs.EachGood.{EachGood};
ghost use Rattle.wk_revs.specs.Revs.{pages_of};

use crate::pages::Pages;
use crate::revs::Revs;
use indexmap::IndexMap;
use std::alloc::Global;
use wk_bytes::Text;
use wk_good_rows::shown_form;
use wk_memory::Memory;
use wk_tables::{PageRow, RevisionRow, Tables};
use wk_title::{Title, page_named};

/// The title of a page's row.
#[tactic(auto, using(crate::proofs::RowLaws::names_itself))]
fn title_of(alloc: Global, row: &PageRow) -> Result<Title, Memory>
    requires { is_page_title row.now.page_title ≡ true }
    ensures { IfOk result (λ title. title ≡ row.now.page_title) }
{
    let text = shown_form(alloc, row.page_namespace, row.page_title.as_str())?;
    match page_named(alloc, text.as_str())? {
        Some(title) => Ok(title),
        None => unreachable!(),
    }
}

/// The pages of their rows, in order.
#[tactic(auto, using(crate::proofs::RowLaws::good_title))]
fn pages_of_rows(alloc: Global, rows: &[PageRow]) -> Result<Pages, Memory>
    requires { EachGood has_good_title rows.now }
    ensures { IfOk result (λ pages. pages_of pages.entries ≡ map page_of_row rows.now) }
{
    let mut pages = IndexMap::new(alloc);
    'rows: for row in rows {
        let title = title_of(alloc, row)?;
        pages.insert(title, row.page_latest)?;
    }
    Ok(pages)
}

/// How many of the pages exist.
fn existing_of_rows(rows: &[PageRow]) -> usize
    ensures { result ≡ count_by (λ row. not (row.page_latest == 0)) rows.now }
{
    rows.iter().filter(|row| row.page_latest != 0).count()
}

/// The text of a revision's row, none of a deletion.
fn text_of_row(row: &RevisionRow) -> Result<Option<Text>, Memory>
    ensures { IfOk result (λ text. text ≡ (if row.now.rev_gone then None else Some row.now.rev_text)) }
{
    if row.rev_gone {
        return Ok(None);
    }
    Ok(Some(row.rev_text.share()?))
}

/// Appends the revisions of their rows, in order.
fn append_rows(revs: &mut Revs, rows: &[RevisionRow]) -> Result<(), Memory>
    requires few { length revs.old.history.pages ≤ max_pages }
    requires within { (k : ℕ) (row : RevisionColumns) → slice_get rows.now k ≡ Some row → (0 < row.rev_page) × (row.rev_page ≤ length revs.old.history.pages) }
    requires none { revs.old.history.revisions ≡ [] }
    ensures revisions { OnOk result (revs.new.history.revisions ≡ map revision_of_row rows.now) }
    ensures pages { OnOk result (revs.new.history.pages ≡ revs.old.history.pages) }
{
    'rows: for row in rows {
        let text = text_of_row(row)?;
        // (room for all of them at once would be room for as many pages)
        revs.make_room(1)?;
        revs.append(
            row.rev_page as u32,
            row.rev_parent_id,
            row.rev_timestamp,
            text,
        );
    }
    Ok(())
}

impl Revs {
    /// The revisions and pages that good tables stand for. `Memory` may come at any tables.
    #[tactic(auto, using(crate::proofs::RowLaws::titles_good, crate::proofs::RowLaws::existing_of, crate::proofs::RowLaws::pages_few, crate::proofs::RowLaws::revision_within))]
    pub fn load(alloc: Global, tables: &Tables) -> Result<Revs, Memory>
        requires { IsGood tables.now.tables }
        ensures { IfOk result (λ revs. revs.history ≡ history_of tables.now.tables) }
    {
        let pages = pages_of_rows(alloc, tables.pages())?;
        let existing = existing_of_rows(tables.pages());
        let mut revs = Revs::of_pages(alloc, pages, existing)?;
        append_rows(&mut revs, tables.revisions())?;
        Ok(revs)
    }
}

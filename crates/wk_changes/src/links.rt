//! The rows of the link tables and of the redirect table.
ghost use Rattle.std.specs.Prelude.{◌≡◌, ◌≤◌, ◌++◌, map, length, Option, IfOk, OnOk};
ghost use Rattle.std.specs.Option.{option_to_list};
ghost use Rattle.wk_page_rules.specs.Verdict.{max_pages};
ghost use Rattle.wk_table_rules.specs.Changes.{category_row, link_row, redirect_row};
ghost use Rattle.wk_table_rows.specs.Members.{member_of};
ghost use Rattle.wk_tables.specs.LinkLists.{no_lists, rows_of_lists};
ghost use Rattle.wk_wiki_rules.specs.States.{title_at};
ghost use Rattle.wk_changes.specs.PageLinks.{lists_of_pages, with_more};

use std::alloc::Global;
use std::marker::Model;
use wk_bytes::Text;
use wk_index::Index;
use wk_memory::Memory;
use wk_revs::Revs;
use wk_table_rows::PageRows;
use wk_tables::{CategoryRow, LinkRow, RedirectRow};
use wk_title::Title;

/// The rows of the link tables and of the redirect table. Contracts see them as lists.
#[derive(Drop)]
pub struct LinkTables {
    pub pagelinks: Vec<LinkRow>,
    pub templatelinks: Vec<LinkRow>,
    pub existlinks: Vec<LinkRow>,
    pub categorylinks: Vec<CategoryRow>,
    pub redirects: Vec<RedirectRow>,
}

impl Model for LinkTables {
    ghost use Rattle.wk_tables.specs.LinkLists.{LinkLists};

    ghost Value = { LinkLists };

    ghost view = { λ t. record {
      pagelinks = t.pagelinks.items;
      templatelinks = t.templatelinks.items;
      existlinks = t.existlinks.items;
      categorylinks = t.categorylinks.items;
      redirects = t.redirects.items;
    } };
}

/// Appends the page's row of each of the titles, where its own title is in this namespace.
fn push_links(
    rows: &mut Vec<LinkRow>,
    page: u32,
    namespace: i64,
    titles: &[Title],
) -> Result<(), Memory>
    ensures { OnOk result (rows.new.items ≡ rows.old.items ++ map (link_row page namespace) titles.now) }
{
    for title in titles {
        let (of, key) = title.share()?.into_parts();
        rows.push(LinkRow {
            from: u64::from(page),
            from_namespace: namespace,
            namespace: i64::from(of),
            title: key,
        })?;
    }
    Ok(())
}

/// Appends the page's row of each of the categories.
fn push_members(
    rows: &mut Vec<CategoryRow>,
    page: u32,
    members: &[(Title, Text, Text)],
) -> Result<(), Memory>
    ensures { OnOk result (rows.new.items ≡ rows.old.items ++ map (category_row page) (map member_of members.now)) }
{
    for member in members {
        let (_, key) = member.0.share()?.into_parts();
        rows.push(CategoryRow {
            cl_from: u64::from(page),
            cl_to: key,
            cl_sortkey: member.1.share()?,
            cl_sortkey_prefix: member.2.share()?,
        })?;
    }
    Ok(())
}

/// Appends the page's redirect row, where it redirects to a title.
fn push_redirect(
    rows: &mut Vec<RedirectRow>,
    page: u32,
    title: &Option<Title>,
) -> Result<(), Memory>
    ensures { OnOk result (rows.new.items ≡ rows.old.items ++ map (redirect_row page) (option_to_list title.now)) }
{
    if let Some(title) = title {
        let (namespace, key) = title.share()?.into_parts();
        rows.push(RedirectRow {
            rd_from: u64::from(page),
            rd_namespace: i64::from(namespace),
            rd_title: key,
        })?;
    }
    Ok(())
}

/// The namespace of the title of the page with this number, main where there is no such page.
fn namespace_at(revs: &Revs, page: u32) -> i64
    ensures { result ≡ (title_at revs.now.history page).ns }
{
    match revs.page_at(page) {
        Some((title, _)) => i64::from(title.ns()),
        None => 0,
    }
}

impl LinkTables {
    /// No rows.
    fn new(alloc: Global) -> LinkTables
        ensures { result ≡ no_lists }
    {
        LinkTables {
            pagelinks: Vec::new(alloc),
            templatelinks: Vec::new(alloc),
            existlinks: Vec::new(alloc),
            categorylinks: Vec::new(alloc),
            redirects: Vec::new(alloc),
        }
    }

    /// Appends the rows of a page, whose title is in this namespace.
    fn push_page(&mut self, page: u32, namespace: i64, rows: &PageRows) -> Result<(), Memory>
        ensures { OnOk result (self.new ≡ with_more self.old (rows_of_lists page namespace rows.now)) }
    {
        push_links(&mut self.pagelinks, page, namespace, &rows.links)?;
        push_links(&mut self.templatelinks, page, namespace, &rows.templates)?;
        push_links(&mut self.existlinks, page, namespace, &rows.exists)?;
        push_members(&mut self.categorylinks, page, &rows.members)?;
        push_redirect(&mut self.redirects, page, &rows.redirect)
    }

    /// The rows of each page.
    pub fn of_pages(alloc: Global, revs: &Revs, index: &Index) -> Result<LinkTables, Memory>
        requires { length index.now.stored ≤ max_pages }
        ensures { IfOk result (λ tables. tables ≡ lists_of_pages revs.now.history index.now.stored) }
    {
        let mut tables = LinkTables::new(alloc);
        let count = index.page_count();
        for place in 0..count {
            let page = place as u32 + 1;
            let rows = index.rows(page).unwrap().rows();
            tables.push_page(page, namespace_at(revs, page), rows)?;
        }
        Ok(tables)
    }
}

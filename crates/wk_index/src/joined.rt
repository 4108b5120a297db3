//! The rows of a page between the two halves of a change.
ghost use Rattle.std.specs.Prelude.{◌≡◌, IfOk, map, is_some, if◌then◌else◌};
ghost use Rattle.wk_text_rules.specs.Titles.{title_eq};
ghost use Rattle.wk_table_rows.specs.Members.{member_of};
ghost use Rattle.wk_wiki_rules.specs.Names.{admitted, joined, member_eq};

use crate::lookup::{has_member, has_title};
use crate::order::is_in_order;
use std::alloc::Global;
use wk_bytes::Text;
use wk_memory::Memory;
use wk_table_rows::{PageRows, Share, share_all};
use wk_title::Title;

/// The old titles, and behind them those of the new that aren't among the old.
fn joined_titles(alloc: Global, old: &[Title], new: &[Title]) -> Result<Vec<Title>, Memory>
    ensures { IfOk result (λ titles. titles.items ≡ joined title_eq old.now new.now) }
{
    let in_order = is_in_order(old);
    let mut titles = share_all(alloc, old)?;
    for title in new {
        if !has_title(old, in_order, title) {
            titles.push(title.share()?)?;
        }
    }
    Ok(titles)
}

/// The old members, and behind them those of the new that aren't among the old.
fn joined_members(
    alloc: Global,
    old: &[(Title, Text, Text)],
    new: &[(Title, Text, Text)],
) -> Result<Vec<(Title, Text, Text)>, Memory>
    ensures { IfOk result (λ members. map member_of members.items ≡ joined member_eq (map member_of old.now) (map member_of new.now)) }
{
    let in_order = is_in_order(old);
    let mut members = share_all(alloc, old)?;
    for member in new {
        if !has_member(old, in_order, member) {
            members.push(member.share()?)?;
        }
    }
    Ok(members)
}

/// The title of the new where there is one, else that of the old.
fn later_title(old: &Option<Title>, new: &Option<Title>) -> Result<Option<Title>, Memory>
    ensures { IfOk result (λ title. title ≡ (if is_some new.now then new.now else old.now)) }
{
    match (new, old) {
        (Some(title), _) | (None, Some(title)) => Ok(Some(title.share()?)),
        (None, None) => Ok(None),
    }
}

/// The rows of both, for a page that has them between the two halves of a change.
pub fn joined_rows(old: &PageRows, new: &PageRows) -> Result<PageRows, Memory>
    ensures { IfOk result (λ rows. rows ≡ admitted old.now new.now) }
{
    let alloc = *old.templates.allocator();
    Ok(PageRows {
        templates: joined_titles(alloc, &old.templates, &new.templates)?,
        exists: joined_titles(alloc, &old.exists, &new.exists)?,
        links: joined_titles(alloc, &old.links, &new.links)?,
        members: joined_members(alloc, &old.members, &new.members)?,
        redirect: later_title(&old.redirect, &new.redirect)?,
    })
}

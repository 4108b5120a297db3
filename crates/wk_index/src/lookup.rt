//! Titles and members, looked up in the rows of a page.
ghost use Rattle.std.specs.Prelude.{◌≡◌, true, ◌&&◌, bytes_eq, map};
ghost use Rattle.std.specs.List.{list_any};
ghost use Rattle.wk_text_rules.specs.Titles.{title_eq};
ghost use Rattle.wk_table_rows.specs.Members.{member_of};
ghost use Rattle.wk_wiki_rules.specs.Links.{links_to};
ghost use Rattle.wk_wiki_rules.specs.Names.{member_eq};
ghost use Rattle.wk_index.specs.Entries.{lists_entry};
ghost use Rattle.wk_index.specs.InOrder.{IsInOrder};
ghost use Rattle.wk_index.specs.Named.{lists};

use crate::named::Kind;
use crate::order::{is_in_order, only_place};
use std::marker::Model;
use wk_bytes::Text;
use wk_table_rows::PageRows;
use wk_title::Title;

/// Whether the title is among the titles. Where they are in order they are halved at each step.
pub fn has_title(titles: &[Title], in_order: bool, title: &Title) -> bool
    requires { in_order ≡ true → IsInOrder (λ t. t) titles.now }
    ensures { result ≡ list_any (title_eq title.now) titles.now }
{
    if !in_order {
        return titles.iter().any(|other| title == other);
    }
    match only_place(titles, title) {
        Some(place) => *title == titles[place],
        None => false,
    }
}

/// Whether the two are one category, with one sort key and one prefix.
fn is_same_member(a: &(Title, Text, Text), b: &(Title, Text, Text)) -> bool
    ensures { result ≡ member_eq (member_of a.now) (member_of b.now) }
{
    a.0 == b.0 && a.1 == b.1 && a.2 == b.2
}

/// Whether the member is among the members, which are gone through.
fn has_triple(members: &[(Title, Text, Text)], member: &(Title, Text, Text)) -> bool
    ensures { result ≡ list_any (λ other. member_eq (member_of member.now) (member_of other)) members.now }
{
    members.iter().any(|other| is_same_member(member, other))
}

/// Whether the member is among the members. Where they are in the order of their categories they are halved at each
/// step.
pub fn has_member(
    members: &[(Title, Text, Text)],
    in_order: bool,
    member: &(Title, Text, Text),
) -> bool
    requires { in_order ≡ true → IsInOrder (λ m. m.0) members.now }
    ensures { result ≡ list_any (member_eq (member_of member.now)) (map member_of members.now) }
{
    if !in_order {
        return has_triple(members, member);
    }
    match only_place(members, &member.0) {
        Some(place) => is_same_member(member, &members[place]),
        None => false,
    }
}

/// Whether the member is in the category by the sort key.
fn is_entry(member: &(Title, Text, Text), category: &Title, sortkey: &Text) -> bool
    ensures { result ≡ (title_eq category.now member.now.0 && bytes_eq sortkey.now member.now.1) }
{
    *category == member.0 && *sortkey == member.1
}

/// Whether some member is in the category by the sort key, where the members are gone through.
fn some_entry(members: &[(Title, Text, Text)], category: &Title, sortkey: &Text) -> bool
    ensures { result ≡ list_any (λ m. title_eq category.now m.0 && bytes_eq sortkey.now m.1) members.now }
{
    members
        .iter()
        .any(|member| is_entry(member, category, sortkey))
}

/// Whether some member is in the category by the sort key. Where the members are in the order of their categories they
/// are halved at each step.
fn has_entry(
    members: &[(Title, Text, Text)],
    in_order: bool,
    category: &Title,
    sortkey: &Text,
) -> bool
    requires { in_order ≡ true → IsInOrder (λ m. m.0) members.now }
    ensures { result ≡ list_any (λ m. title_eq category.now m.0 && bytes_eq sortkey.now m.1) members.now }
{
    if !in_order {
        return some_entry(members, category, sortkey);
    }
    match only_place(members, category) {
        Some(place) => is_entry(&members[place], category, sortkey),
        None => false,
    }
}

/// The rows of a page, and which of its lists are in order, so that a title is found in them by halving. Contracts see
/// the rows.
#[derive(Drop)]
pub struct Lookup<'a> {
    rows: &'a PageRows,
    templates: bool,
    exists: bool,
    links: bool,
    members: bool,
}

impl<'a> Model for Lookup<'a> {
    ghost use Rattle.std.specs.Prelude.{◌≡◌, true};
    ghost use Rattle.wk_page_rules.specs.PageRows.{PageRows as Rows};
    ghost use Rattle.wk_index.specs.InOrder.{AreInOrder};

    ghost Value = { Rows };

    ghost view = { λ l. l.rows.now };

    ghost invariant = { λ l. AreInOrder l.templates l.exists l.links l.members l.rows.now };
}

impl<'a> Lookup<'a> {
    /// Finds out which lists of the rows are in order.
    pub fn new(rows: &'a PageRows) -> Lookup<'a>
        ensures { result ≡ rows.now }
    {
        Lookup {
            rows,
            templates: is_in_order(&rows.templates),
            exists: is_in_order(&rows.exists),
            links: is_in_order(&rows.links),
            members: is_in_order(&rows.members),
        }
    }

    /// For a single title: the lists are gone through.
    pub fn once(rows: &'a PageRows) -> Lookup<'a>
        ensures { result ≡ rows.now }
    {
        Lookup {
            rows,
            templates: false,
            exists: false,
            links: false,
            members: false,
        }
    }

    /// Whether the rows have the title among those of the kind.
    pub fn has(&self, title: &Title, kind: Kind) -> bool
        ensures { result ≡ lists kind self.now title.now }
    {
        match kind {
            Kind::Included => self.includes(title),
            Kind::Mentioned => self.includes(title) || self.tests(title),
            Kind::Linked => self.links_to(title),
        }
    }

    fn includes(&self, title: &Title) -> bool
        ensures { result ≡ list_any (title_eq title.now) self.now.templates }
    {
        let rows = self.rows;
        has_title(&rows.templates, self.templates, title)
    }

    fn tests(&self, title: &Title) -> bool
        ensures { result ≡ list_any (title_eq title.now) self.now.exists }
    {
        let rows = self.rows;
        has_title(&rows.exists, self.exists, title)
    }

    fn links_to(&self, title: &Title) -> bool
        ensures { result ≡ links_to self.now title.now }
    {
        let rows = self.rows;
        has_title(&rows.links, self.links, title)
    }

    /// Whether the page is in the category by the sort key.
    pub fn has_entry(&self, category: &Title, sortkey: &Text) -> bool
        ensures { result ≡ lists_entry self.now (category.now, sortkey.now) }
    {
        let rows = self.rows;
        has_entry(&rows.members, self.members, category, sortkey)
    }
}

//! The categories that a page is a member of.
ghost use Rattle.std.specs.Prelude.{◌≡◌, ◌≤◌, [], All, length, map, IfOk, OnOk};
ghost use Rattle.std.specs.BTreeMap.{insert_entry};
ghost use Rattle.wk_text_rules.specs.Occurrences.{most_label};
ghost use Rattle.wk_text_rules.specs.Titles.{title_cmp, with_spaces};
ghost use Rattle.wk_links.specs.declared.found.Found.{Found};
ghost use Rattle.wk_table_rows.specs.Members.{member_of};
ghost use Rattle.wk_rows.specs.Members.{HasShortPrefix, kept_member, members_by, sortkey_by, with_member, with_members};

use std::alloc::Global;
use std::collections::BTreeMap;
use wk_bytes::Text;
use wk_links::{Found, What};
use wk_memory::Memory;
use wk_title::Title;

/// The title's key with spaces.
fn spaced_key(alloc: Global, title: &Title) -> Result<Text, Memory>
    ensures value { IfOk result (λ text. text ≡ with_spaces title.now.key) }
    ensures short { IfOk result (λ text. length text ≤ 255) }
{
    let key = title.key();
    let mut text = String::with_capacity(alloc, key.len())?;
    let mut rest = key;
    while let Some((word, behind)) = rest.split_once('_') {
        text.push_str(word)?;
        text.push(' ')?;
        rest = behind;
    }
    text.push_str(rest)?;
    Text::new(alloc, text.as_str())
}

/// What the page with this key is sorted by in a category (own).
fn sortkey(alloc: Global, key: &Text, prefix: &Text) -> Result<Text, Memory>
    requires key { length key.now ≤ 255 }
    requires prefix { length prefix.now ≤ most_label }
    ensures { IfOk result (λ text. text ≡ sortkey_by key.now prefix.now) }
{
    if prefix.is_empty() {
        return key.share();
    }
    let mut text = String::from_str(alloc, prefix.as_str())?;
    text.push('\n')?;
    text.push_str(key.as_str())?;
    Text::new(alloc, text.as_str())
}

/// Keeps the sort key and the prefix of the category, in the place of those that are kept.
fn put(
    members: &mut BTreeMap<Title, (Text, Text)>,
    category: Title,
    kept: (Text, Text),
) -> Result<(), Memory>
    ensures { OnOk result (members.new.entries ≡ insert_entry title_cmp members.old.entries category kept) }
{
    members.insert(category, kept)?;
    Ok(())
}

/// Makes the page with this key a member of the category, in the place of what it was there.
fn add(
    alloc: Global,
    members: &mut BTreeMap<Title, (Text, Text)>,
    key: &Text,
    category: &Title,
    prefix: &Text,
) -> Result<(), Memory>
    requires key { length key.now ≤ 255 }
    requires prefix { length prefix.now ≤ most_label }
    ensures { OnOk result (map kept_member members.new.entries ≡ with_member (map kept_member members.old.entries)
        (record { category = category.now; sortkey = sortkey_by key.now prefix.now; prefix = prefix.now })) }
{
    let sortkey = sortkey(alloc, key, prefix)?;
    put(members, category.share()?, (sortkey, prefix.share()?))
}

/// Makes the page with this key a member of the categories that it is linked to, of each by the last link.
fn add_linked(
    alloc: Global,
    members: &mut BTreeMap<Title, (Text, Text)>,
    key: &Text,
    found: &[Found],
) -> Result<(), Memory>
    requires key { length key.now ≤ 255 }
    requires prefixes { All (λ (link : Found). HasShortPrefix link.what) found.now }
    ensures { OnOk result (map kept_member members.new.entries
        ≡ with_members (map kept_member members.old.entries) (members_by key.now found.now)) }
{
    for link in found {
        if let What::Member(category, prefix) = &link.what {
            add(alloc, members, key, category, prefix)?;
        }
    }
    Ok(())
}

/// The members, in the order of their categories.
fn listed(
    alloc: Global,
    members: BTreeMap<Title, (Text, Text)>,
) -> Result<Vec<(Title, Text, Text)>, Memory>
    ensures { IfOk result (λ listed. map member_of listed.items ≡ map kept_member members.entries) }
{
    let mut listed = Vec::with_capacity(alloc, members.len())?;
    for (category, (sortkey, prefix)) in members {
        listed.push((category, sortkey, prefix))?;
    }
    Ok(listed)
}

/// The categories that the page is a member of by its links, in their order, each with the sort key and the prefix of
/// the last link to it.
pub fn members(
    alloc: Global,
    page: &Title,
    found: &[Found],
) -> Result<Vec<(Title, Text, Text)>, Memory>
    requires { All (λ (link : Found). HasShortPrefix link.what) found.now }
    ensures { IfOk result
        (λ members. map member_of members.items ≡ with_members [] (members_by (with_spaces page.now.key) found.now)) }
{
    let key = spaced_key(alloc, page)?;
    let mut members = BTreeMap::new(alloc);
    add_linked(alloc, &mut members, &key, found)?;
    listed(alloc, members)
}

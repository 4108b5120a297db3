//! Titles that rows of the tables name, each with the pages that are found by it.
ghost use Rattle.std.specs.Prelude.{◌≡◌, ℕ, true, None, IfOk, OnOk};
ghost use Rattle.std.specs.BTreeMap.{get};
ghost use Rattle.wk_text_rules.specs.Titles.{is_normal};
ghost use Rattle.wk_index.specs.Places.{AddsGathered, AreTitled, Grows, gathers};
ghost use Rattle.wk_index.specs.Named.{Kept, is_in};
ghost use Rattle.wk_index.specs.TitleMap.{place_cmp};

use crate::named::{Named, add_pages};
use crate::title_map::TitleMap;
use std::alloc::Global;
use std::collections::BTreeMap;
use wk_bytes::Text;
use wk_memory::Memory;
use wk_title::Title;

/// A title, and the pages that are found by it, in the order in which they came.
#[derive(Drop)]
pub struct TitlePages {
    pub title: Title,
    pub pages: Vec<u32>,
}

/// Titles by the number of their namespace and their key, each with its pages.
pub type PagesByTitle = BTreeMap<(i64, Text), TitlePages>;

/// Finds the page by the title, which is shared.
fn push_page(known: &mut TitlePages, page: u32) -> Result<Title, Memory>
    ensures title { IfOk result (λ title. title ≡ known.old.title) }
    ensures same { known.new.title ≡ known.old.title }
    ensures there { OnOk result (is_in page known.new.pages.items ≡ true) }
    ensures kept { (number : ℕ) → is_in number known.old.pages.items ≡ true → is_in number known.new.pages.items ≡ true }
{
    let title = known.title.share()?;
    known.pages.push(page)?;
    Ok(title)
}

/// Makes the title, which isn't there yet, and finds the page by it.
fn make(
    alloc: Global,
    titles: &mut PagesByTitle,
    made: &mut TitleMap,
    namespace: i64,
    key: &Text,
    page: u32,
) -> Result<Title, Memory>
    requires normal { is_normal (record { ns = namespace; key = key.now }) ≡ true }
    requires none { get place_cmp titles.old (namespace, key.now) ≡ None }
    requires titled { AreTitled titles.old }
    ensures title { IfOk result (λ title. title ≡ record { ns = namespace; key = key.now }) }
    ensures there { OnOk result (gathers titles.new (record { ns = namespace; key = key.now }) page ≡ true) }
    ensures kept { Grows titles.old titles.new }
    ensures titled { AreTitled titles.new }
{
    let title = made.title(alloc, namespace, key)?;
    let known = TitlePages {
        title: title.share()?,
        pages: vec![in alloc; page]?,
    };
    let place = (namespace, key.share()?);
    titles.insert(place, known)?;
    Ok(title)
}

/// The title with this key in the namespace, where it is normal. From now on the page is found by it.
pub fn add_page(
    alloc: Global,
    titles: &mut PagesByTitle,
    made: &mut TitleMap,
    namespace: i64,
    key: &Text,
    page: u32,
) -> Result<Title, Memory>
    requires normal { is_normal (record { ns = namespace; key = key.now }) ≡ true }
    requires titled { AreTitled titles.old }
    ensures title { IfOk result (λ title. title ≡ record { ns = namespace; key = key.now }) }
    ensures there { OnOk result (gathers titles.new (record { ns = namespace; key = key.now }) page ≡ true) }
    ensures kept { Grows titles.old titles.new }
    ensures titled { AreTitled titles.new }
{
    let place = (namespace, key.share()?);
    match titles.get_mut(&place) {
        Some(known) => {
            let title = push_page(known, page)?;
            Ok(title)
        }
        None => make(alloc, titles, made, namespace, key, page),
    }
}

/// Finds the pages by their titles.
pub fn add_to(alloc: Global, gathered: &PagesByTitle, named: &mut Named) -> Result<(), Memory>
    requires { AreTitled gathered.now }
    ensures there { OnOk result (AddsGathered gathered.now named.new) }
    ensures kept { Kept named.old named.new }
{
    for known in gathered.values() {
        add_pages(alloc, named, &known.title, &known.pages)?;
    }
    Ok(())
}

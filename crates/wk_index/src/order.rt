//! Lists in the order of titles, in which a title is found by halving.
ghost use Rattle.std.specs.Prelude.{◌≡◌, true, IsTrue};
ghost use Rattle.wk_text_rules.specs.Titles.{PageTitle, title_cmp};
ghost use Rattle.wk_index.specs.InOrder.{IsInOrder, IsOnlyPlace};

use std::cmp::Ordering;
use wk_bytes::Text;
use wk_title::Title;

/// What stands in a list by a title.
pub trait Titled: Drop {
    /// The title.
    ghost title: { Self → PageTitle };

    /// The title.
    fn title(&self) -> &Title
        ensures { result.now ≡ title self.now };
}

impl Titled for Title {
    ghost title = { λ t. t };

    fn title(&self) -> &Title {
        self
    }
}

impl Titled for (Title, Text, Text) {
    ghost title = { λ m. m.0 };

    fn title(&self) -> &Title {
        &self.0
    }
}

/// Whether each title stands before those behind it.
pub fn is_in_order<T: Titled>(items: &[T]) -> bool
    ensures { IsTrue result → IsInOrder T.title items.now }
{
    for i in 1..items.len() {
        if !items[i - 1].title().cmp(items[i].title()).is_lt() {
            return false;
        }
    }
    true
}

/// The place at which alone an item with the title can stand. The list is halved at each step.
pub fn only_place<T: Titled>(items: &[T], title: &Title) -> Option<usize>
    requires { IsInOrder T.title items.now }
    ensures { IsOnlyPlace T.title title.now items.now result }
{
    match items.binary_search_by(
        |item: &T| -> Ordering
            ensures { result ≡ title_cmp (T.title item.now) title.entry.now }
        { item.title().cmp(title) },
    ) {
        Ok(place) => Some(place),
        Err(_) => None,
    }
}

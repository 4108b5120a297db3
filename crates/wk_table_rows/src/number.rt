//! Lists whose items have numbers, and where an item with a number stands.
ghost use Rattle.std.specs.Prelude.{◌≡◌, ℕ, ◌==◌, ◌↔◌, true, position, IsTrue};
ghost use Rattle.wk_table_rows.specs.Rising.{IsRising};

/// What has a number.
pub trait Numbered: Drop {
    /// The number.
    ghost number: { Self → ℕ };

    /// The number.
    fn number(&self) -> u64
        ensures { result ≡ number self.now };
}

/// Whether each number is below those behind it.
pub fn is_rising<T: Numbered>(items: &[T]) -> bool
    ensures { IsTrue result ↔ IsRising T.number items.now }
{
    for i in 1..items.len() {
        if items[i].number() <= items[i - 1].number() {
            return false;
        }
    }
    true
}

/// Where the number stands in a list whose numbers rise. The list is halved at each step.
pub fn place_in_order<T: Numbered>(items: &[T], number: u64) -> Option<usize>
    requires { IsRising T.number items.now }
    ensures { result ≡ position (λ item. T.number item == number) items.now }
{
    match items.binary_search_by_key(&number, |item| item.number()) {
        Ok(place) => Some(place),
        Err(_) => None,
    }
}

/// Where the number stands first. Where the numbers rise the list is halved at each step.
pub fn place_of<T: Numbered>(items: &[T], is_in_order: bool, number: u64) -> Option<usize>
    requires { is_in_order ≡ true → IsRising T.number items.now }
    ensures { result ≡ position (λ item. T.number item == number) items.now }
{
    if is_in_order {
        place_in_order(items, number)
    } else {
        items.iter().position(|item| item.number() == number)
    }
}

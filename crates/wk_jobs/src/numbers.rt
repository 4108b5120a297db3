//! What has a number, and the greatest number among several.
ghost use Rattle.std.specs.Prelude.{◌≡◌, ℕ, fold, map, max};

/// What has a number.
pub trait Numbered: Drop {
    /// The number.
    ghost number: { Self → ℕ };

    /// The number.
    fn number(&self) -> u64
        ensures { result ≡ number self.now };
}

/// The greatest number of the items or this one.
pub fn greatest<T: Numbered>(number: u64, items: &[T]) -> u64
    ensures { result ≡ fold max number (map T.number items.now) }
{
    let mut greatest = number;
    for item in items {
        greatest = greatest.max(item.number());
    }
    greatest
}

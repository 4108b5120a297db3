//! Copies whose texts are shared.
ghost use Rattle.std.specs.Prelude.{◌≡◌, IfOk};

use std::alloc::Global;
use wk_bytes::Text;
use wk_memory::Memory;
use wk_title::Title;

/// What can be given to a further owner. No text is copied.
pub trait Share: Drop {
    /// The same value for a further owner.
    fn share(&self) -> Result<Self, Memory>
        ensures { IfOk result (λ shared. shared ≡ self.now) };
}

impl Share for Text {
    fn share(&self) -> Result<Text, Memory> {
        Text::share(self)
    }
}

impl Share for Title {
    fn share(&self) -> Result<Title, Memory> {
        Title::share(self)
    }
}

impl Share for (Title, Text, Text) {
    fn share(&self) -> Result<(Title, Text, Text), Memory> {
        let category = Title::share(&self.0)?;
        let sortkey = Text::share(&self.1)?;
        let prefix = Text::share(&self.2)?;
        Ok((category, sortkey, prefix))
    }
}

/// The same values for a further owner, in a list of their own.
pub fn share_all<T: Share>(alloc: Global, items: &[T]) -> Result<Vec<T>, Memory>
    ensures { IfOk result (λ shared. shared.items ≡ items.now) }
{
    let mut shared = Vec::with_capacity(alloc, items.len())?;
    for item in items {
        shared.push(item.share()?)?;
    }
    Ok(shared)
}

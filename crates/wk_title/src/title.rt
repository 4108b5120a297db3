//! The type of a title.
ghost use Rattle.std.specs.Prelude.{◌≡◌, Some, IfOk};
ghost use Rattle.wk_text_rules.specs.Titles.{PageTitle, title_cmp, title_eq, is_virtual};
ghost use Rattle.wk_title.specs.declared.title.TitleRefusal.TheVariants.{Memory as NoMemory};

use std::alloc::{AllocError, AllocFailed};
use std::marker::Model;
use thiserror::Error;
use wk_bytes::Text;
use wk_memory::Memory;

/// A title that some text names: the number of its namespace and its key. Contracts see the two as one record.
///
/// A title may be sent to other threads and shared between them. Titles are in order by the number of the
/// namespace, and then by the bytes of the key (own).
#[derive(Drop, PartialEq, Eq, PartialOrd, Ord, Hash)]
pub struct Title {
    ns: i8,
    key: Text,
}

impl Model for Title {
    ghost use Rattle.wk_text_rules.specs.Titles.{PageTitle};
    ghost use Rattle.wk_title.specs.Normal.{IsNormal};

    ghost Value = { PageTitle };

    ghost view = { λ t. record { ns = t.ns; key = t.key } };

    ghost invariant = { λ t. IsNormal (record { ns = t.ns; key = t.key }) };

    ghost inverse = { λ t. record { ns = t.ns; key = t.key } };
}

impl Title {
    ghost use Rattle.std.specs.Prelude.{◌≡◌, ◌≤◌, length, IfOk};
    ghost use Rattle.wk_text_rules.specs.Titles.{is_virtual};
    ghost use Rattle.wk_title.specs.Normal.{IsNormal};

    pub(crate) fn new(ns: i8, key: Text) -> Title
        requires { IsNormal (record { ns = ns; key = key }) }
        ensures { result ≡ record { ns = ns; key = key } }
    {
        Title { ns, key }
    }

    /// The number of the namespace, from -2 to 15. Takes no memory.
    pub fn ns(&self) -> i8
        ensures { result ≡ self.now.ns }
    {
        self.ns
    }

    /// The key, with an underscore for each space, of at most 255 bytes. Some text names the title. Takes no memory.
    pub fn key(&self) -> &str
        ensures value { result.now ≡ self.now.key }
        ensures short { length self.now.key ≤ 255 }
        ensures normal { IsNormal self.now }
    {
        self.key.as_str()
    }

    /// The number of the namespace and the key. Takes no memory.
    pub fn into_parts(self) -> (i8, Text)
        ensures { (result.0 ≡ self.ns) × (result.1 ≡ self.key) }
    {
        let Title { ns, key } = self;
        (ns, key)
    }

    /// Whether the namespace is Media or Special, in which no page can be. Takes no memory.
    pub fn is_virtual(&self) -> bool
        ensures { result ≡ is_virtual self.now }
    {
        self.ns < 0
    }

    /// The same title for a further owner, which std's shared pointers may refuse.
    pub fn share(&self) -> Result<Title, Memory>
        ensures { IfOk result (λ title. title ≡ self.now) }
    {
        let ns = self.ns;
        let key = self.key.share()?;
        Ok(Title { ns, key })
    }
}

/// Titles are in order by the number of the namespace, and then by the bytes of the key, and two titles are the
/// same where both are (own).
pub fn order_is_by_namespace_then_key()
    ensures order { (a b : PageTitle) → ⟦<Title as Ord>⟧.cmp a b ≡ title_cmp a b }
    ensures partial_order { (a b : PageTitle) → ⟦<Title as PartialOrd>⟧.partial_cmp a b ≡ Some (title_cmp a b) }
    ensures equality { (a b : PageTitle) → ⟦<Title as PartialEq>⟧.eq a b ≡ title_eq a b }
{}

/// Why a text has no title.
#[derive(Clone, Copy, Debug, PartialEq, Eq, Error)]
pub enum TitleRefusal {
    /// The rules give the text no title.
    #[error("bad title")]
    Illegal,
    /// Memory ran out.
    #[error("out of memory")]
    Memory,
}

impl From<AllocError> for TitleRefusal {
    ghost from_gives = { λ _ e. e ≡ NoMemory };

    fn from(_: AllocError) -> TitleRefusal {
        TitleRefusal::Memory
    }
}

impl<T: Drop> From<AllocFailed<T>> for TitleRefusal {
    ghost from_gives = { λ _ e. e ≡ NoMemory };

    fn from(_: AllocFailed<T>) -> TitleRefusal {
        TitleRefusal::Memory
    }
}

impl From<Memory> for TitleRefusal {
    ghost from_gives = { λ _ e. e ≡ NoMemory };

    fn from(_: Memory) -> TitleRefusal {
        TitleRefusal::Memory
    }
}

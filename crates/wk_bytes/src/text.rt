//! Text that is shared and doesn't change.
ghost use Rattle.std.specs.Prelude.{◌≡◌, ◌^◌, ◌<◌, ◌↔◌, [], length, IsTrue, IfOk, Some, nat_eq, refl};
ghost use Rattle.std.specs.Str.{IsUtf8};
ghost use Rattle.std.specs.Ordering.{nat_cmp};
ghost use Rattle.std.specs.Hash as fed;
ghost use Rattle.std.specs.Cmp.{partial_equiv_from_equiv};
ghost use Rattle.std.specs.Cmp.Rules.{hashing};
ghost use Rattle.std.specs.Cmp.Lexicographic.{pointwise, slice_cmp, nat_list_eq_equiv, nat_list_cmp_total, texts_ties, texts_po};
ghost use Rattle.std.proofs.Common.{rules};

use std::alloc::Global;
use std::cmp::Ordering;
use std::hash::{Hash, Hasher};
use std::marker::Model;
use std::sync::Arc;
use wk_memory::Memory;

/// Shared UTF-8 text that doesn't change, of fewer than 2^32 bytes (own). Contracts see its bytes.
///
/// It may be sent to other threads and shared between them, and a further owner copies no bytes.
#[derive(Drop)]
pub struct Text {
    text: Arc<String>,
}

impl Model for Text {
    ghost use Rattle.std.specs.Prelude.{ℕ, ◌^◌, ◌<◌, List, length};
    ghost use Rattle.std.specs.String.{string_bytes};
    ghost use Rattle.std.specs.Arc.{arc_value};

    ghost Value = { List ℕ };

    ghost view = { λ t. string_bytes (arc_value t.text) };

    ghost invariant = { λ t. length (string_bytes (arc_value t.text)) < 2 ^ 32 };
}

impl Text {
    /// A text of these bytes, which are fewer than 2^32, in memory of its own.
    pub fn new(alloc: Global, s: &str) -> Result<Text, Memory>
        requires { length s.now < 2 ^ 32 }
        ensures { IfOk result (λ text. text ≡ s.now) }
    {
        let text = Arc::new(alloc, String::from_str(alloc, s)?)?;
        Ok(Text { text })
    }

    /// The text itself. Takes no memory.
    pub fn as_str(&self) -> &str
        ensures value { result.now ≡ self.now }
        ensures utf8 { IsUtf8 self.now }
        ensures short { length self.now < 2 ^ 32 }
    {
        self.text.as_str()
    }

    /// How many bytes the text has. Takes no memory.
    pub fn len(&self) -> usize
        ensures value { result ≡ length self.now }
        ensures short { result < 2 ^ 32 }
    {
        self.as_str().len()
    }

    /// Whether the text has no bytes. Takes no memory.
    pub fn is_empty(&self) -> bool
        ensures { IsTrue result ↔ (self.now ≡ []) }
    {
        self.as_str().is_empty()
    }

    /// The same text for a further owner, of which std's shared pointer may refuse one.
    #[inline(always)]
    pub fn share(&self) -> Result<Text, Memory>
        ensures { IfOk result (λ text. text ≡ self.now) }
    {
        let text = self.text.clone()?;
        Ok(Text { text })
    }
}

impl PartialEq for Text {
    ghost eq = { pointwise nat_eq };

    ghost laws = { partial_equiv_from_equiv nat_list_eq_equiv };

    fn eq(&self, other: &Text) -> bool {
        self.as_str() == other.as_str()
    }
}

impl Eq for Text {
    ghost laws = { nat_list_eq_equiv };
}

impl PartialOrd for Text {
    ghost partial_cmp = { λ a b. Some (slice_cmp nat_cmp a b) };

    ghost laws = { texts_po };

    fn partial_cmp(&self, other: &Text) -> Option<Ordering> {
        Some(self.cmp(other))
    }
}

/// Texts are ordered by their bytes.
impl Ord for Text {
    ghost cmp = { slice_cmp nat_cmp };

    ghost total = { nat_list_cmp_total };

    ghost matches_partial_cmp = { λ _ _. refl };

    ghost matches_eq = { texts_ties };

    fn cmp(&self, other: &Text) -> Ordering {
        self.as_str().cmp(other.as_str())
    }
}

impl Hash for Text {
    ghost hash_input = { fed.str };

    ghost respects_eq = { Prim.search (hashing, rules) };

    fn hash<H: Hasher>(&self, state: &mut H) {
        self.as_str().hash(state);
    }
}

//! Parsed texts that are shared.
ghost use Rattle.std.specs.Prelude.{◌≡◌, IfOk, Some};
ghost use Rattle.wk_tree.specs.Parsed.{list_with, tree_of};

use std::alloc::Global;
use std::marker::Model;
use std::sync::Arc;
use wk_memory::Memory;
use wk_tree::{ListId, Parsed};

/// A parsed text that is shared and doesn't change. Contracts see the text and how it is read.
#[derive(Drop)]
pub struct Tree {
    parsed: Arc<Parsed>,
}

impl Model for Tree {
    ghost use Rattle.std.specs.Arc.{arc_value};
    ghost use Rattle.wk_tree.specs.Parsed.{ParsedText};

    ghost Value = { ParsedText };

    ghost view = { λ t. arc_value t.parsed };
}

impl Tree {
    /// Shares a parsed text, in memory of its own. Memory: there was none for it.
    pub fn new(alloc: Global, parsed: Parsed) -> Result<Tree, Memory>
        ensures { IfOk result (λ tree. tree ≡ parsed) }
    {
        let parsed = Arc::new(alloc, parsed)?;
        Ok(Tree { parsed })
    }

    /// The parsed text itself. Takes no memory.
    #[inline(always)]
    pub fn parsed(&self) -> &Parsed
        ensures { result.now ≡ self.now }
    {
        &self.parsed
    }

    /// The whole tree's list. Takes no memory.
    #[inline(always)]
    pub fn root(&self) -> ListId
        ensures { list_with self.now result ≡ Some (tree_of self.now) }
    {
        self.parsed().root()
    }

    /// The same for a further owner, of which std's shared pointer may refuse one: Memory then.
    #[inline(always)]
    pub fn share(&self) -> Result<Tree, Memory>
        ensures { IfOk result (λ tree. tree ≡ self.now) }
    {
        let parsed = self.parsed.clone()?;
        Ok(Tree { parsed })
    }
}

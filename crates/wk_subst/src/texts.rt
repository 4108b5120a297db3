//! Parsed texts of pages that are kept.
ghost use Rattle.std.specs.Prelude.{◌≡◌, IfOk, IfSome};
ghost use Rattle.wk_tree_rules.specs.declared.Mode.TheVariants.{Include};

use std::alloc::Global;
use wk_bytes::Text;
use wk_frames::Tree;
use wk_memory::Memory;
use wk_tree::{Mode, parse};

/// How many bytes a text has at most that is kept.
const MOST_BYTES: usize = 65_536;

/// How many texts are kept at most.
const MOST_TEXTS: usize = 16;

/// The texts of pages that were parsed last, at most 16 (own). A text of more than 65,536 bytes is parsed each time that its
/// page is put in.
#[derive(Drop)]
pub struct Texts {
    alloc: Global,
    kept: Vec<Tree>,
    oldest: usize,
}

/// The text among these, if it is there.
fn found(kept: &[Tree], text: &Text) -> Result<Option<Tree>, Memory>
    ensures { IfOk result (λ found. IfSome found (λ tree. tree ≡ record { mode = Include; text = text.now })) }
{
    'texts: for tree in kept {
        let parsed = tree.parsed();
        if parsed.mode() == Mode::Include && *parsed.text() == *text {
            return Ok(Some(tree.share()?));
        }
    }
    Ok(None)
}

impl Texts {
    /// No text is kept yet. Takes no memory.
    pub fn new(alloc: Global) -> Texts {
        Texts {
            alloc,
            kept: Vec::new(alloc),
            oldest: 0,
        }
    }

    /// Keeps a text in the place of the one that was kept first, where as many are kept as may be.
    fn keep(&mut self, tree: &Tree) -> Result<(), Memory> {
        let tree = tree.share()?;
        if self.kept.as_slice().len() < MOST_TEXTS {
            self.kept.push(tree)?;
            return Ok(());
        }
        if let Some(place) = self.kept.get_mut(self.oldest) {
            *place = tree;
        }
        self.oldest = if self.oldest < MOST_TEXTS - 1 {
            self.oldest + 1
        } else {
            0
        };
        Ok(())
    }

    /// The tree of a page's text that is put in: the kept one, or a new one, which is kept where the text isn't long.
    pub(crate) fn tree(&mut self, text: &Text) -> Result<Tree, Memory>
        ensures { IfOk result (λ tree. tree ≡ record { mode = Include; text = text.now }) }
    {
        let is_short = text.len() <= MOST_BYTES;
        if is_short {
            if let Some(tree) = found(self.kept.as_slice(), text)? {
                return Ok(tree);
            }
        }
        let tree = Tree::new(self.alloc, parse(self.alloc, text, Mode::Include)?)?;
        if is_short {
            self.keep(&tree)?;
        }
        Ok(tree)
    }
}

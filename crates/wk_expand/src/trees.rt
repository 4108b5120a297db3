//! Parsed texts that are kept.
ghost use Rattle.std.specs.Prelude.{◌≡◌, ◌≤◌, length, pos, IfOk, IfSome};
ghost use Rattle.std.specs.NonZero.{non_zero_usize_get};
ghost use Rattle.wk_text_rules.specs.Titles.{normal};
ghost use Rattle.wk_expand.specs.Trees.{AreKept, IsKeyOf, most_bytes, parsed_text};

use crate::hash::hashed;
use crate::names::Names;
use lru::LruCache;
use std::alloc::Global;
use std::marker::Model;
use std::num::NonZeroUsize;
use wk_bytes::Text;
use wk_frames::Tree;
use wk_memory::Memory;
use wk_title::Title;
use wk_tree::parse;
use wk_tree_rules::Mode;

/// How many bytes a text has at most whose tree is kept.
const MOST_TEXT_BYTES: usize = 65_536;

/// How many bytes at the start of a text, and how many at its end, are looked at to find it.
const FEW_BYTES: usize = 16;

/// A text, and how it is read. It is found by the code alone, and is the same where all are.
#[derive(Drop, PartialEq, Eq)]
#[derive_where(Hash)]
pub struct Reading {
    /// What the text is found by.
    pub code: u64,
    /// How it is read.
    #[derive_where(skip(Hash))]
    pub mode: Mode,
    /// The text.
    #[derive_where(skip(Hash))]
    pub text: Text,
}

/// What a text is found by: its length, its first bytes and its last ones.
fn code_of(text: &[u8]) -> u64 {
    let len = text.len();
    let code = len as u64;
    if len <= 2 * FEW_BYTES {
        return hashed(code, text);
    }
    let code = hashed(code, &text[..FEW_BYTES]);
    hashed(code, &text[len - FEW_BYTES..])
}

/// The key of a text that is read in a mode.
fn key_of(text: &Text, mode: Mode) -> Result<Reading, Memory>
    ensures { IfOk result (λ key. IsKeyOf key mode text.now) }
{
    let code = code_of(text.as_str().as_bytes());
    let text = text.share()?;
    Ok(Reading { code, mode, text })
}

/// The tree of a text, in memory of its own.
fn made(alloc: Global, text: &Text, mode: Mode) -> Result<Tree, Memory>
    ensures { IfOk result (λ tree. tree ≡ record { mode = mode; text = text.now }) }
{
    Tree::new(alloc, parse(alloc, text, mode)?)
}

/// The tree that is kept for a key, if one is. It is the last one that was used then.
#[inline(always)]
fn found(kept: &mut LruCache<Reading, Tree>, key: &Reading) -> Result<Option<Tree>, Memory>
    requires { AreKept kept.old.entries }
    ensures tree { IfOk result (λ found. IfSome found (λ tree. tree ≡ parsed_text key.now)) }
    ensures kept { AreKept kept.new.entries }
    ensures same { kept.new.cap ≡ kept.old.cap }
{
    if !kept.promote(key) {
        return Ok(None);
    }
    match kept.peek_mru() {
        Some((_key, tree)) => Ok(Some(tree.share()?)),
        None => Ok(None),
    }
}

/// Keeps the tree of a key.
#[inline(always)]
fn keep(kept: &mut LruCache<Reading, Tree>, key: Reading, tree: &Tree) -> Result<(), Memory>
    requires kept { AreKept kept.old.entries }
    requires is { tree.now ≡ parsed_text key }
    requires short { length key.text ≤ most_bytes }
    ensures kept { AreKept kept.new.entries }
    ensures same { kept.new.cap ≡ kept.old.cap }
{
    let tree = tree.share()?;
    kept.put(key, tree)?;
    Ok(())
}

/// The tree of a short text: the kept one, or a new one, which is kept then.
#[inline(always)]
fn kept_tree(
    alloc: Global,
    kept: &mut LruCache<Reading, Tree>,
    text: &Text,
    mode: Mode,
) -> Result<Tree, Memory>
    requires kept { AreKept kept.old.entries }
    requires short { length text.now ≤ most_bytes }
    ensures tree { IfOk result (λ tree. tree ≡ record { mode = mode; text = text.now }) }
    ensures kept { AreKept kept.new.entries }
    ensures same { kept.new.cap ≡ kept.old.cap }
{
    let key = key_of(text, mode)?;
    if let Some(tree) = found(kept, &key)? {
        return Ok(tree);
    }
    let tree = made(alloc, text, mode)?;
    keep(kept, key, &tree)?;
    Ok(tree)
}

/// The trees of the texts that were parsed last, in each mode (own). Contracts see how many it keeps at most.
///
/// A text of more than 65,536 bytes is parsed each time. By its type each tree that is kept is that of its text.
///
/// Beside the trees it keeps titles of names that templates called, of those with one place the last: at most as many as
/// its capacity, and 1,024 at most. The title of a name of more than 256 bytes is made each time.
#[derive(Drop)]
pub struct Trees {
    capacity: usize,
    kept: Option<LruCache<Reading, Tree>>,
    names: Names,
}

impl Model for Trees {
    ghost use Rattle.std.specs.Prelude.{ℕ};
    ghost use Rattle.wk_expand.specs.Trees.{IsWithin};

    ghost Value = { ℕ };

    ghost view = { λ t. t.capacity };

    ghost invariant = { λ t. IsWithin t.capacity t.kept };
}

impl Trees {
    /// Keeps the trees of at most so many texts; of none where it is 0.
    pub fn new(alloc: Global, capacity: usize) -> Result<Trees, Memory>
        ensures { IfOk result (λ trees. trees ≡ capacity) }
    {
        let kept = match NonZeroUsize::new(capacity) {
            Some(most) => Some(LruCache::sparse(alloc, most)?),
            None => None,
        };
        let names = Names::new(alloc, capacity)?;
        Ok(Trees {
            capacity,
            kept,
            names,
        })
    }

    /// The tree of a text that is read in a mode: the kept one, or a new one, which is kept where the text isn't long.
    #[inline(always)]
    pub(crate) fn tree(&mut self, alloc: Global, text: &Text, mode: Mode) -> Result<Tree, Memory>
        ensures tree { IfOk result (λ tree. tree ≡ record { mode = mode; text = text.now }) }
        ensures same { self.new ≡ self.old }
    {
        match &mut self.kept {
            Some(kept) if text.len() <= MOST_TEXT_BYTES => kept_tree(alloc, kept, text, mode),
            _ => made(alloc, text, mode),
        }
    }

    /// The title that a name calls, in the namespace Template where it names none. Names that were called are kept.
    #[inline(always)]
    pub(crate) fn called(&mut self, alloc: Global, name: &str) -> Result<Option<Title>, Memory>
        ensures title { IfOk result (λ found. found ≡ normal name.now (pos 10)) }
        ensures same { self.new ≡ self.old }
    {
        self.names.called(alloc, name)
    }
}

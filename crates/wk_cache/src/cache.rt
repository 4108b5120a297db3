//! The cache.
ghost use Rattle.std.specs.Prelude.{◌≡◌, [], IfErr, IfOk, IsSome, OnErr, OnOk};
ghost use Rattle.std.specs.Borrow.{sem};
ghost use Rattle.std.specs.Option.{option_copied};
ghost use Rattle.wk_cache.specs.Entries.{entry_of, kept_with, marked, to_front};

use crate::entries::{find, mark, promote, put};
use crate::kept::Kept;
use lru::LruCache;
use std::alloc::Global;
use std::marker::Model;
use std::num::NonZeroUsize;
use wk_memory::Memory;
use wk_title::Title;

/// How many bytes an output has at most whose draft is kept.
const MOST_OUTPUT: usize = 1_048_576;

/// Drafts of pages, those that were used last (own). Contracts see how many entries it keeps at most, and its entries, the
/// one that was used last before all others.
#[derive(Drop)]
pub struct Cache {
    kept: Option<LruCache<Title, Kept>>,
}

impl Model for Cache {
    ghost use Rattle.wk_cache.specs.Entries.{CacheShown};
    ghost use Rattle.wk_cache.specs.Keyed.{IsKeyed, shown};

    ghost Value = { CacheShown };

    ghost view = { λ c. shown c.kept };

    ghost invariant = { λ c. IsKeyed c.kept };
}

impl Cache {
    ghost use Rattle.wk_cache.specs.Lends.{EndsInFront};

    /// A cache that keeps at most so many entries; none where it is 0.
    pub fn new(alloc: Global, capacity: usize) -> Result<Cache, Memory>
        ensures { IfOk result (λ cache. cache ≡ record { most = capacity; entries = [] }) }
    {
        let kept = match NonZeroUsize::new(capacity) {
            Some(most) => Some(LruCache::sparse(alloc, most)?),
            None => None,
        };
        Ok(Cache { kept })
    }

    /// The entry of the page, without a change of the order. Takes no memory.
    fn peek(&self, page: &Title) -> Option<&Kept>
        ensures { option_copied result ≡ entry_of page.now self.now.entries }
    {
        match &self.kept {
            Some(kept) => find(kept, page),
            None => None,
        }
    }

    /// Puts the page's entry, if it has one, before all others. Takes no memory.
    fn promote(&mut self, page: &Title)
        ensures { self.new ≡ record self.old { entries = to_front page.now self.old.entries } }
    {
        if let Some(kept) = &mut self.kept {
            promote(kept, page);
        }
    }

    /// The entry of the page, which goes before all others; `None` exactly where it has none. Takes no memory.
    pub fn get(&mut self, page: &Title) -> Option<&Kept>
        ensures* front { sem 𝓛 (EndsInFront self.entry page.now) }
        ensures value { option_copied result ≡ entry_of page.now self.old.entries }
    {
        self.promote(page);
        self.peek(page)
    }

    /// Keeps an entry before all others, in the place of the one that its page has; where there are too many, the one goes
    /// that wasn't used for the longest time. An entry whose output has more than 1,048,576 bytes isn't kept, and nothing
    /// changes.
    ///
    /// After an `Err` nothing has changed, and the entry is handed back.
    pub fn put(&mut self, kept: Kept) -> Result<(), (Kept, Memory)>
        ensures ok { OnOk result (self.new ≡ record self.old { entries = kept_with self.old.most kept self.old.entries }) }
        ensures err { OnErr result (self.new ≡ self.old) }
        ensures refused { IfErr result (λ refused. refused.0 ≡ kept) }
    {
        if kept.draft.draft().out().len() > MOST_OUTPUT {
            return Ok(());
        }
        match &mut self.kept {
            Some(entries) => put(entries, kept),
            None => Ok(()),
        }
    }

    /// Gives the page's entry this point and this number of uses, and puts it before all others. Takes no memory.
    pub fn set(&mut self, page: &Title, point: u64, uses: u8)
        requires { IsSome (entry_of page.now self.old.entries) }
        ensures { self.new ≡ record self.old { entries = marked page.now point uses self.old.entries } }
    {
        if let Some(kept) = &mut self.kept {
            mark(kept, page, point, uses);
        }
    }
}

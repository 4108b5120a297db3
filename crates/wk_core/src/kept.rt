//! The drafts that a wiki keeps for whoever reads its pages.
ghost use Rattle.std.specs.Prelude.{◌≡◌, [], IfErr, IfOk, IfSome};
ghost use Rattle.wk_life_laws.specs.Caches.{IsLastingEntry};
ghost use Rattle.wk_cache.specs.Entries.{entry_kept, entry_of, to_front};

use crate::wiki::Wiki;
use std::alloc::Global;
use wk_cache::{Cache, Kept};
use wk_keeper::Keeper;
use wk_memory::Memory;
use wk_title::Title;

/// How many drafts a wiki keeps at most.
const MOST_KEPT: usize = 256;

/// What a wiki keeps at first: nothing.
pub fn none_kept(alloc: Global) -> Result<Cache, Memory>
    ensures { IfOk result (λ cache. cache ≡ record { most = 256; entries = [] }) }
{
    Cache::new(alloc, MOST_KEPT)
}

/// The page's entry for a further owner, `None` exactly where it has none. The entry goes before all others.
fn find(cache: &mut Cache, page: &Title) -> Result<Option<Kept>, Memory>
    ensures found { IfOk result (λ found. found ≡ entry_of page.now cache.old.entries) }
    ensures front { cache.new ≡ record cache.old { entries = to_front page.now cache.old.entries } }
{
    match cache.get(page) {
        Some(kept) => Ok(Some(kept.share()?)),
        None => Ok(None),
    }
}

impl<K: Keeper> Wiki<K> {
    /// What is kept of the page, for a further owner; `None` exactly where nothing is. It is honest: each text that was
    /// read for the draft is the text of its revision, so that its reads can be checked by their marks. It need not be
    /// current. The draft isn't copied. It is no event.
    pub fn kept(&mut self, page: &Title) -> Result<Option<Kept>, Memory>
        ensures kept { IfOk result (λ found. IfSome found (λ kept.
            (kept.draft.page ≡ page.now) × IsLastingEntry self.old.state (entry_kept kept))) }
        ensures same { self.new ≡ self.old }
    {
        find(&mut self.cache, page)
    }

    /// Keeps a draft of a page's own text, each of whose texts is the text of its revision, with the page's number, 0 where
    /// it was read to be missing; in the place of what is kept of the page. Where there are more than 256 drafts, the one
    /// goes that wasn't used for the longest time. One whose output has more than 1,048,576 bytes isn't kept. It is no event.
    ///
    /// After an `Err` what is kept is as before, and the draft is handed back.
    pub fn keep(&mut self, kept: Kept) -> Result<(), (Kept, Memory)>
        requires lasting { IsLastingEntry self.old.state (entry_kept kept) }
        ensures refused { IfErr result (λ refused. refused.0 ≡ kept) }
        ensures same { self.new ≡ self.old }
    {
        self.cache.put(kept)
    }
}

//! The entries of a cache that keeps at least one.
ghost use Rattle.std.specs.Prelude.{◌≡◌, IfErr, OnErr, OnOk, IsSome};
ghost use Rattle.std.specs.Option.{option_copied};
ghost use Rattle.wk_cache.specs.Entries.{entry_of, marked, to_front, with_entry};
ghost use Rattle.wk_cache.specs.Keyed.{AreKeyed, drafts};

use crate::kept::Kept;
use lru::LruCache;
use std::alloc::AllocFailed;
use wk_memory::Memory;
use wk_title::Title;

/// The entry of the page, if it has one. Takes no memory.
pub fn find<'a>(kept: &'a LruCache<Title, Kept>, page: &Title) -> Option<&'a Kept>
    requires { AreKeyed kept.now.entries }
    ensures { option_copied result ≡ entry_of page.now (drafts kept.now.entries) }
{
    kept.peek(page)
}

/// Puts the page's entry, if it has one, before all others. Takes no memory.
pub fn promote(kept: &mut LruCache<Title, Kept>, page: &Title)
    requires { AreKeyed kept.old.entries }
    ensures entries { drafts kept.new.entries ≡ to_front page.now (drafts kept.old.entries) }
    ensures keyed { AreKeyed kept.new.entries }
    ensures same { kept.new.cap ≡ kept.old.cap }
{
    kept.promote(page);
}

/// Gives the page's entry these numbers, and puts it before all others. Takes no memory.
pub fn mark(kept: &mut LruCache<Title, Kept>, page: &Title, point: u64, uses: u8)
    requires keyed { AreKeyed kept.old.entries }
    requires there { IsSome (entry_of page.now (drafts kept.old.entries)) }
    ensures entries { drafts kept.new.entries ≡ marked page.now point uses (drafts kept.old.entries) }
    ensures keyed { AreKeyed kept.new.entries }
    ensures same { kept.new.cap ≡ kept.old.cap }
{
    if let Some(entry) = kept.get_mut(page) {
        entry.point = point;
        entry.uses = uses;
    }
}

/// Keeps an entry under its page, before all others. After an `Err` it is handed back, and nothing has changed.
pub fn put(kept: &mut LruCache<Title, Kept>, entry: Kept) -> Result<(), (Kept, Memory)>
    requires keyed { AreKeyed kept.old.entries }
    ensures entries { OnOk result (drafts kept.new.entries ≡ with_entry kept.old.cap entry (drafts kept.old.entries)) }
    ensures keyed { AreKeyed kept.new.entries }
    ensures same { kept.new.cap ≡ kept.old.cap }
    ensures unchanged { OnErr result (kept.new ≡ kept.old) }
    ensures refused { IfErr result (λ refused. refused.0 ≡ entry) }
{
    let Ok(page) = entry.draft.draft().page().share() else {
        return Err((entry, Memory));
    };
    let _room = kept.len();
    match kept.put(page, entry) {
        Ok(_old) => Ok(()),
        Err(AllocFailed { value }) => Err((value.1, Memory)),
    }
}

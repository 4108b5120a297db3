//! What is kept of a page, and whether it is served.
ghost use Rattle.std.specs.Prelude.{◌≡◌, ◌<◌, ◌≤◌, IfSome, IsTrue};
ghost use Rattle.wk_cache.specs.Entries.{entry_of, to_front};
ghost use Rattle.wk_wiki_rules.specs.Passes.{max_uses};

use wk_cache::{Cache, Kept};
use wk_title::Title;

/// How often an entry is served before it is checked again.
const MOST_USES: u8 = 16;

/// The page's entry, for a further owner, if it has one; it goes before all others. One that std's shared pointers refuse to
/// share is passed over.
pub fn found(cache: &mut Cache, title: &Title) -> Option<Kept>
    ensures found { IfSome result (λ kept. entry_of title.now cache.old.entries ≡ Some kept) }
    ensures front { cache.new ≡ record cache.old { entries = to_front title.now cache.old.entries } }
{
    match cache.get(title) {
        Some(kept) => match kept.share() {
            Ok(kept) => Some(kept),
            Err(_) => None,
        },
        None => None,
    }
}

/// Whether an entry is served without a look at the wiki: it is as new as the least point and as what was seen, and was
/// served less than 16 times since it was checked. Takes no memory.
pub fn is_fresh(kept: &Kept, least: u64, seen: u64) -> bool
    ensures few { IsTrue result → kept.now.uses < max_uses }
    ensures reached { IsTrue result → least ≤ kept.now.point }
    ensures fresh { IsTrue result → seen ≤ kept.now.point }
    ensures only_so { kept.now.uses < max_uses → least ≤ kept.now.point → seen ≤ kept.now.point → IsTrue result }
{
    if kept.uses >= MOST_USES || kept.point < least {
        return false;
    }
    kept.point >= seen
}

//! What a wiki keeps of drafts.
ghost use Rattle.std.specs.Prelude.{◌≡◌, IfOk, IfSome, IsTrue, None};
ghost use Rattle.wk_wiki_rules.specs.States.{world_of};
ghost use Rattle.wk_life_laws.specs.Caches.{IsLastingEntry};
ghost use Rattle.wk_wiki_rules.specs.Passes.{shown_number};
ghost use Rattle.wk_cache.specs.Entries.{entry_kept};
ghost use Rattle.wk_expand.specs.Steps.{given_text};
ghost use Rattle.wk_live.specs.Drafted.{IsPresent};
ghost use Rattle.wk_shared.specs.Sought.{IsCurrentKept, IsSought, kept_of};

use crate::looks::{Found, is_current};
use wk_core::{Draft, Keeper, Kept, SharedDraft, Wiki};
use wk_expand::Root;
use wk_memory::Memory;
use wk_title::Title;

/// Keeps a draft of a page's own text, with the page's number. Where memory runs out it is passed over.
fn keep<K: Keeper>(wiki: &mut Wiki<K>, draft: &SharedDraft, point: u64, id: u32)
    requires { IsLastingEntry wiki.old.state (entry_kept (kept_of draft.now point id)) }
    ensures { wiki.new ≡ wiki.old }
{
    let Ok(draft) = draft.share() else {
        return;
    };
    let kept = Kept {
        draft,
        point,
        uses: 0,
        id,
    };
    let _refused = wiki.keep(kept);
}

/// Keeps a draft of a page's own text where it was found to be current.
pub fn keep_found<K: Keeper>(wiki: &mut Wiki<K>, draft: &SharedDraft, found: Found)
    requires { IsTrue found.current → IsLastingEntry wiki.old.state (entry_kept (kept_of draft.now found.point found.id)) }
    ensures { wiki.new ≡ wiki.old }
{
    if found.current {
        keep(wiki, draft, found.point, found.id);
    }
}

/// Keeps in the wiki what a page's own text expands to.
pub fn keep_drafted<K: Keeper>(
    wiki: &mut Wiki<K>,
    title: &Title,
    root: &Root,
    draft: &Result<SharedDraft, Memory>,
    id: u32,
)
    requires present { IfOk draft.now (IsPresent (world_of wiki.old.state) title.now (given_text root.now)) }
    requires number { id ≡ shown_number wiki.old.state.history title.now }
    ensures { wiki.new ≡ wiki.old }
{
    wiki.facts();
    let point = wiki.point();
    if let Root::Page = root {
        if let Ok(draft) = draft {
            keep(wiki, draft, point, id);
        }
    }
}

/// What the wiki keeps of the page, where each of its reads is current. It has the present point then, and wasn't served since.
pub fn find_kept<K: Keeper>(wiki: &mut Wiki<K>, title: &Title) -> Option<Kept>
    ensures kept { IfSome result (IsCurrentKept wiki.old.start wiki.old.journal title.now) }
    ensures same { wiki.new ≡ wiki.old }
{
    wiki.facts();
    let Ok(found) = wiki.kept(title) else {
        return None;
    };
    let Some(kept) = found else {
        return None;
    };
    let made = kept.draft.draft();
    let _page = made.page();
    let _reads = made.reads();
    if !is_current(wiki, made) {
        return None;
    }
    let point = wiki.point();
    keep(wiki, &kept.draft, point, kept.id);
    Some(Kept {
        draft: kept.draft,
        point,
        uses: 0,
        id: kept.id,
    })
}

/// What is found for a read of a page.
#[derive(Drop)]
pub enum Sought {
    /// What the reader keeps is current.
    Own,
    /// What the wiki keeps is current.
    Shared(Kept),
    /// Neither is, or nothing is kept.
    Nothing,
}

/// Looks for what is current of a page: what the reader keeps, and then what the wiki does.
pub fn seek<K: Keeper>(wiki: &mut Wiki<K>, title: &Title, own: &Draft) -> Sought
    ensures sought { IsSought wiki.old.start wiki.old.journal wiki.old.state title.now own.now result }
    ensures same { wiki.new ≡ wiki.old }
{
    if is_current(wiki, own) {
        return Sought::Own;
    }
    match find_kept(wiki, title) {
        Some(kept) => Sought::Shared(kept),
        None => Sought::Nothing,
    }
}

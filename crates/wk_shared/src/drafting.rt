//! Answers that are drafted anew.
ghost use Rattle.std.specs.Prelude.{◌≡◌, ℕ, IfOk, IfSome, length};
ghost use Rattle.wk_wiki_rules.specs.States.{State, world_of};
ghost use Rattle.wk_wiki_rules.specs.Passes.{shown_number};
ghost use Rattle.wk_expand.specs.Steps.{given_text};
ghost use Rattle.wk_shared.specs.Calls.{IsFree};
ghost use Rattle.wk_read_laws.specs.Points.{AreReadSince};
ghost use Rattle.wk_shared.specs.Looks.{HasLooked, HasRead, IsPresentRead, TellsCurrent};

use crate::apart::draft_apart;
use crate::looks::{Found, draft_held, look_and_keep, look_at, shared_draft};
use crate::{Pass, Shared};
use std::alloc::Global;
use std::sync::Wait;
use wk_base::Gate;
use wk_core::{Keeper, PageRead, SharedDraft, Wiki};
use wk_expand::{Root, Trees};
use wk_memory::Memory;
use wk_title::Title;

/// How often a draft is made without the turn before one is made with it.
const MOST_TRIES: u8 = 3;

/// Looks whether each read of a draft is current. The wiki keeps a draft of a page's own text then. It waits. No memory.
fn look_behind<K: Keeper, R: Wait>(
    shared: &Shared<K>,
    rt: &R,
    pass: &mut Pass<Wiki<K>>,
    draft: &SharedDraft,
    root: &Root,
) -> Found
    requires free { IsFree shared.now pass.old }
    requires given { draft.now.given ≡ given_text root.now }
    requires since { (from : ℕ) × AreReadSince shared.now.start pass.old.seen from draft.now.reads }
    ensures point { result.point ≡ length pass.new.seen }
    ensures looked { (state : State) × HasLooked shared.now pass.old pass.new state
        × (result.id ≡ shown_number state.history draft.now.page)
        × TellsCurrent (world_of state) draft.now.reads result.current }
{
    match root {
        Root::Page => look_and_keep(shared, rt, pass, draft),
        Root::Given(_) => look_at(shared, rt, pass, draft.draft()),
    }
}

/// The answer that a draft gives, where each of its reads is current. It waits. No memory.
fn accept<K: Keeper, R: Wait>(
    shared: &Shared<K>,
    rt: &R,
    pass: &mut Pass<Wiki<K>>,
    draft: SharedDraft,
    root: &Root,
) -> Option<PageRead>
    requires free { IsFree shared.now pass.old }
    requires given { draft.given ≡ given_text root.now }
    requires since { (from : ℕ) × AreReadSince shared.now.start pass.old.seen from draft.reads }
    ensures pass { HasRead shared.now pass.old pass.new }
    ensures read { IfSome result (IsPresentRead shared.now pass.new draft.page draft.given) }
{
    let made = draft.draft();
    let _page = made.page();
    let found = look_behind(shared, rt, pass, &draft, root);
    if !found.current {
        return None;
    }
    Some(PageRead {
        draft,
        point: found.point,
        id: found.id,
    })
}

/// The answer that a draft gives which is made without the turn, where each of its reads is current behind it. It waits.
fn try_draft<K: Keeper, R: Wait, G: Gate>(
    shared: &Shared<K>,
    rt: &R,
    alloc: Global,
    pass: &mut Pass<Wiki<K>>,
    trees: &mut Trees,
    title: &Title,
    root: &Root,
    gate: &mut G,
) -> Result<Option<PageRead>, Memory>
    requires { IsFree shared.now pass.old }
    ensures pass { HasRead shared.now pass.old pass.new }
    ensures read { IfOk result (λ read. IfSome read (IsPresentRead shared.now pass.new title.now (given_text root.now))) }
{
    let draft = draft_apart(shared, rt, alloc, pass, trees, title, root, gate)?;
    let draft = shared_draft(alloc, draft)?;
    Ok(accept(shared, rt, pass, draft, root))
}

/// The answer that a draft gives which is made with the turn held. It waits.
fn drafted_held<K: Keeper, R: Wait>(
    shared: &Shared<K>,
    rt: &R,
    alloc: Global,
    pass: &mut Pass<Wiki<K>>,
    trees: &mut Trees,
    title: &Title,
    root: &Root,
) -> Result<PageRead, Memory>
    requires { IsFree shared.now pass.old }
    ensures pass { HasRead shared.now pass.old pass.new }
    ensures read { IfOk result (IsPresentRead shared.now pass.new title.now (given_text root.now)) }
{
    let (draft, id) = draft_held(shared, rt, alloc, pass, trees, title, root);
    let point = pass.point();
    match draft {
        Ok(draft) => Ok(PageRead { draft, point, id }),
        Err(memory) => Err(memory),
    }
}

/// What a page, or a given text in the place of its own, expands to at the point that the pass has seen then. It is drafted
/// without the turn, and taken where each read is current; after three drafts that aren't, with the turn held. It waits.
pub fn drafted<K: Keeper, R: Wait, G: Gate>(
    shared: &Shared<K>,
    rt: &R,
    alloc: Global,
    pass: &mut Pass<Wiki<K>>,
    trees: &mut Trees,
    title: &Title,
    root: &Root,
    gate: &mut G,
) -> Result<PageRead, Memory>
    requires { IsFree shared.now pass.old }
    ensures pass { HasRead shared.now pass.old pass.new }
    ensures read { IfOk result (IsPresentRead shared.now pass.new title.now (given_text root.now)) }
{
    'tries: for _try in 0..MOST_TRIES {
        match try_draft(shared, rt, alloc, pass, trees, title, root, gate)? {
            Some(read) => return Ok(read),
            None => {}
        }
    }
    drafted_held(shared, rt, alloc, pass, trees, title, root)
}

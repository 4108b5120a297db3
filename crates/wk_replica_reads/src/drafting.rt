//! Reads of pages and of given texts: what is kept and current, or what is drafted anew.
ghost use Rattle.std.specs.Prelude.{◌≡◌, ℕ, IfOk, IfSome, None};
ghost use Rattle.wk_expand.specs.Steps.{given_text};
ghost use Rattle.wk_read_laws.specs.Points.{AreReadSince};
ghost use Rattle.wk_replica_reads.specs.Looks.{HasRead, IsFree, IsReadNow};

use crate::apart::draft_apart;
use crate::desk::{give, take};
use crate::replicas::{accepted, drafted_here, find_kept, shared_draft};
use std::alloc::Global;
use std::sync::Wait;
use wk_base::Gate;
use wk_core::{PageRead, SharedDraft};
use wk_expand::{Root, Trees};
use wk_memory::Memory;
use wk_replica::Replica;
use wk_title::Title;
use wk_turn::{Pass, Turn};

/// How often a draft is made without the turn before one is made with it.
const MOST_TRIES: u8 = 3;

/// What the replica keeps of the page, where each of its reads is current. It waits.
pub fn seek<R: Wait>(
    rt: &R,
    shared: &Turn<Replica>,
    pass: &mut Pass<Replica>,
    title: &Title,
) -> Option<PageRead>
    requires { IsFree shared.now pass.old }
    ensures pass { HasRead shared.now pass.old pass.new }
    ensures read { IfSome result (IsReadNow shared.now.start.wiki pass.new.seen title.now None) }
{
    let mut held = take(rt, shared, pass);
    let read = find_kept(&mut held.value, title);
    give(shared, pass, held);
    read
}

/// The answer that a draft gives, where each of its reads is current. The replica keeps a draft of a page's own text then. It
/// waits.
fn accept<R: Wait>(
    rt: &R,
    shared: &Turn<Replica>,
    pass: &mut Pass<Replica>,
    draft: SharedDraft,
    root: &Root,
) -> Option<PageRead>
    requires free { IsFree shared.now pass.old }
    requires given { draft.given ≡ given_text root.now }
    requires since { (from : ℕ) × AreReadSince shared.now.start.wiki pass.old.seen from draft.reads }
    ensures pass { HasRead shared.now pass.old pass.new }
    ensures read { IfSome result (IsReadNow shared.now.start.wiki pass.new.seen draft.page draft.given) }
{
    let mut held = take(rt, shared, pass);
    let read = accepted(&mut held.value, draft, root);
    give(shared, pass, held);
    read
}

/// The answer that a draft gives which is made without the turn, where each of its reads is current behind it. It waits.
fn try_draft<R: Wait, G: Gate>(
    rt: &R,
    shared: &Turn<Replica>,
    alloc: Global,
    pass: &mut Pass<Replica>,
    trees: &mut Trees,
    title: &Title,
    root: &Root,
    gate: &mut G,
) -> Result<Option<PageRead>, Memory>
    requires { IsFree shared.now pass.old }
    ensures pass { HasRead shared.now pass.old pass.new }
    ensures read { IfOk result (λ read. IfSome read (IsReadNow shared.now.start.wiki pass.new.seen title.now (given_text root.now))) }
{
    let draft = draft_apart(rt, shared, alloc, pass, trees, title, root, gate)?;
    let draft = shared_draft(alloc, draft)?;
    Ok(accept(rt, shared, pass, draft, root))
}

/// The answer that a draft gives which is made with the turn held. It waits.
fn drafted_held<R: Wait>(
    rt: &R,
    shared: &Turn<Replica>,
    alloc: Global,
    pass: &mut Pass<Replica>,
    trees: &mut Trees,
    title: &Title,
    root: &Root,
) -> Result<PageRead, Memory>
    requires { IsFree shared.now pass.old }
    ensures pass { HasRead shared.now pass.old pass.new }
    ensures read { IfOk result (IsReadNow shared.now.start.wiki pass.new.seen title.now (given_text root.now)) }
{
    let mut held = take(rt, shared, pass);
    let read = drafted_here(alloc, &mut held.value, title, root, trees);
    give(shared, pass, held);
    read
}

/// What a page, or a given text in the place of its own, expands to at the point that the pass has seen then. It is drafted
/// without the turn, and taken where each read is current; after three drafts that aren't, with the turn held. It waits.
pub fn drafted<R: Wait, G: Gate>(
    rt: &R,
    shared: &Turn<Replica>,
    alloc: Global,
    pass: &mut Pass<Replica>,
    trees: &mut Trees,
    title: &Title,
    root: &Root,
    gate: &mut G,
) -> Result<PageRead, Memory>
    requires { IsFree shared.now pass.old }
    ensures pass { HasRead shared.now pass.old pass.new }
    ensures read { IfOk result (IsReadNow shared.now.start.wiki pass.new.seen title.now (given_text root.now)) }
{
    'tries: for _try in 0..MOST_TRIES {
        match try_draft(rt, shared, alloc, pass, trees, title, root, gate)? {
            Some(read) => return Ok(read),
            None => {}
        }
    }
    drafted_held(rt, shared, alloc, pass, trees, title, root)
}

//! What is looked at under the turn.
ghost use Rattle.std.specs.Prelude.{◌≡◌, ℕ, false, IfOk, IfSome, IsSome, IsTrue, length, None};
ghost use Rattle.wk_wiki_rules.specs.States.{State, world_of};
ghost use Rattle.wk_wiki_rules.specs.Passes.{shown_number};
ghost use Rattle.wk_wiki_rules.specs.Staleness.{first_stale};
ghost use Rattle.wk_shared.specs.Calls.{IsFree};
ghost use Rattle.wk_expand.specs.Steps.{given_text};
ghost use Rattle.wk_live.specs.Drafted.{IsPresent};
ghost use Rattle.wk_read_laws.specs.Points.{AreReadSince};
ghost use Rattle.wk_shared.specs.Looks.{HasLooked, IsPresentRead, TellsCurrent, is_idle};
ghost use Rattle.wk_shared.specs.Sought.{IsLookedFor, kept_read};

use crate::keeping::{Sought, find_kept, keep_drafted, keep_found, seek};
use crate::reads_desk::{give, take};
use crate::{Pass, Shared};
use std::alloc::Global;
use std::sync::Wait;
use wk_core::{Draft, Keeper, Kept, SharedDraft, Wiki};
use wk_expand::{Root, Trees};
use wk_live::{draft_now, stale_reads_are_those_of_the_rules};
use wk_memory::Memory;
use wk_title::Title;

/// Whether each read of the draft is current. Takes no memory.
pub fn is_current<K: Keeper>(wiki: &Wiki<K>, draft: &Draft) -> bool
    ensures current { IsTrue result → first_stale (world_of wiki.now.state) draft.now.reads ≡ None }
    ensures stale { result ≡ false → IsSome (first_stale (world_of wiki.now.state) draft.now.reads) }
{
    stale_reads_are_those_of_the_rules();
    wiki.live().first_stale(draft.reads()).is_none()
}

/// Whether no job is to be done: no refresh job is queued, and no fan job stands. Takes no memory.
pub fn is_idle<K: Keeper>(wiki: &Wiki<K>) -> bool
    ensures { result ≡ is_idle wiki.now.state }
{
    let jobs = wiki.live().jobs();
    jobs.first_queued().is_none() && jobs.first_fan().is_none()
}

/// The number of the title's page, 0 where the page is missing. Takes no memory.
pub fn number_of<K: Keeper>(wiki: &Wiki<K>, title: &Title) -> u32
    ensures { result ≡ shown_number wiki.now.state.history title.now }
{
    if wiki.current(title) == 0 {
        return 0;
    }
    wiki.page(title).unwrap_or(0)
}

/// What is found of a draft under the turn.
#[derive(Clone, Copy)]
pub struct Found {
    /// The point.
    pub point: u64,
    /// The number of the draft's page, 0 where it is missing.
    pub id: u32,
    /// Whether each read is current.
    pub current: bool,
}

/// What is found of a draft in a wiki. Takes no memory.
pub fn found_in<K: Keeper>(wiki: &Wiki<K>, draft: &Draft) -> Found
    ensures point { result.point ≡ length wiki.now.journal }
    ensures id { result.id ≡ shown_number wiki.now.state.history draft.now.page }
    ensures current { TellsCurrent (world_of wiki.now.state) draft.now.reads result.current }
{
    Found {
        point: wiki.point(),
        id: number_of(wiki, draft.page()),
        current: is_current(wiki, draft),
    }
}

/// What a look tells besides.
#[derive(Clone, Copy)]
pub struct Looked {
    /// The point.
    pub point: u64,
    /// Whether no job is to be done there.
    pub idle: bool,
}

/// What a look at a wiki tells besides. Takes no memory.
fn looked_in<K: Keeper>(wiki: &Wiki<K>) -> Looked
    ensures point { result.point ≡ length wiki.now.journal }
    ensures idle { result.idle ≡ is_idle wiki.now.state }
{
    Looked {
        point: wiki.point(),
        idle: is_idle(wiki),
    }
}

/// Looks whether the reads of a draft are current. It waits. No memory.
pub fn look_at<K: Keeper, R: Wait>(
    shared: &Shared<K>,
    rt: &R,
    pass: &mut Pass<Wiki<K>>,
    draft: &Draft,
) -> Found
    requires { IsFree shared.now pass.old }
    ensures point { result.point ≡ length pass.new.seen }
    ensures looked { (state : State) × HasLooked shared.now pass.old pass.new state
        × (result.id ≡ shown_number state.history draft.now.page)
        × TellsCurrent (world_of state) draft.now.reads result.current }
{
    let held = take(shared, rt, pass);
    let found = found_in(&held.value, draft);
    give(shared, pass, held);
    found
}

/// Looks how far the journal has come. It waits. No memory.
pub fn look<K: Keeper, R: Wait>(shared: &Shared<K>, rt: &R, pass: &mut Pass<Wiki<K>>) -> u64
    requires { IsFree shared.now pass.old }
    ensures point { result ≡ length pass.new.seen }
    ensures looked { (state : State) × HasLooked shared.now pass.old pass.new state }
{
    let held = take(shared, rt, pass);
    let point = held.value.point();
    give(shared, pass, held);
    point
}

/// A draft, to be shared.
pub fn shared_draft(alloc: Global, draft: Draft) -> Result<SharedDraft, Memory>
    ensures { IfOk result (λ shared. shared ≡ draft) }
{
    match SharedDraft::new(alloc, draft) {
        Ok(shared) => Ok(shared),
        Err((_draft, memory)) => Err(memory),
    }
}

/// What a page, or a given text in the place of its own, expands to in a wiki.
fn drafted_now<K: Keeper>(
    alloc: Global,
    wiki: &Wiki<K>,
    title: &Title,
    root: &Root,
    trees: &mut Trees,
) -> Result<SharedDraft, Memory>
    ensures { IfOk result (IsPresent (world_of wiki.now.state) title.now (given_text root.now)) }
{
    match draft_now(alloc, wiki.live(), title, root, trees) {
        Ok(draft) => shared_draft(alloc, draft),
        Err(memory) => Err(memory),
    }
}

/// Drafts a page, or a text in the place of its own, with the turn held; with the number of the page. The wiki keeps what a
/// page's own text expands to. It waits.
pub fn draft_held<K: Keeper, R: Wait>(
    shared: &Shared<K>,
    rt: &R,
    alloc: Global,
    pass: &mut Pass<Wiki<K>>,
    trees: &mut Trees,
    title: &Title,
    root: &Root,
) -> (Result<SharedDraft, Memory>, u32)
    requires { IsFree shared.now pass.old }
    ensures { (state : State) × HasLooked shared.now pass.old pass.new state
        × (result.1 ≡ shown_number state.history title.now)
        × IfOk result.0 (IsPresent (world_of state) title.now (given_text root.now)) }
{
    let mut held = take(shared, rt, pass);
    let draft = drafted_now(alloc, &held.value, title, root, trees);
    let id = number_of(&held.value, title);
    keep_drafted(&mut held.value, title, root, &draft, id);
    give(shared, pass, held);
    (draft, id)
}

/// Looks whether the reads of a draft of a page's own text are current. The wiki keeps it then. It waits. No memory.
pub fn look_and_keep<K: Keeper, R: Wait>(
    shared: &Shared<K>,
    rt: &R,
    pass: &mut Pass<Wiki<K>>,
    draft: &SharedDraft,
) -> Found
    requires free { IsFree shared.now pass.old }
    requires own_text { draft.now.given ≡ None }
    requires since { (from : ℕ) × AreReadSince shared.now.start pass.old.seen from draft.now.reads }
    ensures point { result.point ≡ length pass.new.seen }
    ensures looked { (state : State) × HasLooked shared.now pass.old pass.new state
        × (result.id ≡ shown_number state.history draft.now.page)
        × TellsCurrent (world_of state) draft.now.reads result.current }
{
    let made = draft.draft();
    let _page = made.page();
    let mut held = take(shared, rt, pass);
    let found = found_in(&held.value, made);
    keep_found(&mut held.value, draft, found);
    give(shared, pass, held);
    found
}

/// Looks how far the journal has come, whether a job is to be done, and for what is current of a page: this draft, or else what
/// the wiki keeps. It waits.
pub fn look_for<K: Keeper, R: Wait>(
    shared: &Shared<K>,
    rt: &R,
    pass: &mut Pass<Wiki<K>>,
    title: &Title,
    own: &Draft,
) -> (Sought, Looked)
    requires { IsFree shared.now pass.old }
    ensures point { result.1.point ≡ length pass.new.seen }
    ensures looked { (state : State) × HasLooked shared.now pass.old pass.new state
        × IsLookedFor shared.now pass.new state title.now own.now result.0 × (result.1.idle ≡ is_idle state) }
{
    let mut held = take(shared, rt, pass);
    let sought = seek(&mut held.value, title, own);
    let looked = looked_in(&held.value);
    give(shared, pass, held);
    (sought, looked)
}

/// Looks how far the journal has come, whether a job is to be done, and for what is current of what the wiki keeps of a page. It
/// waits.
pub fn look_new<K: Keeper, R: Wait>(
    shared: &Shared<K>,
    rt: &R,
    pass: &mut Pass<Wiki<K>>,
    title: &Title,
) -> (Option<Kept>, Looked)
    requires { IsFree shared.now pass.old }
    ensures point { result.1.point ≡ length pass.new.seen }
    ensures looked { (state : State) × HasLooked shared.now pass.old pass.new state × (result.1.idle ≡ is_idle state) }
    ensures kept { IfSome result.0 (λ kept. IsPresentRead shared.now pass.new title.now None (kept_read kept) × (kept.uses ≡ 0)) }
{
    let mut held = take(shared, rt, pass);
    let kept = find_kept(&mut held.value, title);
    let looked = looked_in(&held.value);
    give(shared, pass, held);
    (kept, looked)
}

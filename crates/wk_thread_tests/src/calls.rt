//! Calls of a shared wiki, each with what it tells.
ghost use Rattle.std.specs.Prelude.{◌≡◌, None, Some};
ghost use Rattle.wk_turn.specs.Told.{IsOf};
ghost use Rattle.wk_thread_tests.specs.Ready.{IsReady};

use crate::pages::{begun, edit, ended, page_title, save};
use std::alloc::Global;
use std::sync::Wait;
use wk_expand::mark;
use wk_memory::Memory;
use wk_shared::{Edit, Held, Keeper, Kind, Pass, SaveRefusal, Shared, Wiki};
use wk_title::Title;

/// Gives the wiki back as it was taken. The pass has seen its journal, and what is its own is as before.
pub fn put_back<K: Keeper>(shared: &Shared<K>, pass: &mut Pass<Wiki<K>>, held: Held<Wiki<K>>)
    requires turn { IsOf shared.now pass.old }
    requires entered { pass.old.held ≡ Some held.value.journal }
    requires start { held.value.start ≡ shared.now.start }
    requires same { held.before.value ≡ held.value }
    ensures { pass.new ≡ record pass.old { seen = held.value.journal; held = None } }
{
    shared.leave(pass, held);
}

/// How many entries a pass sees when it takes the wiki.
fn look<K: Keeper, R: Wait>(rt: &R, shared: &Shared<K>, pass: &mut Pass<Wiki<K>>) -> u64
    requires { IsReady shared.now pass.old }
    ensures { IsReady shared.now pass.new }
{
    let held = shared.enter(rt, pass);
    let seen = held.value.point();
    put_back(shared, pass, held);
    seen
}

/// Claims the first refresh job and gives it back. The point behind it, 0 where none is claimed.
fn claim_and_give_back<K: Keeper, R: Wait>(
    rt: &R,
    shared: &Shared<K>,
    pass: &mut Pass<Wiki<K>>,
) -> u64
    requires { IsReady shared.now pass.old }
    ensures { IsReady shared.now pass.new }
{
    let (answer, _point) = shared.claim(rt, pass);
    match answer {
        Ok(Some(ticket)) => shared.give_back(rt, pass, ticket),
        Ok(None) => 0,
        Err(_) => 0,
    }
}

/// One pass makes each call once: a save, a fetch, a fan where none is due, a claim that is given back, and a deletion. Whether
/// they are answered, and their points; of the fetch the revision.
fn calls<K: Keeper, R: Wait>(
    rt: &R,
    shared: &Shared<K>,
    pass: &mut Pass<Wiki<K>>,
    edit: &Edit,
    title: &Title,
) -> ([bool; 4], [u64; 5])
    requires { IsReady shared.now pass.old }
    ensures { IsReady shared.now pass.new }
{
    let (saved, save_at) = shared.save(rt, pass, edit, 0);
    let (fetched, _point) = shared.fetch(rt, pass, title, Kind::View);
    let (fanned, fan_at) = shared.fan(rt, pass);
    let claim_at = claim_and_give_back(rt, shared, pass);
    let (removed, remove_at) = shared.remove(rt, pass, "P0", Some(1), 0);
    let revision = match &fetched {
        Ok(answer) => mark(answer),
        Err(_) => 0,
    };
    (
        [
            saved.is_ok(),
            fetched.is_ok(),
            fanned.is_ok(),
            removed.is_ok(),
        ],
        [save_at, revision, fan_at, claim_at, remove_at],
    )
}

/// Another pass saves a page; the first enters, leaves and joins the other. What is told: the point of the save, and what the
/// first pass sees before it enters, when it enters and behind the join.
fn seen_by_two<K: Keeper, R: Wait>(
    rt: &R,
    alloc: Global,
    shared: &Shared<K>,
    pass: &mut Pass<Wiki<K>>,
    other: Pass<Wiki<K>>,
) -> (Result<u64, SaveRefusal>, [u64; 3])
    requires pass { IsReady shared.now pass.old }
    requires other { IsReady shared.now other }
    ensures { IsReady shared.now pass.new }
{
    let mut other = other;
    let saved = save(rt, alloc, shared, &mut other, 0, "x", 0);
    let before = pass.point();
    let entered = look(rt, shared, pass);
    shared.join(pass, other);
    (saved, [before, entered, pass.point()])
}

/// What two passes see, and what the wiki has that the first one takes back.
pub fn see_what_another_saves<K: Keeper, R: Wait>(
    rt: &R,
    alloc: Global,
    keeper: K,
) -> Result<String, Memory> {
    let (shared, mut pass) = begun(alloc, keeper)?;
    let seen = match shared.split(&mut pass) {
        Ok(other) => Some(seen_by_two(rt, alloc, &shared, &mut pass, other)),
        Err(_) => None,
    };
    let ended = ended(rt, shared, pass);
    Ok(format!(in alloc; "{seen:?} {ended:?}")?)
}

/// One pass makes each call once. What they tell, and what the wiki has then.
pub fn make_each_call<K: Keeper, R: Wait>(
    rt: &R,
    alloc: Global,
    keeper: K,
) -> Result<String, Memory> {
    let (edit, title) = (edit(alloc, 0, "x", 0)?, page_title(alloc, 0)?);
    let (shared, mut pass) = begun(alloc, keeper)?;
    let told = calls(rt, &shared, &mut pass, &edit, &title);
    let ended = ended(rt, shared, pass);
    Ok(format!(in alloc; "{told:?} {ended:?}")?)
}

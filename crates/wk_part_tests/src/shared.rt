//! A shared wiki, and a session on it. All is generic in the keeper, so that no test proves anything of a session over one.
ghost use Rattle.std.specs.Prelude.{◌≡◌, IfOk, None};
ghost use Rattle.wk_part_tests.specs.Ready.{IsReady};

use std::alloc::Global;
use std::sync::Wait;
use wk_base::ListClock;
use wk_core::{Keeper, Limits, Wiki};
use wk_link::Link;
use wk_memory::Memory;
use wk_readers::{Gate, Reader, Worker};
use wk_session::{SessionReport, serve_session};
use wk_shared::{Pass, Shared};

/// A wiki over a keeper of a good store, which isn't sealed.
fn loaded<K: Keeper>(alloc: Global, keeper: K) -> Result<Wiki<K>, Memory>
    ensures { IfOk result (λ wiki. wiki.start.sealed ≡ None) }
{
    match Wiki::load(alloc, keeper, Limits::FULL) {
        Ok(wiki) => Ok(wiki),
        Err(_) => Err(Memory),
    }
}

/// A shared wiki over a keeper of a good store, which isn't sealed, and a pass of it.
pub fn begun<K: Keeper>(alloc: Global, keeper: K) -> Result<(Shared<K>, Pass<Wiki<K>>), Memory>
    ensures { IfOk result (λ t. IsReady t.0 t.1) }
{
    match Shared::new(loaded(alloc, keeper)?) {
        Ok(both) => Ok(both),
        Err((wiki, memory)) => {
            let _keeper = wiki.release();
            Err(memory)
        }
    }
}

/// A session by a reader with this pass, which comes back, and a worker with this gate.
pub fn served_by<K: Keeper, R: Wait, L: Link, G: Gate>(
    rt: &R,
    alloc: Global,
    shared: &Shared<K>,
    pass: Pass<Wiki<K>>,
    gate: G,
    link: &mut L,
) -> (Pass<Wiki<K>>, Option<SessionReport>)
    requires { IsReady shared.now pass }
    ensures { IsReady shared.now result.0 }
{
    match Reader::new(alloc, pass) {
        Ok(reader) => {
            let mut worker = Worker { reader, gate };
            let mut clock = ListClock::new(Vec::new(alloc));
            let report = serve_session(shared, rt, &mut worker, link, &mut clock);
            (worker.reader.into_pass(), Some(report))
        }
        Err((pass, _)) => (pass, None),
    }
}

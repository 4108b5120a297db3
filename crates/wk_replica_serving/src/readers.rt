//! Who serves the connections of a door from a replica.
ghost use Rattle.std.specs.Prelude.{◌≡◌, All, IfOk, max, vec_len};
ghost use Rattle.wk_replica_reads.specs.Looks.{IsFree};

use std::alloc::Global;
use std::sync::Wait;
use std::sync::atomic::{AtomicBool, Ordering};
use wk_crew::{Crew, Link};
use wk_expand::Trees;
use wk_memory::Memory;
use wk_replica_reads::{NoGate, Pass, Replica, Turn, serve_reads};

/// Of how many texts a reader, or who takes the lines, keeps the trees.
const MOST_TREES: usize = 64;

/// Who serves one connection after the other from a shared replica.
#[derive(Drop)]
pub struct Reader {
    /// What it has seen of the replica.
    pub pass: Pass<Replica>,
    /// Texts that it has parsed.
    pub trees: Trees,
}

/// What readers share: the replica, and whether no more connections are served.
#[derive(Drop)]
pub struct ReadCrew<'a> {
    pub shared: &'a Turn<Replica>,
    pub stopped: &'a AtomicBool,
}

/// Serves a connection to its end. It waits.
fn serve_link<L: Link, R: Wait>(shared: &Turn<Replica>, rt: &R, reader: &mut Reader, link: &mut L)
    requires { IsFree shared.now reader.old.pass }
    ensures { IsFree shared.now reader.new.pass }
{
    let mut gate = NoGate;
    let _report = serve_reads(
        rt,
        shared,
        &mut reader.pass,
        &mut reader.trees,
        link,
        &mut gate,
    );
}

impl<R: Wait> Crew<R, Reader> for ReadCrew<'_> {
    ghost use Rattle.wk_replica_reads.specs.Looks.{IsFree};

    ghost ready = { λ crew reader. IsFree crew.shared.now reader.pass };

    /// Whether lines of the feed may be taken yet, or the input is at its end.
    fn goes_on(&self, _rt: &R) -> bool {
        !self.stopped.load(Ordering::SeqCst)
    }

    /// Serves a connection to its end. It waits.
    fn serve<L: Link>(&self, rt: &R, reader: &mut Reader, link: &mut L) {
        serve_link(self.shared, rt, reader, link);
    }
}

/// A reader with a pass of its own, which has seen what `pass` has seen.
fn hire(alloc: Global, shared: &Turn<Replica>, pass: &mut Pass<Replica>) -> Result<Reader, Memory>
    requires { IsFree shared.now pass.old }
    ensures pass { pass.new ≡ pass.old }
    ensures free { IfOk result (λ r. IsFree shared.now r.pass) }
{
    let trees = Trees::new(alloc, MOST_TREES)?;
    Ok(Reader {
        pass: shared.split(pass)?,
        trees,
    })
}

/// So many readers, at least one.
fn hired(
    alloc: Global,
    shared: &Turn<Replica>,
    pass: &mut Pass<Replica>,
    count: u64,
) -> Result<Vec<Reader>, Memory>
    requires { IsFree shared.now pass.old }
    ensures pass { pass.new ≡ pass.old }
    ensures free { IfOk result (λ v. All (λ r. IsFree shared.now r.pass) v.items) }
    ensures number { IfOk result (λ v. vec_len v ≡ max 1 count) }
{
    let mut readers = Vec::new(alloc);
    'hiring: for _ in 0..count.max(1) {
        readers.push(hire(alloc, shared, pass)?)?;
    }
    Ok(readers)
}

/// So many readers, at least one, and the trees of who takes the lines.
pub fn hands(
    alloc: Global,
    shared: &Turn<Replica>,
    pass: &mut Pass<Replica>,
    count: u64,
) -> Result<(Vec<Reader>, Trees), Memory>
    requires { IsFree shared.now pass.old }
    ensures pass { pass.new ≡ pass.old }
    ensures free { IfOk result (λ h. All (λ r. IsFree shared.now r.pass) h.0.items) }
    ensures number { IfOk result (λ h. vec_len h.0 ≡ max 1 count) }
{
    let readers = hired(alloc, shared, pass, count)?;
    Ok((readers, Trees::new(alloc, MOST_TREES)?))
}

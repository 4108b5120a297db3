//! A connection whose peer is heard after it ended.
ghost use Rattle.std.specs.Prelude.{◌<◌, ◌≤◌, length, None};

use std::alloc::Global;
use std::sync::{Mutex, Wait};
use wk_base::{Failed, MemSource, Sink, Source};
use wk_link::Link;
use wk_memory::Memory;

/// A connection in memory that takes at most so many bytes at each write. What is sent goes to a list behind a lock; where
/// memory runs out it is lost. It tells nothing.
#[derive(Drop)]
pub struct HeardLink<'a, R: Wait> {
    rt: &'a R,
    source: MemSource,
    most: usize,
    heard: &'a Mutex<Vec<u8>>,
}

/// Reads once; nothing where the read fails.
fn read_some(source: &mut MemSource, room: &mut [u8]) -> usize
    requires { 0 < length room.old }
    ensures { result ≤ length room.old }
{
    match source.read(room) {
        Ok(n) => n,
        Err(Failed) => 0,
    }
}

impl<'a, R: Wait> HeardLink<'a, R> {
    /// A connection by which these bytes come.
    pub fn new(
        rt: &'a R,
        alloc: Global,
        bytes: &str,
        most: usize,
        heard: &'a Mutex<Vec<u8>>,
    ) -> Result<HeardLink<'a, R>, Memory> {
        let source = MemSource::new(bytes.as_bytes().to_vec(alloc)?, Vec::new(alloc));
        Ok(HeardLink {
            rt,
            source,
            most,
            heard,
        })
    }

    /// Takes the first bytes, at least one.
    fn take(&mut self, piece: &[u8]) -> usize
        requires { 0 < length piece.now }
        ensures some { 0 < result }
        ensures fits { result ≤ length piece.now }
    {
        let n = self.most.max(1).min(piece.len());
        let mut heard = self.heard.lock(self.rt);
        let _lost = heard.extend_from_slice(&piece[..n]);
        n
    }
}

impl<R: Wait> Source for HeardLink<'_, R> {
    ghost rest = { λ _. None };

    ghost faults = { λ _. 0 };

    fn read(&mut self, room: &mut [u8]) -> Result<usize, Failed> {
        Ok(read_some(&mut self.source, room))
    }
}

impl<R: Wait> Sink for HeardLink<'_, R> {
    ghost taken = { λ _. None };

    ghost faults = { λ _. 0 };

    fn write(&mut self, piece: &[u8]) -> Result<usize, Failed> {
        Ok(self.take(piece))
    }
}

impl<R: Wait> Link for HeardLink<'_, R> {
    fn receive(&mut self, room: &mut [u8]) -> Result<usize, Failed> {
        Ok(read_some(&mut self.source, room))
    }

    fn send(&mut self, piece: &[u8]) -> Result<usize, Failed> {
        Ok(self.take(piece))
    }
}

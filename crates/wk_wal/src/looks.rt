//! A look at a whole log.
ghost use Rattle.std.specs.Prelude.{◌≡◌, ◌≢◌};

use crate::frames::Frames;
use crate::head::number_at;
use crate::kinds::{LogKind, kind_of};
use std::alloc::Global;
use std::io::{self, Read};

/// What a look at a log tells.
#[derive(Clone, Copy)]
pub struct LogFound {
    /// What it is.
    pub kind: LogKind,
    /// The bytes of a page of its database, 0 where it is no log.
    pub page_size: u32,
    /// How many of its frames stand behind its last whole transaction, and were part of one ([`Frames::lost`]).
    pub lost: u64,
}

/// What of the frames is lost that follow the head of a log and have so many bytes.
fn lost_of<R: Read>(alloc: Global, log: &mut R, len: u64, head: &[u8; 32]) -> io::Result<u64> {
    let size = 24 + number_at(head, 8) as u64;
    let mut room = vec![in alloc; 0; size as usize]?;
    let mut frames = Frames::new(head);
    for _ in 0..len / size {
        log.read_exact(&mut room)?;
        frames = frames.with(head, &room);
    }
    let rest = (len % size) as usize;
    if rest >= 24 {
        log.read_exact(&mut room[..rest])?;
        frames = frames.with(head, &room[..rest]);
    }
    Ok(frames.lost())
}

/// Reads a file of so many bytes from its beginning, as a log. A file that was made shorter meanwhile is an error.
pub fn look<R: Read>(alloc: Global, log: &mut R, len: u64) -> io::Result<LogFound> {
    let mut head = [0; 32];
    log.read_exact(&mut head[..len.min(32) as usize])?;
    let kind = kind_of(len, &head);
    if kind != LogKind::Log {
        return Ok(LogFound {
            kind,
            page_size: 0,
            lost: 0,
        });
    }
    Ok(LogFound {
        kind,
        page_size: number_at(&head, 8),
        lost: lost_of(alloc, log, len - 32, &head)?,
    })
}

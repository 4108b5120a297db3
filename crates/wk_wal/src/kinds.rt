//! What a file is, as a log.
ghost use Rattle.std.specs.Prelude.{◌≡◌, ◌≢◌, ◌↔◌, ◌≤◌, IsTrue, slice_index};
ghost use Rattle.sqlite_wal.specs.Format.{be32, IsSigned};

use crate::head::{is_signed, number_at};

/// The version of the format (own words: the one that there is).
const VERSION: u32 = 3007000;

/// How many times a log was begun anew, in the first log of a new database.
const BEGUN: u32 = 0xffff_ffff;

/// The longest log that has no frame: its head, and the first nine bytes behind it.
const NO_FRAME: u64 = 41;

/// What a file is, as a log.
#[derive(Clone, Copy, PartialEq, Eq)]
pub enum LogKind {
    /// It is missing, or has no byte.
    Empty,
    /// What is left where the making of a database was stopped before its first page was written. It has no frame.
    Begun,
    /// What is left where a log was stopped while it was begun anew: what its frames had stands in the database.
    Stopped,
    /// A log, with its head.
    Log,
    /// No log.
    Other,
}

/// Whether a page of SQLite can have so many bytes.
fn is_page_size(size: u32) -> bool {
    matches!(
        size,
        512 | 1024 | 2048 | 4096 | 8192 | 16384 | 32768 | 65536
    )
}

/// What a file of so many bytes is that begins with these; where it has fewer than 32, zeros follow.
pub fn kind_of(len: u64, head: &[u8; 32]) -> LogKind
    ensures empty { (result ≡ LogKind.Empty) ↔ (len ≡ 0) }
    ensures signed { result ≡ LogKind.Log → (32 ≤ len) × IsSigned head.now × (be32 head.now 4 ≡ 3007000) }
    ensures stopped { result ≡ LogKind.Stopped → slice_index head.now 0 ≡ 0 }
    ensures begun { result ≡ LogKind.Begun → len ≤ 41 }
{
    if len == 0 {
        return LogKind::Empty;
    }
    if head[0] == 0 {
        return kind_of_stopped(len, head);
    }
    if len < 32 || !is_signed(head) {
        return LogKind::Other;
    }
    if number_at(head, 4) != VERSION || !is_page_size(number_at(head, 8)) {
        return LogKind::Other;
    }
    if len <= NO_FRAME && number_at(head, 12) == BEGUN {
        return LogKind::Begun;
    }
    LogKind::Log
}

/// What a file is that begins with a zero. That one is written in the place of the first byte before the others are, and the
/// right one at last.
fn kind_of_stopped(len: u64, head: &[u8; 32]) -> LogKind
    ensures kinds { (result ≡ LogKind.Begun) ↔ (len ≤ 41) }
    ensures no_log { result ≢ LogKind.Log }
    ensures some { result ≢ LogKind.Empty }
{
    if len <= NO_FRAME {
        return LogKind::Begun;
    }
    if head[1] != 0x7f || head[2] != 0x06 || (head[3] != 0x82 && head[3] != 0x83) {
        return LogKind::Other;
    }
    LogKind::Stopped
}

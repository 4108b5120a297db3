//! The frames of a log, and what stands behind its last whole transaction.
ghost use Rattle.std.specs.Prelude.{◌≡◌, ◌≢◌, ◌≤◌, ◌+◌, false, true, length};
ghost use Rattle.wk_wal.specs.Logs.{Ends};

use crate::head::{Sum, is_frame, number_at, sum_at};

/// What was seen of the frames of a log so far.
#[derive(Clone, Copy)]
pub struct Frames {
    sum: Sum,
    fits: bool,
    behind: u64,
    ours: u64,
    commits: u64,
    is_open: bool,
}

/// Behind a whole transaction that ends with these sums.
fn behind_whole(sum: Sum) -> Frames
    ensures { result ≡ record { sum = sum; fits = true; behind = 0; ours = 0; commits = 0; is_open = false } }
{
    Frames {
        sum,
        fits: true,
        behind: 0,
        ours: 0,
        commits: 0,
        is_open: false,
    }
}

impl Frames {
    /// Before the first frame of the log with this head.
    pub fn new(head: &[u8; 32]) -> Frames
        ensures none { result.ours ≡ 0 }
    {
        behind_whole(sum_at(head, 24))
    }

    /// With one frame more.
    pub fn with(self, head: &[u8; 32], frame: &[u8]) -> Frames
        requires { 24 ≤ length frame.now }
        ensures whole { Ends self head.now frame.now → result.ours ≡ 0 }
    {
        if frame[8..16] != head[16..24] {
            return Frames {
                fits: false,
                behind: self.behind.saturating_add(1),
                ..self
            };
        }
        let commits = number_at(frame, 4) != 0;
        let fits = self.fits
            && frame.len() == 24 + number_at(head, 8) as usize
            && is_frame(head, self.sum, frame);
        if fits && commits {
            return behind_whole(sum_at(frame, 16));
        }
        Frames {
            sum: sum_at(frame, 16),
            fits,
            behind: self.behind.saturating_add(1),
            ours: self.ours.saturating_add(1),
            commits: self.commits.saturating_add(commits as u64),
            is_open: self.is_open || self.behind == 0,
        }
    }

    /// How many frames of this log stand behind its last whole transaction and were part of one that was. A transaction that
    /// was stopped while it was written isn't counted: the first of its frames has other salts until all are on the disk,
    /// and at most one of them ends it.
    pub fn lost(&self) -> u64
        ensures { self.now.ours ≡ 0 → result ≡ 0 }
    {
        if self.is_open || self.commits > 1 {
            self.ours
        } else {
            0
        }
    }
}

//! The runs of an output.
ghost use Rattle.std.specs.Prelude.{◌≡◌, ℕ, ◌<◌, ◌≤◌, List};
ghost use Rattle.std.specs.Iterator.{YieldsFirstBy, YieldsLastBy, item_count};

use crate::run::Run;
use std::marker::Model;

/// The runs of an output, from first to last: each a text, and whether its bytes are sealed or else plain. No run is
/// empty, and two runs one after the other differ in their marks.
#[derive(Drop)]
pub struct Runs<'a> {
    pub(crate) text: &'a str,
    // no list is written where all of the text is plain
    pub(crate) runs: &'a [Run],
}

impl<'a> Model for Runs<'a> {
    ghost use Rattle.std.specs.Prelude.{ℕ, Bool, List, length};
    ghost use Rattle.wk_out.specs.Kept.{cut, listed, IsKept};

    ghost Value = { List (List ℕ × Bool) };

    ghost view = { λ r. cut r.text.now (listed (length r.text.now) r.runs.now) };

    ghost invariant = { λ r. IsKept r.text.now (listed (length r.text.now) r.runs.now) };
}

impl<'a> Iterator for Runs<'a> {
    type Item = (&'a str, bool);

    ghost next_gives = { YieldsFirstBy (λ x. (x.0.now, x.1)) (λ s. s) };

    ghost remaining = { item_count (λ s. s) };

    fn next(&mut self) -> Option<(&'a str, bool)> {
        let Some((run, runs)) = self.runs.split_first() else {
            if self.text.is_empty() {
                return None;
            }
            let text = self.text;
            self.text = "";
            return Some((text, false));
        };
        let (text, rest) = self.text.split_at(run.len);
        self.text = rest;
        self.runs = runs;
        Some((text, run.sealed))
    }
}

impl<'a> DoubleEndedIterator for Runs<'a> {
    ghost next_back_gives = { YieldsLastBy (λ x. (x.0.now, x.1)) (λ s. s) };

    fn next_back(&mut self) -> Option<(&'a str, bool)> {
        let Some((run, runs)) = self.runs.split_last() else {
            if self.text.is_empty() {
                return None;
            }
            let text = self.text;
            self.text = "";
            return Some((text, false));
        };
        let (rest, text) = self.text.split_at(self.text.len() - run.len);
        self.text = rest;
        self.runs = runs;
        Some((text, run.sealed))
    }
}

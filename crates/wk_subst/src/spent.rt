//! What a substitution has cost, and its limits.

/// The nodes that a substitution costs at most (own).
const MOST_NODES: u64 = 1_000_000;

/// The bytes that its calls give at most in all (own).
const MOST_BYTES: u64 = 2_097_152;

/// What a substitution has cost: nodes, with what was charged for texts and values, and the bytes of what its calls gave.
#[derive(Clone, Copy)]
pub struct Spent {
    pub nodes: u64,
    pub bytes: u64,
}

impl Spent {
    ghost use Rattle.std.specs.Bool.{OnFalse, OnTrue};
    ghost use Rattle.wk_subst.specs.Budget.{IsBeyond, IsCharged, IsCounted, IsTooLong};

    /// Charges so many nodes. Where the budget hasn't so many it is spent, and the answer is false.
    pub fn charge(&mut self, n: u64) -> bool
        ensures within { OnTrue result (IsCharged self.old n self.new) }
        ensures beyond { OnFalse result (IsBeyond self.old n self.new) }
    {
        match self.nodes.checked_add(n) {
            Some(nodes) if nodes <= MOST_NODES => {
                self.nodes = nodes;
                true
            }
            _ => {
                self.nodes = MOST_NODES;
                false
            }
        }
    }

    /// Counts so many bytes that a call gives, unless calls would give too many in all.
    pub fn count(&mut self, n: usize) -> bool
        ensures within { OnTrue result (IsCounted self.old n self.new) }
        ensures beyond { OnFalse result (IsTooLong self.old n self.new) }
    {
        match self.bytes.checked_add(n as u64) {
            Some(bytes) if bytes <= MOST_BYTES => {
                self.bytes = bytes;
                true
            }
            _ => false,
        }
    }
}

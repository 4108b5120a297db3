//! What is called between two reads of a draft that is made without the turn.

/// A gate: it is passed between two reads of a draft that is made while others may have the wiki (own). A program hands in
/// `NoGate`; a test hands in one that counts, or that waits for what another thread does.
///
/// Nothing is promised of a pass but that it returns.
pub trait Gate: Drop {
    /// Passes the gate.
    fn pass(&mut self);
}

/// A gate that does nothing.
#[derive(Clone, Copy, PartialEq, Eq)]
pub struct NoGate;

impl Gate for NoGate {
    fn pass(&mut self) {}
}

//! A worker.

use crate::reader::Reader;
use wk_base::Gate;
use wk_core::Keeper;

/// Who works on a shared wiki: a reader, and the gate that is passed between two reads of its drafts (own).
#[derive(Drop)]
pub struct Worker<K: Keeper, G: Gate> {
    /// What it has seen and read.
    pub reader: Reader<K>,
    /// Its gate.
    pub gate: G,
}

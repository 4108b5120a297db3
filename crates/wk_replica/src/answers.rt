//! What a replica answers.
ghost use Rattle.std.specs.Prelude.{◌≡◌, ℕ, false, IfOk, OnOk, length};
ghost use Rattle.serde_json.specs.View.{view};
ghost use Rattle.wk_request.specs.Asked.{request_asked};
ghost use Rattle.wk_replica.specs.Answers.{read_only, replica_reply};

use crate::replica::Replica;
use serde_json::Value;
use std::alloc::Global;
use wk_answer::answer;
use wk_expand::Trees;
use wk_memory::Memory;
use wk_replies::error_reply;
use wk_request::{Asked, Request};

/// The error of each save, at a point of the journal.
fn read_only(alloc: Global, point: u64) -> Result<Value, Memory>
    ensures { IfOk result (λ v. view v ≡ (read_only point).value) }
{
    let info = "This wiki is read only.";
    error_reply(alloc, "readonly", info, point)
}

impl Replica {
    /// What is answered to a request, in the state behind the events that were taken and at their number as the point (MediaWiki's
    /// API:Main page and the page of each module). An edit and a deletion are answered that the wiki is read only, whatever the
    /// least point is that they ask for. Before the line of the start it answers as an empty wiki at point 0. `trees` keeps parsed
    /// texts.
    ///
    /// `Memory` may come, and comes always where the replica is stopped.
    pub fn answer(&self, request: &Request, trees: &mut Trees) -> Result<Value, Memory>
        ensures value { (moment : ℕ) → IfOk result (λ v. view v
            ≡ (replica_reply self.now.state (length self.now.journal) moment (request_asked request.now)).value) }
        ensures going { OnOk result (self.now.stopped ≡ false) }
    {
        if self.stopped {
            return Err(Memory);
        }
        match request.ask.asked() {
            Asked::Save(_) => read_only(self.allocator(), self.taken()),
            _ => answer(&self.wiki, request, trees),
        }
    }
}

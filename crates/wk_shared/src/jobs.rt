//! Refresh jobs and fan jobs.
ghost use Rattle.std.specs.Prelude.{◌≡◌, IfOk, IfSome};
ghost use Rattle.wk_shared.specs.Answers.{BackTold, ClaimTold, FanTold, FinishTold};
ghost use Rattle.wk_shared.specs.Calls.{HasSeen, HoldsDraft, HoldsTicket, IsFree, IsMadeAt, MayFail};

use crate::shared::Shared;
use std::sync::Wait;
use wk_core::{ClaimRefusal, Draft, FanRefusal, Fanned, Finished, Keeper, Ticket, Wiki};
use wk_turn::Pass;

impl<K: Keeper> Shared<K> {
    /// Claims the first refresh job that is queued, and tells the point. The pass holds the ticket, which must come in
    /// again by `finish_job` or `give_back`. Answers and refusals are those of `Wiki::claim`. It waits.
    pub fn claim<R: Wait>(
        &self,
        rt: &R,
        pass: &mut Pass<Wiki<K>>,
    ) -> (Result<Option<Ticket>, ClaimRefusal>, u64)
        requires { IsFree self.now pass.old }
        ensures pass { HasSeen self.now pass.old pass.new result.1 }
        ensures call { IsMadeAt self.now.start pass.old pass.new (ClaimTold result.0) }
        ensures ticket { IfOk result.0 (λ ticket. IfSome ticket (HoldsTicket self.now.start pass.new)) }
    {
        let mut held = self.take_wiki(rt, pass);
        let answer = held.value.claim();
        let point = self.give_wiki(pass, held);
        (answer, point)
    }

    /// Finishes the refresh of a ticket that the pass holds, with a draft that is fit for it, and tells the point. Answers
    /// are those of `Wiki::finish`: one event is made, whatever the answer is. It waits.
    pub fn finish_job<R: Wait>(
        &self,
        rt: &R,
        pass: &mut Pass<Wiki<K>>,
        ticket: Ticket,
        draft: Draft,
    ) -> (Finished, u64)
        requires free { IsFree self.now pass.old }
        requires ticket { HoldsTicket self.now.start pass.old ticket }
        requires draft { HoldsDraft self.now.start pass.old ticket draft }
        ensures pass { HasSeen self.now pass.old pass.new result.1 }
        ensures call { IsMadeAt self.now.start pass.old pass.new (FinishTold ticket.ticket draft.reads result.0) }
        ensures fault { result.0 ≡ Finished.StoreFault → MayFail self.now.start }
    {
        let mut held = self.take_wiki(rt, pass);
        let answer = held.value.finish(ticket, draft);
        let point = self.give_wiki(pass, held);
        (answer, point)
    }

    /// Gives back a ticket that the pass holds, and tells the point: its job is queued again, behind all others. It takes
    /// no memory. It waits.
    pub fn give_back<R: Wait>(&self, rt: &R, pass: &mut Pass<Wiki<K>>, ticket: Ticket) -> u64
        requires free { IsFree self.now pass.old }
        requires ticket { HoldsTicket self.now.start pass.old ticket }
        ensures pass { HasSeen self.now pass.old pass.new result }
        ensures call { IsMadeAt self.now.start pass.old pass.new (BackTold ticket.ticket) }
    {
        let mut held = self.take_wiki(rt, pass);
        held.value.give_back(ticket);
        self.give_wiki(pass, held)
    }

    /// Serves the first fan job, and tells the point. Answers and refusals are those of `Wiki::fan`. It waits.
    pub fn fan<R: Wait>(
        &self,
        rt: &R,
        pass: &mut Pass<Wiki<K>>,
    ) -> (Result<Option<Fanned>, FanRefusal>, u64)
        requires { IsFree self.now pass.old }
        ensures pass { HasSeen self.now pass.old pass.new result.1 }
        ensures call { IsMadeAt self.now.start pass.old pass.new (FanTold result.0) }
        ensures fault { result.0 ≡ Err FanRefusal.StoreFault → MayFail self.now.start }
    {
        let mut held = self.take_wiki(rt, pass);
        let answer = held.value.fan();
        let point = self.give_wiki(pass, held);
        (answer, point)
    }
}

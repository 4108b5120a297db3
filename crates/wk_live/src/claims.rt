//! Claims of refresh jobs.
ghost use Rattle.std.specs.Prelude.{◌≡◌, true};
ghost use Rattle.wk_wiki_rules.specs.Jobs.{claimed_by, first_queued, given_back, has_claimed, refresh_dropped};
ghost use Rattle.wk_wiki_rules.specs.Events.{with_jobs};

use crate::live::Live;

impl Live {
    /// Claims the first refresh job that is queued, by the ticket of this number, and tells its page; `None` exactly
    /// where no refresh job is queued. Takes no memory.
    pub fn claim(&mut self, ticket: u64) -> Option<u32>
        ensures page { result ≡ first_queued self.old.state.jobs }
        ensures state { self.new.state ≡ with_jobs self.old.state (claimed_by self.old.state.jobs ticket) }
        ensures room { self.new.room ≡ self.old.room }
    {
        self.jobs.claim_first(ticket)
    }

    /// Queues the page's refresh job, which is claimed, at the end. Takes no memory.
    pub fn back(&mut self, page: u32)
        requires { has_claimed self.old.state.jobs page ≡ true }
        ensures state { self.new.state ≡ with_jobs self.old.state (given_back self.old.state.jobs page) }
        ensures room { self.new.room ≡ self.old.room }
    {
        self.jobs.back(page);
    }

    /// Takes away the page's refresh job, which is claimed. Takes no memory.
    pub fn drop_refresh(&mut self, page: u32)
        requires { has_claimed self.old.state.jobs page ≡ true }
        ensures state { self.new.state ≡ with_jobs self.old.state (refresh_dropped self.old.state.jobs page) }
        ensures room { self.new.room ≡ self.old.room }
    {
        self.jobs.drop_refresh(page);
    }
}

//! Claims of refresh jobs, and tickets that are given back.
ghost use Rattle.std.specs.Prelude.{◌≡◌, ◌+◌, ◌≤◌, None, Some, IsSome, length, true, false, IfOk, IfErr, IfSome, IfNone, OnErr, OnOk};
ghost use Rattle.wk_wiki_rules.specs.Jobs.{first_queued, page_held_by};
ghost use Rattle.std.specs.Option.{option_map};
ghost use Rattle.wk_wiki_rules.specs.States.{title_at};
ghost use Rattle.wk_wiki_rules.specs.Events.{Back, Claim};
ghost use Rattle.wk_wiki_rules.specs.Claims.{claim_outcome};
ghost use Rattle.wk_wiki_rules.specs.Room.{is_claim_refused};
ghost use Rattle.wk_life_laws.specs.Lives.{journal_of};
ghost use Rattle.wk_life_laws.specs.Next.{IsNext};
ghost use Rattle.wk_core.specs.Seen.{is_claim_refused_now};
ghost use Rattle.wk_core.specs.Steps.{HasMade};
ghost use Rattle.wk_core.specs.Tickets.{IsOut, ticket_out};

use crate::life::Life;
use crate::outcomes::ClaimRefusal;
use crate::ticket::Ticket;
use crate::wiki::Wiki;
use wk_keeper::Keeper;
use wk_memory::Memory;
use wk_title::Title;
use wk_wiki_rules::Entry;

impl Life {
    /// The title of the page whose refresh job is the first that is queued; `None` exactly where none is.
    fn title_to_claim(&self) -> Result<Option<Title>, Memory>
        ensures { IfOk result (λ title. title ≡ option_map (title_at self.now.life.state.history) (first_queued self.now.life.state.jobs)) }
    {
        let Some(page) = self.live.jobs().first_queued() else {
            return Ok(None);
        };
        let Some((title, _)) = self.live.revs().page_at(page) else {
            unreachable!()
        };
        Ok(Some(title.share()?))
    }

    /// Claims the first refresh job that is queued, which there is, and gives the number of its ticket. Takes no memory.
    fn claim(&mut self) -> u64
        requires queued { IsSome (first_queued self.old.life.state.jobs) }
        requires free { is_claim_refused self.old.life.limits self.old.life.state (length (journal_of self.old.life)) ≡ false }
        requires spare { 2 ≤ self.old.spare }
        ensures next { IsNext self.old.life Claim self.new.life }
        ensures ticket { result ≡ length (journal_of self.old.life) + 1 }
    {
        let ticket = self.point() + 1;
        self.live.claim(ticket);
        self.entries.push_reserved(Entry::Claim);
        self.spare -= 2;
        ticket
    }

    /// The ticket that is out with this number; `None` exactly where no refresh job is claimed by it.
    fn ticket(&self, number: u64) -> Result<Option<Ticket>, Memory>
        ensures { IfOk result (λ ticket. ticket ≡ ticket_out self.now.life.state number) }
    {
        let Some(page) = self.live.jobs().page_held(number) else {
            return Ok(None);
        };
        let Some((title, _)) = self.live.revs().page_at(page) else {
            unreachable!()
        };
        Ok(Some(Ticket::new(number, title.share()?)))
    }

    /// Gives the job of this ticket, which is out, back: it is queued again, behind all others. Takes no memory.
    pub fn give_back(&mut self, ticket: u64)
        requires { IsSome (page_held_by self.old.life.state.jobs ticket) }
        ensures { IsNext self.old.life (Back ticket) self.new.life }
    {
        let Some(page) = self.live.jobs().page_held(ticket) else {
            unreachable!()
        };
        self.live.back(page);
        self.entries.push_reserved(Entry::Back(ticket));
    }
}

impl<K: Keeper> Wiki<K> {
    /// Claims the first refresh job that is queued. The ticket must come in again, by `finish` or `give_back`.
    ///
    /// `None` exactly where no refresh job is queued. `JournalFull` exactly where one is, and the journal's length, the
    /// tickets that are out and two more are above the limit: the claim makes the room of its own event, and of the one
    /// by which its ticket comes in. `Memory` may come. Where no ticket comes the wiki is as before.
    pub fn claim(&mut self) -> Result<Option<Ticket>, ClaimRefusal>
        ensures claimed { IfOk result (λ ticket. ticket ≡ claim_outcome self.old.state (length self.old.journal)) }
        ensures event { IfOk result (λ ticket. IfSome ticket (λ _. HasMade self.old self.new Claim)) }
        ensures out { IfOk result (λ ticket. IfSome ticket (λ out. IsOut self.new.state out)) }
        ensures none { IfOk result (λ ticket. IfNone ticket (self.new ≡ self.old)) }
        ensures room { IfOk result (λ ticket. IfSome ticket (λ _. is_claim_refused_now self.old ≡ false)) }
        ensures full { result ≡ Err ClaimRefusal.JournalFull → IsSome (first_queued self.old.state.jobs) × (is_claim_refused_now self.old ≡ true) }
        ensures refused { OnErr result (self.new ≡ self.old) }
        ensures keeper { self.new.keeper ≡ self.old.keeper }
    {
        let Some(title) = self.life.title_to_claim()? else {
            return Ok(None);
        };
        if self.life.is_full_for_claim() {
            return Err(ClaimRefusal::JournalFull);
        }
        self.life.make_room(2)?;
        self.life.facts();
        let number = self.life.claim();
        Ok(Some(Ticket::new(number, title)))
    }

    /// The ticket that is out with this number, for whoever let its value go; `None` exactly where no refresh job is claimed
    /// by this number. It is no event.
    pub fn ticket(&self, number: u64) -> Result<Option<Ticket>, Memory>
        ensures given { IfOk result (λ ticket. ticket ≡ ticket_out self.now.state number) }
        ensures out { IfOk result (λ ticket. IfSome ticket (λ out. IsOut self.now.state out)) }
    {
        self.life.ticket(number)
    }

    /// Gives back a ticket that is out: its job is queued again, behind all others. It is always Ok, and takes no memory.
    pub fn give_back(&mut self, ticket: Ticket)
        requires out { IsOut self.old.state ticket }
        ensures event { HasMade self.old self.new (Back ticket.ticket) }
        ensures keeper { self.new.keeper ≡ self.old.keeper }
    {
        self.life.facts();
        self.life.give_back(ticket.let_go());
    }
}

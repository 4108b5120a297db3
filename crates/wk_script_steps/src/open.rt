//! A ticket that is out, and the draft of its page so far.
ghost use Rattle.std.specs.Prelude.{◌≡◌, ◌∷◌, ◌++◌, [], None, Some, IfOk, IsTrue, OnErr, OnOk};
ghost use Rattle.wk_view_rules.specs.Worlds.{Seen as Answers, ask, fits_kind, of_seen};
ghost use Rattle.wk_expand.specs.Answers.{answer_of, read_with};
ghost use Rattle.wk_expand.specs.Runs.{IsRan};
ghost use Rattle.wk_expand.specs.Steps.{IsStep, IsUnseen};
ghost use Rattle.wk_script_steps.specs.Drafts.{IsReady, begun};

use std::alloc::Global;
use std::marker::Model;
use wk_core::Ticket;
use wk_expand::{Answer, Kind, Machine, Ran, Root, Seen, Step, Trees, longer_seens_agree};
use wk_memory::Memory;
use wk_title::Title;

/// A ticket that is out, with what was read for its page so far. Contracts see its number, its title and the reads. It must
/// come in again, as the ticket itself: it can't be let go.
///
/// The draft goes on where it stopped, as long as no run of it wants for memory or is done; then it begins anew.
pub struct OpenTicket {
    ticket: Ticket,
    seen: Seen,
    machine: Option<Machine>,
}

impl Model for OpenTicket {
    ghost use Rattle.wk_script_rules.specs.WikiScripts.{TicketDraft};
    ghost use Rattle.wk_script_steps.specs.Drafts.{IsReady};

    ghost Value = { TicketDraft };

    ghost view = { λ t. record { ticket = t.ticket.ticket; title = t.ticket.title; seen = t.seen } };

    ghost invariant = { λ t. IsReady t.ticket.title t.seen t.machine };
}

/// The machine that a draft goes on with, or one that begins.
fn ready(alloc: Global, title: &Title, machine: Option<Machine>) -> Result<Machine, Memory>
    ensures { (seen : Answers) → IsReady title.now seen machine → IfOk result (λ m. IsReady title.now seen (Some m)) }
{
    match machine {
        Some(machine) => Ok(machine),
        None => {
            let machine = Machine::new(alloc, title, &Root::Page)?;
            Ok(machine)
        }
    }
}

/// Goes on with the draft of a page's own text as far as what was seen allows.
fn go_on(
    alloc: Global,
    title: &Title,
    seen: &Seen,
    machine: Option<Machine>,
    trees: &mut Trees,
) -> Result<Ran, Memory>
    requires { IsReady title.now seen.now machine }
    ensures { IfOk result (IsRan (record { page = title.now; given = None; reads = [] }) seen.now) }
{
    let machine = ready(alloc, title, machine)?;
    match machine.run(seen, trees) {
        Ok(ran) => Ok(ran),
        Err((_machine, memory)) => Err(memory),
    }
}

impl OpenTicket {
    /// A ticket for which nothing was read yet. Takes no memory.
    pub fn new(alloc: Global, ticket: Ticket) -> OpenTicket
        ensures { result ≡ begun ticket }
    {
        OpenTicket {
            ticket,
            seen: Seen::new(alloc),
            machine: None,
        }
    }

    /// The number of the ticket. Takes no memory.
    pub fn number(&self) -> u64
        ensures { result ≡ self.now.ticket }
    {
        self.ticket.number()
    }

    /// The title of the ticket's page. Takes no memory.
    pub fn title(&self) -> &Title
        ensures { result.now ≡ self.now.title }
    {
        self.ticket.title()
    }

    /// What the page's draft comes to by what was read so far: Done with the draft, or the pair that it needs next.
    /// `trees` keeps parsed texts.
    pub fn step(&mut self, alloc: Global, trees: &mut Trees) -> Result<Step, Memory>
        ensures same { self.new ≡ self.old }
        ensures step { IfOk result (IsStep self.old.title Root.Page self.old.seen) }
        ensures unseen { IfOk result (IsUnseen self.old.seen) }
    {
        match go_on(
            alloc,
            self.ticket.title(),
            &self.seen,
            self.machine.take(),
            trees,
        ) {
            Ok(Ran::Done(draft)) => Ok(Step::Done(draft)),
            Ok(Ran::Needs(title, kind, machine)) => {
                self.machine = Some(machine);
                Ok(Step::Needs(title, kind))
            }
            Err(memory) => Err(memory),
        }
    }

    /// Keeps an answer behind those that there are. After an `Err` nothing is kept.
    pub fn add(&mut self, title: Title, kind: Kind, answer: Answer) -> Result<(), Memory>
        requires absent { ask (of_seen self.old.seen) title kind ≡ None }
        requires formed { IsTrue (fits_kind kind (answer_of answer)) }
        ensures ok { OnOk result (self.new ≡ record self.old { seen = self.old.seen ++ read_with title kind (answer_of answer) ∷ [] }) }
        ensures err { OnErr result (self.new ≡ self.old) }
    {
        longer_seens_agree();
        self.seen.add(title, kind, answer)
    }

    /// The ticket, which comes in. Takes no memory.
    pub fn into_ticket(self) -> Ticket
        ensures { result ≡ record { ticket = self.ticket; title = self.title } }
    {
        let OpenTicket {
            ticket,
            seen: _,
            machine: _,
        } = self;
        ticket
    }
}

//! Tickets of claimed jobs.
ghost use Rattle.std.specs.Prelude.{◌≡◌};

use std::marker::Model;
use wk_title::Title;

/// A refresh job that is claimed. It must come in again, by `Wiki::finish` or `Wiki::give_back`: its value isn't dropped
/// unseen. Who lets it go keeps its number, by which `Wiki::ticket` gives it again. Contracts see its number and the title.
pub struct Ticket {
    number: u64,
    title: Title,
}

impl Model for Ticket {
    ghost use Rattle.wk_wiki_rules.specs.Claims.{ClaimOutcome};

    ghost Value = { ClaimOutcome };

    ghost view = { λ t. record { ticket = t.number; title = t.title } };
}

impl Ticket {
    /// A ticket. Takes no memory.
    pub(crate) fn new(number: u64, title: Title) -> Ticket
        ensures { result ≡ record { ticket = number; title = title } }
    {
        Ticket { number, title }
    }

    /// The point of its claim: the number of the claim's event, from 1. Takes no memory.
    pub fn number(&self) -> u64
        ensures { result ≡ self.now.ticket }
    {
        self.number
    }

    /// The title of the page whose link rows are to be computed anew. Takes no memory.
    pub fn title(&self) -> &Title
        ensures { result.now ≡ self.now.title }
    {
        &self.title
    }

    /// Lets the value of the ticket go, and gives its number. The job stays claimed, and the ticket is out until it comes
    /// in. Takes no memory.
    pub fn let_go(self) -> u64
        ensures { result ≡ self.ticket }
    {
        let Ticket { number, title: _ } = self;
        number
    }
}

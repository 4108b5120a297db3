//! Taking the lines of a feed.
ghost use Rattle.std.specs.Prelude.{◌≡◌, ◌+◌, false, None, Some, IfOk};
ghost use Rattle.wk_page_rules.specs.Verdict.{full_limits};
ghost use Rattle.wk_view_rules.specs.Worlds.{Agrees, of_world};
ghost use Rattle.wk_wiki_rules.specs.States.{world_of};
ghost use Rattle.wk_wiki_rules.specs.Claims.{ClaimOutcome};
ghost use Rattle.wk_core.specs.Tickets.{ticket_out};
ghost use Rattle.wk_feed_rules.specs.Lines.{done, row as row_line, start};
ghost use Rattle.wk_feed_lines.specs.Said.{event_line_of, line_of, row_of};
ghost use Rattle.wk_replica.specs.Followed.{IsFollowed, IsToldOf};
ghost use Rattle.wk_replica.specs.Replicas.{lines_taken};
ghost use Rattle.wk_replica.specs.Taken.{IsBadLine, IsTaken, IsTakenLine};

use crate::drafting::{follow_done, follow_drafted};
use crate::events::{EventRefusal, follow_back, follow_claim, follow_fan, follow_save};
use crate::loading::loaded;
use crate::places::is_behind;
use crate::refusal::TakeRefusal;
use crate::replica::Replica;
use wk_core::{Draft, Wiki};
use wk_expand::Trees;
use wk_feed_lines::{EventLine, FeedLine, FeedRow, read_line};
use wk_keeper::MemKeeper;
use wk_memory::Memory;

/// The number of the line behind so many and so many. No feed has 2^64 lines.
fn line_behind(first: u64, more: u64) -> Result<u64, Memory>
    ensures { IfOk result (λ number. number ≡ first + more + 1) }
{
    let Some(lines) = first.checked_add(more) else {
        return Err(Memory);
    };
    let Some(number) = lines.checked_add(1) else {
        return Err(Memory);
    };
    Ok(number)
}

/// Puts a value in the place of another, which is let go.
fn put<T: Drop>(place: &mut T, value: T)
    ensures { place.new ≡ value }
{
    *place = value;
}

/// Makes the event of a line.
fn follow(
    wiki: &mut Wiki<MemKeeper>,
    event: EventLine,
    trees: &mut Trees,
) -> Result<(), EventRefusal>
    requires limits { wiki.old.start.limits ≡ full_limits }
    requires unsealed { wiki.old.start.sealed ≡ None }
    ensures { IsFollowed wiki.old (event_line_of event) wiki.new result }
{
    match event {
        EventLine::Save {
            title,
            text,
            moment,
        } => follow_save(wiki, title, text, moment),
        EventLine::Claim => follow_claim(wiki),
        EventLine::Done(ticket) => follow_done(wiki, ticket, trees),
        EventLine::Back(ticket) => follow_back(wiki, ticket),
        EventLine::Fan => follow_fan(wiki),
    }
}

/// What is told of the event of the line with this number. A replica in whose wiki another event was made is stopped.
fn told(
    followed: Result<(), EventRefusal>,
    number: u64,
    stopped: &mut bool,
) -> Result<(), TakeRefusal>
    ensures { IsToldOf followed number stopped.old stopped.new result }
{
    match followed {
        Ok(()) => Ok(()),
        Err(EventRefusal::Bad) => Err(TakeRefusal::BadLine(number)),
        Err(EventRefusal::Memory) => Err(TakeRefusal::Memory),
        Err(EventRefusal::Lost) => {
            *stopped = true;
            Err(TakeRefusal::Memory)
        }
    }
}

impl Replica {
    /// The number of the line that comes next, counted from 1. `Memory` comes only where that is 2^64 or more.
    pub fn next_line(&self) -> Result<u64, Memory>
        ensures { IfOk result (λ number. number ≡ lines_taken self.now + 1) }
    {
        match self.line {
            Some(line) => line_behind(line, self.taken()),
            None => line_behind(0, self.rows.len() as u64),
        }
    }

    /// Takes a row, which is the line with this number.
    fn take_row(&mut self, row: FeedRow, number: u64) -> Result<(), TakeRefusal>
        requires going { self.old.stopped ≡ false }
        requires number { number ≡ lines_taken self.old + 1 }
        ensures { IsTaken self.old (row_line (row_of row)) self.new result }
    {
        if self.line.is_some() || !is_behind(&self.rows, &row) {
            return Err(TakeRefusal::BadLine(number));
        }
        match self.rows.push(row) {
            Ok(()) => Ok(()),
            Err(_) => Err(TakeRefusal::Memory),
        }
    }

    /// Takes the line of the start, which has this number: the wiki is opened over the rows.
    fn take_start(&mut self, number: u64) -> Result<(), TakeRefusal>
        requires going { self.old.stopped ≡ false }
        requires number { number ≡ lines_taken self.old + 1 }
        ensures { IsTaken self.old start self.new result }
    {
        if self.line.is_some() {
            return Err(TakeRefusal::BadLine(number));
        }
        let alloc = self.allocator();
        match loaded(alloc, &self.rows) {
            Ok(Some(wiki)) => {
                put(&mut self.wiki, wiki);
                put(&mut self.rows, Vec::new(alloc));
                self.line = Some(number);
                Ok(())
            }
            Ok(None) => Err(TakeRefusal::BadLine(number)),
            Err(_) => Err(TakeRefusal::Memory),
        }
    }

    /// Takes an event, which is the line with this number.
    fn take_event(&mut self, event: EventLine, number: u64) -> Result<(), TakeRefusal>
        requires going { self.old.stopped ≡ false }
        requires number { number ≡ lines_taken self.old + 1 }
        ensures { IsTaken self.old (event_line_of event) self.new result }
    {
        if self.line.is_none() {
            return Err(TakeRefusal::BadLine(number));
        }
        self.wiki.facts();
        let followed = follow(&mut self.wiki, event, &mut self.trees);
        told(followed, number, &mut self.stopped)
    }

    /// Takes what a line says, as `wk_feed_lines` reads it. It isn't stopped.
    ///
    /// `BadLine` comes exactly where the line is bad behind those that were taken, with its number, counted from 1; the replica is as
    /// before. `Memory` leaves it as before, or stopped.
    pub fn take_said(&mut self, line: FeedLine) -> Result<(), TakeRefusal>
        requires going { self.old.stopped ≡ false }
        ensures { IsTaken self.old (line_of line) self.new result }
    {
        let Ok(number) = self.next_line() else {
            return Err(TakeRefusal::Memory);
        };
        match line {
            FeedLine::Row(row) => self.take_row(row, number),
            FeedLine::Start => self.take_start(number),
            FeedLine::Event(event) => self.take_event(event, number),
        }
    }

    /// Takes the line that the refresh with this ticket was done, with a draft that was made for it before: of the page of the
    /// ticket, if that is out, and of its own text, and each of its reads is current. It isn't stopped, and answers as `take_said`.
    pub fn take_done(&mut self, ticket: u64, draft: Draft) -> Result<(), TakeRefusal>
        requires going { self.old.stopped ≡ false }
        requires page { (out : ClaimOutcome) → ticket_out self.old.state ticket ≡ Some out → draft.page ≡ out.title }
        requires own_text { draft.given ≡ None }
        requires current { Agrees (of_world (world_of self.old.state)) draft.reads }
        ensures { IsTaken self.old (done ticket) self.new result }
    {
        let Ok(number) = self.next_line() else {
            return Err(TakeRefusal::Memory);
        };
        if self.line.is_none() {
            return Err(TakeRefusal::BadLine(number));
        }
        self.wiki.facts();
        let followed = follow_drafted(&mut self.wiki, ticket, draft);
        told(followed, number, &mut self.stopped)
    }

    /// What is told of a line that says nothing.
    fn bad_line(&self) -> TakeRefusal
        ensures { IsBadLine self.now result }
    {
        match self.next_line() {
            Ok(number) => TakeRefusal::BadLine(number),
            Err(_) => TakeRefusal::Memory,
        }
    }

    /// Takes the next line of a feed, without its newline. It isn't stopped.
    ///
    /// `BadLine` comes exactly where the line is bad, with its number, counted from 1: where it says nothing, or what can't be behind
    /// the lines that were taken, or isn't UTF-8. The replica is as before then. `Memory` leaves it as before, or stopped.
    pub fn take(&mut self, line: &[u8]) -> Result<(), TakeRefusal>
        requires going { self.old.stopped ≡ false }
        ensures { IsTakenLine self.old line.now self.new result }
    {
        match read_line(self.allocator(), line) {
            Ok(Some(said)) => self.take_said(said),
            Ok(None) => Err(self.bad_line()),
            Err(_) => Err(TakeRefusal::Memory),
        }
    }
}

//! The line `read`.
ghost use Rattle.std.specs.Prelude.{◌≡◌, None, IfOk, OnErr, OnOk, length};
ghost use Rattle.serde_json.specs.View.{view};
ghost use Rattle.wk_view_rules.specs.Worlds.{ask, of_seen};
ghost use Rattle.wk_answer_rules.specs.Values.{reply_beside};
ghost use Rattle.wk_script_rules.specs.Replies.{read_entries};
ghost use Rattle.wk_script_rules.specs.ScriptLines.{read_line};
ghost use Rattle.wk_script_rules.specs.Steps.{present_read};
ghost use Rattle.wk_script_steps.specs.Drafts.{longer};
ghost use Rattle.wk_script_steps.specs.Reads.{ReadsNext};
ghost use Rattle.wk_script_steps.specs.Seen.{Holds};
ghost use Rattle.wk_script_steps.specs.Told.{Answers};

use crate::{OpenTicket, place};
use serde_json::Value;
use wk_core::Wiki;
use wk_expand::{Kind, Step, Trees, mark};
use wk_keeper::Keeper;
use wk_memory::Memory;
use wk_script_lines::{next_read, no_memory, no_read, no_ticket};
use wk_title::Title;

/// Reads this title for the draft, which needs it: the reply. After an `Err` nothing is read.
fn read_needed<K: Keeper>(
    wiki: &Wiki<K>,
    ticket: &mut OpenTicket,
    title: Title,
    kind: Kind,
) -> Result<Value, Memory>
    requires { ask (of_seen ticket.old.seen) title kind ≡ None }
    ensures ok { IfOk result (λ v. view v ≡ (reply_beside (read_entries (present_read wiki.now.state title kind)) (length wiki.now.journal)).value) }
    ensures read { OnOk result (ticket.new ≡ longer ticket.old (present_read wiki.now.state title kind)) }
    ensures err { OnErr result (ticket.new ≡ ticket.old) }
{
    let answer = wiki.fetch(&title, kind)?;
    let reply = next_read(wiki.allocator(), &title, kind, mark(&answer), wiki.point())?;
    ticket.add(title, kind, answer)?;
    Ok(reply)
}

/// Reads what the draft of the ticket needs next: the reply. After an `Err` the ticket and its reads are as before.
fn read_open<K: Keeper>(
    wiki: &Wiki<K>,
    ticket: &mut OpenTicket,
    trees: &mut Trees,
) -> Result<Value, Memory>
    ensures { ReadsNext wiki.now.state (length wiki.now.journal) ticket.old ticket.new result }
{
    let alloc = wiki.allocator();
    match ticket.step(alloc, trees) {
        Ok(Step::Done(_draft)) => no_read(alloc, wiki.point()),
        Ok(Step::Needs(title, kind)) => read_needed(wiki, ticket, title, kind),
        Err(Memory) => Err(Memory),
    }
}

/// Reads for the ticket of this number what its draft needs next, from the present world: the reply's value. `trees` keeps
/// parsed texts.
///
/// It tells the title and the kind that are read, with the mark of the answer; `notticket` where no ticket that is out has
/// this number; `noread` where the draft needs nothing more; `nomemory`, and then the ticket and its reads are as before.
/// The wiki stays as it is, and so does its point. `Memory` where there is none for the value, and nothing was read then.
pub fn read<K: Keeper>(
    wiki: &Wiki<K>,
    tickets: &mut Vec<OpenTicket>,
    trees: &mut Trees,
    number: u64,
) -> Result<Value, Memory>
    requires holds { Holds wiki.now.state tickets.old.items }
    ensures { Answers K.told K.faults 0 (read_line number) wiki.now wiki.now tickets.old.items tickets.new.items result }
{
    let alloc = wiki.allocator();
    let Some(at) = place(tickets.as_slice(), number) else {
        return no_ticket(alloc, wiki.point());
    };
    let ticket = &mut tickets[at];
    match read_open(wiki, ticket, trees) {
        Ok(value) => Ok(value),
        Err(Memory) => no_memory(alloc, wiki.point()),
    }
}

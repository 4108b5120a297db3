//! The line `giveback`, and tickets that come in at the end of a life.
ghost use Rattle.std.specs.Prelude.{◌≡◌, [], Some};
ghost use Rattle.wk_script_rules.specs.ScriptLines.{giveback_line};
ghost use Rattle.wk_script_rules.specs.WikiScripts.{all_given_back};
ghost use Rattle.wk_core.specs.Steps.{GoesOn};
ghost use Rattle.wk_script_steps.specs.Seen.{Holds, script_of};
ghost use Rattle.wk_script_steps.specs.Told.{Answers};

use crate::{OpenTicket, place};
use serde_json::Value;
use wk_core::Wiki;
use wk_keeper::Keeper;
use wk_memory::Memory;
use wk_script_lines::{given_back, no_ticket};

/// Gives the ticket of this number back: the reply's value. Its job is queued again, behind all others.
///
/// It tells the title of the ticket's page, or `notticket` where no ticket that is out has this number. It shows the point
/// behind the line. `Memory` where there is none for the value: what was given back is given back.
pub fn give_back<K: Keeper>(
    wiki: &mut Wiki<K>,
    tickets: &mut Vec<OpenTicket>,
    number: u64,
) -> Result<Value, Memory>
    requires holds { Holds wiki.old.state tickets.old.items }
    ensures { Answers K.told K.faults 0 (giveback_line number) wiki.old wiki.new tickets.old.items tickets.new.items result }
{
    wiki.facts();
    let alloc = wiki.allocator();
    let Some(at) = place(tickets.as_slice(), number) else {
        return no_ticket(alloc, wiki.point());
    };
    let open = tickets.remove(at);
    let title = open.title().share();
    wiki.give_back(open.into_ticket());
    match title {
        Ok(title) => given_back(alloc, &title, wiki.point()),
        Err(Memory) => Err(Memory),
    }
}

/// Gives all tickets that are out back, in the order of their numbers. Takes no memory.
pub fn give_all_back<K: Keeper>(wiki: &mut Wiki<K>, tickets: Vec<OpenTicket>)
    requires { Holds wiki.old.state tickets.items }
    ensures script { script_of wiki.new [] ≡ record (all_given_back (script_of wiki.old tickets.items)) { drafts = [] } }
    ensures start { wiki.new.start ≡ wiki.old.start }
    ensures keeper { wiki.new.keeper ≡ wiki.old.keeper }
{
    let mut left = tickets.into_iter();
    'tickets: loop {
        wiki.facts();
        match left.next() {
            Some(open) => wiki.give_back(open.into_ticket()),
            None => break,
        }
    }
    left.destroy_empty();
}

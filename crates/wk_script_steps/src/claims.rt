//! The line `claim`.
ghost use Rattle.std.specs.Prelude.{◌≡◌, ◌<◌, IfOk, length};
ghost use Rattle.wk_script_rules.specs.ScriptLines.{claim_line};
ghost use Rattle.wk_script_steps.specs.Seen.{Holds};
ghost use Rattle.wk_script_steps.specs.Told.{Answers};

use crate::OpenTicket;
use serde_json::Value;
use wk_core::{ClaimRefusal, Wiki};
use wk_keeper::Keeper;
use wk_memory::Memory;
use wk_script_lines::{claimed, journal_full, no_claim, no_memory};

/// Claims the first refresh job that is queued, and keeps its ticket behind the others: the reply's value (the forms of all
/// replies are own).
///
/// It tells the ticket and its page's title, or `null` where no job is queued; `journalfull` where one is, and the journal
/// has no room for the claim and for the event by which the ticket comes in; `nomemory`, and then nothing is claimed. It
/// shows the point behind the line. `Memory` where there is none for the value: what was claimed is claimed.
pub fn claim<K: Keeper>(wiki: &mut Wiki<K>, tickets: &mut Vec<OpenTicket>) -> Result<Value, Memory>
    requires holds { Holds wiki.old.state tickets.old.items }
    ensures { Answers K.told K.faults 0 claim_line wiki.old wiki.new tickets.old.items tickets.new.items result }
{
    wiki.facts();
    let alloc = wiki.allocator();
    if let Err(_) = tickets.reserve(1) {
        return no_memory(alloc, wiki.point());
    }
    match wiki.claim() {
        Ok(None) => no_claim(alloc, wiki.point()),
        Ok(Some(ticket)) => {
            let open = OpenTicket::new(alloc, ticket);
            let reply = claimed(alloc, open.number(), open.title(), wiki.point());
            tickets.push_reserved(open);
            reply
        }
        Err(ClaimRefusal::JournalFull) => journal_full(alloc, wiki.point()),
        Err(ClaimRefusal::Memory) => no_memory(alloc, wiki.point()),
    }
}

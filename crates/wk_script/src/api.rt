//! The line `api`.
ghost use Rattle.std.specs.Prelude.{◌≡◌, [], None, true, List};
ghost use Rattle.wk_request.specs.Asked.{request_asked};
ghost use Rattle.wk_request_rules.specs.Reading.{requested};
ghost use Rattle.wk_request_rules.specs.Requests.{valid};
ghost use Rattle.wk_script_rules.specs.ScriptLines.{api_line};
ghost use Rattle.wk_script_rules.specs.WikiScripts.{TicketDraft};
ghost use Rattle.wk_script_steps.specs.Seen.{Holds};
ghost use Rattle.wk_script_steps.specs.Told.{Answers};
ghost use Rattle.wk_script_runs.specs.Lines.{AnswersLine};

use serde_json::Value;
use wk_answer::{act, declined};
use wk_base::Clock;
use wk_core::Wiki;
use wk_expand::Trees;
use wk_keeper::Keeper;
use wk_memory::Memory;
use wk_request::{Asked, Request};
use wk_script_lines::no_memory;
use wk_script_steps::OpenTicket;

/// Does what is asked, at this moment. The tickets, which are these, stay as they are.
fn act_at<K: Keeper>(
    wiki: &mut Wiki<K>,
    request: &Request,
    moment: u64,
    trees: &mut Trees,
) -> Result<Value, Memory>
    requires unsealed { wiki.old.start.sealed ≡ None }
    ensures { (drafts : List TicketDraft) → Holds wiki.old.state drafts
        → Answers K.told K.faults moment (api_line (valid (request_asked request.now))) wiki.old wiki.new drafts drafts result }
{
    wiki.facts();
    match act(wiki, request, moment, trees) {
        Ok(value) => Ok(value),
        Err(Memory) => no_memory(wiki.allocator(), wiki.point()),
    }
}

/// Does what is asked. A moment is taken where a save is asked for.
fn carry_out<K: Keeper, C: Clock>(
    wiki: &mut Wiki<K>,
    tickets: &Vec<OpenTicket>,
    request: &Request,
    clock: &mut C,
    trees: &mut Trees,
) -> Result<Value, Memory>
    requires holds { Holds wiki.old.state tickets.now.items }
    requires unsealed { wiki.old.start.sealed ≡ None }
    ensures { AnswersLine K.told K.faults (api_line (valid (request_asked request.now))) wiki.old wiki.new tickets.now.items tickets.now.items
        (C.left clock.old) (C.left clock.new) result }
{
    match request.ask.asked() {
        Asked::Save(_) => {
            let moment = clock.now();
            act_at(wiki, request, moment, trees)
        }
        _ => act_at(wiki, request, 0, trees),
    }
}

/// Does what a query asks, which counts as posted. A moment is taken for each request that asks for a save, also where the
/// answer is an error.
pub fn api<K: Keeper, C: Clock>(
    wiki: &mut Wiki<K>,
    tickets: &Vec<OpenTicket>,
    query: &[u8],
    clock: &mut C,
    trees: &mut Trees,
) -> Result<Value, Memory>
    requires holds { Holds wiki.old.state tickets.now.items }
    requires unsealed { wiki.old.start.sealed ≡ None }
    ensures { AnswersLine K.told K.faults (api_line (requested query.now [] true)) wiki.old wiki.new tickets.now.items tickets.now.items
        (C.left clock.old) (C.left clock.new) result }
{
    let alloc = wiki.allocator();
    match Request::of(alloc, query, b"", true) {
        Ok(request) => carry_out(wiki, tickets, &request, clock, trees),
        Err(refusal) => declined(alloc, &refusal, wiki.point()),
    }
}

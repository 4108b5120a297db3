//! One line's answer.
ghost use Rattle.std.specs.Prelude.{◌≡◌, None};
ghost use Rattle.wk_script_lines.specs.Lines.{line_meant};
ghost use Rattle.wk_script_runs.specs.Lines.{AnswersLine, HasReply};
ghost use Rattle.wk_script_steps.specs.Seen.{Holds};

use crate::api::api;
use serde_json::Value;
use wk_base::Clock;
use wk_core::Wiki;
use wk_expand::Trees;
use wk_keeper::Keeper;
use wk_memory::Memory;
use wk_script_lines::{ScriptLine, bad_line, line_too_long};
use wk_script_steps::{OpenTicket, claim, fan, finish, give_back, read};

/// Answers a line that has a reply and is no restart.
pub fn answer<K: Keeper, C: Clock>(
    wiki: &mut Wiki<K>,
    tickets: &mut Vec<OpenTicket>,
    trees: &mut Trees,
    line: ScriptLine<'_>,
    clock: &mut C,
) -> Result<Value, Memory>
    requires holds { Holds wiki.old.state tickets.old.items }
    requires unsealed { wiki.old.start.sealed ≡ None }
    requires some { HasReply line }
    ensures { AnswersLine K.told K.faults (line_meant line.entry) wiki.old wiki.new tickets.old.items tickets.new.items
        (C.left clock.old) (C.left clock.new) result }
{
    match line {
        ScriptLine::Empty => unreachable!(),
        ScriptLine::Restart => unreachable!(),
        ScriptLine::TooLong => line_too_long(wiki.allocator(), wiki.point()),
        ScriptLine::Api(query) => api(wiki, tickets, query, clock, trees),
        ScriptLine::Claim => claim(wiki, tickets),
        ScriptLine::Read(ticket) => read(wiki, tickets, trees, ticket),
        ScriptLine::Finish(ticket) => finish(wiki, tickets, trees, ticket),
        ScriptLine::GiveBack(ticket) => give_back(wiki, tickets, ticket),
        ScriptLine::Fan => fan(wiki, tickets),
        ScriptLine::Unknown => bad_line(wiki.allocator(), wiki.point()),
    }
}

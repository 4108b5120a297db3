//! The line `fan`.
ghost use Rattle.std.specs.Prelude.{◌≡◌, IfOk};
ghost use Rattle.serde_json.specs.View.{view};
ghost use Rattle.wk_script_rules.specs.ScriptLines.{fan_line};
ghost use Rattle.wk_script_steps.specs.Outcomes.{fan_reply};
ghost use Rattle.wk_script_steps.specs.Seen.{Holds};
ghost use Rattle.wk_script_steps.specs.Told.{Answers};

use crate::OpenTicket;
use serde_json::Value;
use std::alloc::Global;
use wk_core::{FanRefusal, Fanned, Wiki};
use wk_keeper::Keeper;
use wk_memory::Memory;
use wk_script_lines::{fanned, journal_full, no_fan, no_memory, store_fault};

/// What is told of a fan.
fn told_fan(
    alloc: Global,
    answer: &Result<Option<Fanned>, FanRefusal>,
    point: u64,
) -> Result<Value, Memory>
    ensures { IfOk result (λ v. view v ≡ (fan_reply answer.now point).value) }
{
    match answer {
        Ok(None) => no_fan(alloc, point),
        Ok(Some(fan)) => fanned(alloc, &fan.title, fan.served, fan.queued, point),
        Err(FanRefusal::JournalFull) => journal_full(alloc, point),
        Err(FanRefusal::StoreFault) => store_fault(alloc, point),
        Err(FanRefusal::Memory) => no_memory(alloc, point),
    }
}

/// Serves the first fan job: the reply's value. The tickets stay as they are.
///
/// It tells the job's title, how many pages were served, at most 300, and how many of them were queued, or `null` where no
/// fan job stands; `journalfull` where one does, and the journal has no room or the numbers of jobs have come to their end;
/// `storefault`, only where the store's count of faults rose, or `nomemory`, and then nothing is served. It shows the point
/// behind the line. `Memory` where there is none for the value: what was served is served.
pub fn fan<K: Keeper>(wiki: &mut Wiki<K>, tickets: &Vec<OpenTicket>) -> Result<Value, Memory>
    requires holds { Holds wiki.old.state tickets.now.items }
    ensures { Answers K.told K.faults 0 fan_line wiki.old wiki.new tickets.now.items tickets.now.items result }
{
    wiki.facts();
    let answer = wiki.fan();
    told_fan(wiki.allocator(), &answer, wiki.point())
}

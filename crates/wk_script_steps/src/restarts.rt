//! The line `restart`.
ghost use Rattle.std.specs.Prelude.{◌≡◌, ◌+◌, [], None, IfOk, IfErr, length};
ghost use Rattle.serde_json.specs.View.{view};
ghost use Rattle.wk_wiki_rules.specs.Revisions.{count_existing};
ghost use Rattle.wk_answer_rules.specs.Pages.{count_jobs};
ghost use Rattle.wk_answer_rules.specs.Values.{reply_beside};
ghost use Rattle.wk_script_rules.specs.Replies.{restart_entries};
ghost use Rattle.wk_core.specs.Limits.{AreWithinFull};
ghost use Rattle.wk_script_steps.specs.Reopened.{IsLost, Reopens};
ghost use Rattle.wk_script_steps.specs.Seen.{Holds};

use crate::OpenTicket;
use crate::returns::give_all_back;
use serde_json::Value;
use wk_core::{LoadRefusal, Wiki};
use wk_keeper::Keeper;
use wk_memory::Memory;
use wk_script_lines::restarted;

/// Opens the wiki anew over its store, under the same limits. The tickets that are out are given back before, in the order
/// of their numbers.
///
/// Where the store tells its tables the wiki begins as a restart leaves it: each job is queued, no ticket is out, and the
/// journal is empty. It isn't opened where the store fails, only where its count of faults rose, where memory is wanting, or
/// where the store is bad, which one that tells its tables never is; then its keeper comes back, with the tables of the
/// last state.
pub fn reopen<K: Keeper>(wiki: Wiki<K>, tickets: Vec<OpenTicket>) -> Result<Wiki<K>, LoadRefusal<K>>
    requires holds { Holds wiki.state tickets.items }
    requires within { AreWithinFull wiki.start.limits }
    ensures ok { IfOk result (Reopens K.told K.faults wiki tickets.items) }
    ensures err { IfErr result (λ refusal. IsLost K.told K.faults wiki tickets.items refusal.cause refusal.keeper) }
{
    let mut wiki = wiki;
    let alloc = wiki.allocator();
    let limits = wiki.limits();
    give_all_back(&mut wiki, tickets);
    wiki.facts();
    match Wiki::load(alloc, wiki.release(), limits) {
        Ok(opened) => {
            opened.facts();
            Ok(opened)
        }
        Err(refusal) => Err(refusal),
    }
}

/// How many jobs of both kinds there are. No wiki has memory for 2^64.
#[tactic(auto, using(crate::proofs::JobCounts::queued_or_claimed))]
fn job_count<K: Keeper>(wiki: &Wiki<K>) -> Result<u64, Memory>
    ensures { IfOk result (λ count. count ≡ count_jobs wiki.now.state) }
{
    let left = wiki.left();
    let Some(refreshes) = left.queued.checked_add(left.claimed) else {
        return Err(Memory);
    };
    let Some(count) = refreshes.checked_add(left.fans) else {
        return Err(Memory);
    };
    Ok(count)
}

/// What is told of a restart: the reply's value, with the number of jobs of both kinds and that of the pages that exist.
/// `Memory` where there is none for the value.
pub fn told_restart<K: Keeper>(wiki: &Wiki<K>) -> Result<Value, Memory>
    ensures { IfOk result (λ v. view v ≡ (reply_beside (restart_entries wiki.now.state) (length wiki.now.journal)).value) }
{
    let jobs = job_count(wiki)?;
    let pages = wiki.existing_count() as u64;
    restarted(wiki.allocator(), jobs, pages, wiki.point())
}

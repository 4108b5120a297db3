//! How much a wiki holds.
ghost use Rattle.std.specs.Prelude.{◌≡◌, ◌+◌, IfOk, length};
ghost use Rattle.serde_json.specs.View.{view};
ghost use Rattle.wk_wiki_rules.specs.Revisions.{count_existing};
ghost use Rattle.wk_answer_rules.specs.Pages.{count_jobs, shows, site_entries};
ghost use Rattle.wk_listings.specs.Replied.{value_at};

use serde_json::Value;
use std::alloc::Global;
use wk_jobs::Jobs;
use wk_live::Live;
use wk_memory::Memory;
use wk_replies::{Counts, site_info};

/// How many jobs of both kinds there are. No wiki has memory for 2^64.
#[tactic(auto, using(crate::proofs::JobCounts::queued_or_claimed))]
fn job_count(jobs: &Jobs) -> Result<u64, Memory>
    ensures { IfOk result (λ count. count ≡ length jobs.now.lists.refreshes + length jobs.now.lists.fans) }
{
    let left = jobs.left();
    let Some(refreshes) = left.queued.checked_add(left.claimed) else {
        return Err(Memory);
    };
    let Some(count) = refreshes.checked_add(left.fans) else {
        return Err(Memory);
    };
    Ok(count)
}

/// What is told of the wiki.
pub fn site(alloc: Global, live: &Live, point: u64) -> Result<Value, Memory>
    ensures { IfOk result (λ v. view v ≡ value_at point (shows (site_entries live.now.state))) }
{
    let counts = Counts {
        revisions: live.revs().next_revision() - 1,
        jobs: job_count(live.jobs())?,
        pages: live.revs().existing_count() as u64,
    };
    site_info(alloc, counts, point)
}

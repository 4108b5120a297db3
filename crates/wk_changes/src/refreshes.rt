//! The change of a refresh that is done.
ghost use Rattle.std.specs.Prelude.{◌≡◌, ℕ, true, Some, IfOk};
ghost use Rattle.wk_wiki_rules.specs.Jobs.{RefreshEntry, IsOneAPage, has_refresh};
ghost use Rattle.wk_wiki_rules.specs.TableChanges.{job_held_by, refresh_change, refresh_change_without_rows};

use std::alloc::Global;
use wk_jobs::Jobs;
use wk_memory::Memory;
use wk_table_rows::{PageRows, Share};
use wk_tables::{Change, RowEdit};

/// The number of the page's refresh job, which there is.
fn job_number(jobs: &Jobs, page: u32) -> u64
    requires there { has_refresh jobs.now.lists page ≡ true }
    requires one { IsOneAPage jobs.now.lists }
    ensures { (ticket : ℕ) (job : RefreshEntry) → job_held_by jobs.now.lists ticket ≡ Some job
        → job.page ≡ page → result ≡ job.number }
{
    jobs.refresh_job(page).unwrap().number
}

/// The change of the tables that goes with a refresh of the page, whose job is claimed: its link rows are these from then
/// on, and the job goes. Texts and titles are shared. Its cost is that of the rows.
pub fn refresh_change(
    alloc: Global,
    jobs: &Jobs,
    page: u32,
    rows: &PageRows,
) -> Result<Change, Memory>
    requires there { has_refresh jobs.now.lists page ≡ true }
    requires one { IsOneAPage jobs.now.lists }
    ensures { IfOk result (λ change. (ticket : ℕ) (job : RefreshEntry) → job_held_by jobs.now.lists ticket ≡ Some job
        → job.page ≡ page → change ≡ refresh_change job rows.now) }
{
    let number = job_number(jobs, page);
    let mut edits = Vec::with_capacity(alloc, 2)?;
    edits.push(RowEdit::SetRows(page, rows.share()?))?;
    edits.push(RowEdit::DropJob(number))?;
    Ok(Change { edits })
}

/// The same where the link rows of the page are stored already: the job goes.
pub fn refresh_change_without_rows(alloc: Global, jobs: &Jobs, page: u32) -> Result<Change, Memory>
    requires there { has_refresh jobs.now.lists page ≡ true }
    requires one { IsOneAPage jobs.now.lists }
    ensures { IfOk result (λ change. (ticket : ℕ) (job : RefreshEntry) → job_held_by jobs.now.lists ticket ≡ Some job
        → job.page ≡ page → change ≡ refresh_change_without_rows job) }
{
    let number = job_number(jobs, page);
    let mut edits = Vec::with_capacity(alloc, 1)?;
    edits.push(RowEdit::DropJob(number))?;
    Ok(Change { edits })
}

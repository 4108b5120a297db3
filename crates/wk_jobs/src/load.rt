//! The job lists that the rows of the job table stand for.
ghost use Rattle.std.specs.Prelude.{◌≡◌, ◌≤◌, ◌<◌, ◌^◌, true, false, bytes_eq, IfOk, OnOk};
ghost use Rattle.std.specs.HashMap.{get};
ghost use Rattle.std.specs.Option.{IsSomeAnd};
ghost use Rattle.wk_text_rules.specs.Titles.{is_normal, title_eq};
ghost use Rattle.wk_table_rules.specs.GoodStore.{IsGood, is_fan_params};
ghost use Rattle.wk_table_rules.specs.JobTable.{fan_cmd, refresh_cmd};
ghost use Rattle.wk_wiki_rules.specs.Jobs.{has_fan, has_refresh};
ghost use Rattle.wk_wiki_rules.specs.Steps.{jobs_of_tables, reopened_jobs};
ghost use Rattle.wk_jobs.specs.Loaded.{CanBeFan, CanBeRefresh, with_row};

use crate::jobs::Jobs;
use crate::rows::{RowTitle, fan_of_row, page_numbers, page_of_row};
use std::alloc::Global;
use std::collections::HashMap;
use wk_memory::Memory;
use wk_table_rows::JobRow;
use wk_tables::Tables;

/// The job that computes the link rows of its page anew.
const REFRESH: &str = "refreshLinks";

/// Adds the job of the row at the end of the lists.
fn add_row(
    alloc: Global,
    jobs: &mut Jobs,
    numbers: &HashMap<RowTitle, u32>,
    row: &JobRow,
) -> Result<(), Memory>
    requires next { jobs.old.lists.next ≤ row.now.job_id }
    requires bound { row.now.job_id < 2 ^ 63 }
    requires refresh { bytes_eq row.now.job_cmd refresh_cmd ≡ true → CanBeRefresh (get title_eq numbers.now row.now.job_title) jobs.old.lists }
    requires fan { bytes_eq row.now.job_cmd refresh_cmd ≡ false → CanBeFan row.now jobs.old.lists }
    ensures { OnOk result (jobs.new.lists ≡ with_row (get title_eq numbers.now row.now.job_title) row.now jobs.old.lists) }
{
    if row.job_cmd.as_str() == REFRESH {
        let page = page_of_row(numbers, row)?;
        return jobs.restore_refresh(row.job_id, page);
    }
    let job = fan_of_row(alloc, row)?;
    jobs.restore_fan(job)
}

/// The jobs of the rows of the job table, each queued, in their order.
fn jobs_of_rows(alloc: Global, tables: &Tables, rows: &[JobRow]) -> Result<Jobs, Memory>
    requires good { IsGood tables.now.tables }
    requires rows { rows.now ≡ tables.now.tables.jobs }
    ensures { IfOk result (λ jobs. jobs.lists ≡ jobs_of_tables tables.now.tables) }
{
    let numbers = page_numbers(alloc, tables.pages())?;
    let mut jobs = Jobs::new(alloc);
    'rows: for row in rows {
        add_row(alloc, &mut jobs, &numbers, row)?;
    }
    Ok(jobs)
}

impl Jobs {
    /// The jobs in the tables of a good store, as a restart has them: each refresh job is queued, in the order of their
    /// numbers, and numbers are counted on from the greatest of a job that stands. No room is made. All rows of the tables
    /// are shared for the time of the call. `Memory` may come at any tables.
    pub fn load(tables: &Tables) -> Result<Jobs, Memory>
        requires { IsGood tables.now.tables }
        ensures { IfOk result (λ jobs. jobs.lists ≡ reopened_jobs (jobs_of_tables tables.now.tables)) }
    {
        let rows = tables.rows()?;
        let mut jobs = jobs_of_rows(*rows.jobs.allocator(), tables, &rows.jobs)?;
        jobs.reopen();
        Ok(jobs)
    }
}

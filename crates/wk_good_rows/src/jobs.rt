//! The rule of the table job.
ghost use Rattle.std.specs.Prelude.{◌≡◌, ◌<◌, ◌++◌, ◌∷◌, [], true, bytes_eq, nat_lt, IfOk, List, length, slice_index_or, take};
ghost use Rattle.wk_table_rules.specs.Rows.{JobColumns, StoreTables};
ghost use Rattle.wk_table_rules.specs.JobTable.{fan_cmd, refresh_cmd};
ghost use Rattle.wk_table_rules.specs.GoodStore.{first_bad, is_fan_params, is_good_fan, is_good_job, is_good_number, is_good_refresh, job_bound};
ghost use Rattle.wk_good_rows.specs.Among.{IsTitlesOf, IsTitlesOfJobs};
ghost use Rattle.wk_good_rows.specs.JobKinds.{AreTitlesOf, is_good_kind};
ghost use Rattle.wk_good_rows.specs.Order.{IsInOrder};
ghost use Rattle.wk_good_rows.specs.Params.{is_cursor, is_reach};

use crate::normal::is_normal;
use crate::number::row_number;
use crate::order::is_behind;
use crate::titles::TitleSet;
use std::alloc::Global;
use wk_bytes::decimal;
use wk_memory::Memory;
use wk_table_rows::{JobRow, TableRows};

/// The job that computes the link rows of its page anew.
const REFRESH: &str = "refreshLinks";

/// The job that queues a refresh of each page that names its title.
const FAN: &str = "fan";

/// The most that a fan job's cursor can be: the greatest number of a page.
const MAX_CURSOR: u64 = 1_000_000;

/// What the number of a job is below. With version 1 there is room above it for a refresh job of each page.
fn job_bound(version: u64) -> u64
    ensures { result ≡ job_bound version }
{
    if version == 1 {
        (1 << 63) - 1_000_000
    } else {
        1 << 63
    }
}

/// Whether the word says how far a fan job reaches.
fn is_reach(word: &str) -> bool
    ensures { result ≡ is_reach word.now }
{
    word == "text" || word == "both"
}

/// Whether the number is one that a cursor can have.
fn is_cursor(number: &str) -> bool
    ensures { result ≡ is_cursor number.now }
{
    match decimal(number.as_bytes()) {
        Some(cursor) => cursor <= MAX_CURSOR,
        None => false,
    }
}

/// Whether the params are those of a fan job: how far it reaches, a colon, and its cursor.
fn is_fan_params(params: &str) -> bool
    ensures { result ≡ is_fan_params params.now }
{
    match params.split_once(':') {
        Some((word, number)) => is_reach(word) && is_cursor(number),
        None => false,
    }
}

/// Whether the row is good as a refresh job: it names a page that no refresh job before it names, and has no params.
/// Its title is added to those of the refresh jobs.
fn is_good_refresh(pages: &TitleSet, refreshes: &mut TitleSet, job: &JobRow) -> Result<bool, Memory>
    ensures good { IfOk result (λ good. (tables : StoreTables) (before : List JobColumns) → IsTitlesOf pages.now tables.pages → IsTitlesOfJobs refreshes.old refresh_cmd before → good ≡ is_good_refresh tables before job.now) }
    ensures titles { IfOk result (λ good. (before : List JobColumns) → good ≡ true → IsTitlesOfJobs refreshes.old refresh_cmd before → bytes_eq job.now.job_cmd refresh_cmd ≡ true → IsTitlesOfJobs refreshes.new refresh_cmd (before ++ job.now ∷ [])) }
{
    if !job.job_params.is_empty() || !pages.has(job.job_namespace, &job.job_title)? {
        return Ok(false);
    }
    refreshes.add(job.job_namespace, &job.job_title)
}

/// Whether the row is good as a fan job: it has that command, a normal title that no fan job before it has, and good
/// params. Its title is added to those of the fan jobs.
fn is_good_fan(alloc: Global, fans: &mut TitleSet, job: &JobRow) -> Result<bool, Memory>
    ensures good { IfOk result (λ good. (before : List JobColumns) → IsTitlesOfJobs fans.old fan_cmd before → good ≡ is_good_fan before job.now) }
    ensures titles { IfOk result (λ good. (before : List JobColumns) → good ≡ true → IsTitlesOfJobs fans.old fan_cmd before → IsTitlesOfJobs fans.new fan_cmd (before ++ job.now ∷ [])) }
{
    if job.job_cmd.as_str() != FAN || !is_fan_params(job.job_params.as_str()) {
        return Ok(false);
    }
    if !is_normal(alloc, job.job_namespace, &job.job_title)? {
        return Ok(false);
    }
    let is_new = fans.add(job.job_namespace, &job.job_title)?;
    Ok(is_new)
}

/// Whether the row is good as a job of its kind. Its title is added to those of its kind.
fn is_good_kind(
    alloc: Global,
    pages: &TitleSet,
    refreshes: &mut TitleSet,
    fans: &mut TitleSet,
    job: &JobRow,
) -> Result<bool, Memory>
    ensures good { IfOk result (λ good. (tables : StoreTables) (before : List JobColumns) → IsTitlesOf pages.now tables.pages → AreTitlesOf refreshes.old fans.old before → good ≡ is_good_kind tables before job.now) }
    ensures titles { IfOk result (λ good. (before : List JobColumns) → good ≡ true → AreTitlesOf refreshes.old fans.old before → AreTitlesOf refreshes.new fans.new (before ++ job.now ∷ [])) }
{
    if job.job_cmd.as_str() == REFRESH {
        let is_good = is_good_refresh(pages, refreshes, job)?;
        return Ok(is_good);
    }
    let is_good = is_good_fan(alloc, fans, job)?;
    Ok(is_good)
}

/// Whether the number of the job at this place is at least 1, below the bound, and above those of all before it.
fn is_good_number(version: u64, jobs: &[JobRow], place: usize) -> bool
    requires within { place < length jobs.now }
    requires order { IsInOrder (λ a b. nat_lt a.job_id b.job_id) jobs.now place }
    ensures { (row : JobColumns) → row ≡ slice_index_or jobs.now place row → result ≡ is_good_number version (take place jobs.now) row }
{
    let job = &jobs[place];
    if job.job_id == 0 || job_bound(version) <= job.job_id {
        return false;
    }
    is_behind(jobs, place)
}

/// The first row that isn't good: whose number doesn't rise or is out of bounds, or that isn't a good refresh job or a
/// good fan job. `pages` are the titles of the pages.
pub fn bad_job(alloc: Global, tables: &TableRows, pages: &TitleSet) -> Result<Option<u64>, Memory>
    requires { IsTitlesOf pages.now tables.now.pages }
    ensures { IfOk result (λ bad. bad ≡ first_bad (is_good_job tables.now) tables.now.jobs) }
{
    let jobs = tables.jobs.as_slice();
    let mut refreshes = TitleSet::new(alloc);
    let mut fans = TitleSet::new(alloc);
    for i in 0..jobs.len() {
        if !is_good_number(tables.version, jobs, i) {
            return Ok(Some(row_number(i)));
        }
        if !is_good_kind(alloc, pages, &mut refreshes, &mut fans, &jobs[i])? {
            return Ok(Some(row_number(i)));
        }
    }
    Ok(None)
}

//! The rows of jobs, and the refresh jobs that pages get.
ghost use Rattle.std.specs.Prelude.{◌≡◌, ◌+◌, ◌<◌, ◌^◌, ◌++◌, length, map, IfOk, OnOk};
ghost use Rattle.std.specs.List.{AllPairs};
ghost use Rattle.wk_table_rules.specs.JobTable.{params_text, reach_word, refresh_row};
ghost use Rattle.wk_wiki_rules.specs.States.{title_at};
ghost use Rattle.wk_wiki_rules.specs.Jobs.{JobLists, has_refresh, refresh_queued};
ghost use Rattle.wk_wiki_rules.specs.TableChanges.{refresh_edits, refreshes_edits, row_of_fan};
ghost use Rattle.wk_tables.specs.Edits.{edit_of};

use std::alloc::Global;
use wk_bytes::Text;
use wk_jobs::{FanJob, Jobs};
use wk_memory::Memory;
use wk_page_rules::Reach;
use wk_revs::Revs;
use wk_tables::{JobRow, RowEdit};
use wk_title::Title;

/// The row of a refresh job with this number, of the page with this title.
pub fn refresh_row(alloc: Global, number: u64, title: &Title) -> Result<JobRow, Memory>
    ensures { IfOk result (λ row. row ≡ refresh_row number title.now) }
{
    let (namespace, key) = title.share()?.into_parts();
    refresh_row_of(alloc, number, i64::from(namespace), key)
}

/// The row of a refresh job with this number, of the page with the title of these two columns.
fn refresh_row_of(alloc: Global, number: u64, namespace: i64, key: Text) -> Result<JobRow, Memory>
    ensures { IfOk result (λ row. row ≡ refresh_row number (record { ns = namespace; key = key })) }
{
    Ok(JobRow {
        job_id: number,
        job_cmd: Text::new(alloc, "refreshLinks")?,
        job_namespace: namespace,
        job_title: key,
        job_params: Text::new(alloc, "")?,
    })
}

/// The row of a refresh job with this number, of the page with this one. Where there is no such page, its title is the
/// empty one of main.
pub fn refresh_row_at(alloc: Global, revs: &Revs, number: u64, page: u32) -> Result<JobRow, Memory>
    ensures { IfOk result (λ row. row ≡ refresh_row number (title_at revs.now.history page)) }
{
    match revs.page_at(page) {
        Some((title, _)) => refresh_row(alloc, number, title),
        None => refresh_row_of(alloc, number, 0, Text::new(alloc, "")?),
    }
}

/// The word of the reach in a fan job's params.
fn reach_word(reach: Reach) -> &'static str
    ensures { result.now ≡ reach_word reach }
{
    match reach {
        Reach::Text => "text",
        Reach::Both => "both",
    }
}

/// The params of a fan job's row.
fn params_text(alloc: Global, reach: Reach, cursor: u32) -> Result<Text, Memory>
    ensures { IfOk result (λ text. text ≡ params_text (record { reach = reach; cursor = cursor })) }
{
    let word = reach_word(reach);
    let text = format!(in alloc; "{word}:{cursor}")?;
    Text::new(alloc, &text)
}

/// The row of the fan job.
pub fn row_of_fan(alloc: Global, fan: FanJob) -> Result<JobRow, Memory>
    ensures { IfOk result (λ row. row ≡ row_of_fan fan) }
{
    let params = params_text(alloc, fan.reach, fan.cursor)?;
    let (namespace, key) = fan.title.into_parts();
    Ok(JobRow {
        job_id: fan.number,
        job_cmd: Text::new(alloc, "fan")?,
        job_namespace: i64::from(namespace),
        job_title: key,
        job_params: params,
    })
}

/// Appends the edit that adds a refresh job with this number of the page, where it has none; and the number of the next
/// one.
fn push_refresh(
    alloc: Global,
    edits: &mut Vec<RowEdit>,
    revs: &Revs,
    jobs: &Jobs,
    number: u64,
    page: u32,
) -> Result<u64, Memory>
    requires { number + 1 < 2 ^ 64 }
    ensures edits { OnOk result ((lists : JobLists) → lists.next ≡ number → has_refresh lists page ≡ has_refresh jobs.now.lists page
        → map edit_of edits.new.items ≡ map edit_of edits.old.items ++ refresh_edits lists page (title_at revs.now.history page)) }
    ensures number { IfOk result (λ next. (lists : JobLists) → lists.next ≡ number → has_refresh lists page ≡ has_refresh jobs.now.lists page
        → next ≡ (refresh_queued lists page).next) }
{
    if jobs.refresh_job(page).is_some() {
        return Ok(number);
    }
    let row = refresh_row_at(alloc, revs, number, page)?;
    edits.push(RowEdit::AddJob(row))?;
    Ok(number + 1)
}

/// The edits that add a refresh job of each of these pages, whose numbers rise, that has none.
pub fn refreshes_edits(
    alloc: Global,
    revs: &Revs,
    jobs: &Jobs,
    pages: &[u32],
) -> Result<Vec<RowEdit>, Memory>
    requires rising { AllPairs (λ a b. a < b) pages.now }
    requires numbers { jobs.now.lists.next + length pages.now < 2 ^ 64 }
    ensures { IfOk result (λ edits. map edit_of edits.items
        ≡ refreshes_edits (title_at revs.now.history) jobs.now.lists pages.now) }
{
    let mut edits = Vec::new(alloc);
    let mut number = jobs.next_number();
    for page in pages {
        number = push_refresh(alloc, &mut edits, revs, jobs, number, *page)?;
    }
    Ok(edits)
}

//! The change of a fan.
ghost use Rattle.std.specs.Prelude.{◌≡◌, ◌<◌, ◌^◌, Some, IfOk, IsSome, if◌then◌else◌};
ghost use Rattle.wk_table_rules.specs.Changes.{drop_job, set_job};
ghost use Rattle.wk_wiki_rules.specs.Jobs.{FanEntry, first_fan};
ghost use Rattle.wk_wiki_rules.specs.Steps.{cursor_behind, fan_pages, next_served};
ghost use Rattle.wk_wiki_rules.specs.TableChanges.{fan_change, row_of_fan};
ghost use Rattle.wk_tables.specs.Edits.{edit_of};
ghost use Rattle.wk_changes.specs.Parts.{are_last, parts};

use crate::job_rows::{refreshes_edits, row_of_fan};
use std::alloc::Global;
use wk_index::Index;
use wk_jobs::{FanJob, Jobs};
use wk_memory::Memory;
use wk_revs::Revs;
use wk_tables::{Change, RowEdit};

/// The cursor behind the pages that were served: the last of them, or the one before where there is none.
fn cursor_behind(served: &[u32], cursor: u32) -> u32
    ensures { result ≡ cursor_behind served.now cursor }
{
    match served.last() {
        Some(page) => *page,
        None => cursor,
    }
}

/// The edit of the fan job once it has served these pages: it goes where they are the last, and else has a new cursor.
fn served_edit(
    alloc: Global,
    fan: &FanJob,
    served: &[u32],
    is_last: bool,
) -> Result<RowEdit, Memory>
    ensures { IfOk result (λ edit. edit_of edit ≡ (if is_last then drop_job fan.now.number
        else set_job (row_of_fan (record fan.now { cursor = cursor_behind served.now fan.now.cursor })))) }
{
    if is_last {
        return Ok(RowEdit::DropJob(fan.number));
    }
    let moved = FanJob {
        number: fan.number,
        title: fan.title.share()?,
        reach: fan.reach,
        cursor: cursor_behind(served, fan.cursor),
    };
    let row = row_of_fan(alloc, moved)?;
    Ok(RowEdit::SetJob(row))
}

/// The change of the tables that goes with a fan, by which the first fan job, which there is, serves these pages: a
/// refresh job of each that has none, and the cursor that the fan job has from then on, or that it goes. The pages are its
/// next ones, and whether they are the last is told. Its cost doesn't grow with the wiki.
pub fn fan_change(
    alloc: Global,
    revs: &Revs,
    jobs: &Jobs,
    index: &Index,
    served: &[u32],
    is_last: bool,
) -> Result<Change, Memory>
    requires there { IsSome (first_fan jobs.now.lists) }
    requires numbers { jobs.now.lists.next < 2 ^ 63 }
    requires served { (fan : FanEntry) → first_fan jobs.now.lists ≡ Some fan → served.now ≡ next_served index.now.stored fan_pages fan }
    requires last { (fan : FanEntry) → first_fan jobs.now.lists ≡ Some fan → is_last ≡ are_last index.now.stored fan_pages fan }
    ensures { IfOk result (λ change. (fan : FanEntry) → first_fan jobs.now.lists ≡ Some fan
        → change ≡ fan_change fan_pages (parts revs.now jobs.now index.now) fan) }
{
    let fan = jobs.first_fan().unwrap();
    let mut edits = refreshes_edits(alloc, revs, jobs, served)?;
    edits.push(served_edit(alloc, fan, served, is_last)?)?;
    Ok(Change { edits })
}

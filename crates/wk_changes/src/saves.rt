//! The change of a save.
ghost use Rattle.std.specs.Prelude.{◌≡◌, ◌+◌, ◌<◌, ◌^◌, ◌++◌, ◌∷◌, ◌||◌, [], map, List, IfOk, OnOk};
ghost use Rattle.std.specs.Option.{option_copied, option_to_list};
ghost use Rattle.wk_page_rules.specs.PageRows.{PageRows};
ghost use Rattle.wk_table_rules.specs.Changes.{add_revision, set_page};
ghost use Rattle.wk_wiki_rules.specs.Jobs.{JobLists, has_fan, refresh_queued, wider};
ghost use Rattle.wk_wiki_rules.specs.Users.{some_page_names};
ghost use Rattle.wk_wiki_rules.specs.TableChanges.{fan_edits, refresh_edits, save_change};
ghost use Rattle.wk_tables.specs.Edits.{edit_of};
ghost use Rattle.wk_revs.specs.Standing.{standing as standing_of};
ghost use Rattle.wk_changes.specs.Parts.{is_fan_wanted, parts};
ghost use Rattle.wk_changes.specs.Saved.{page_of_save, revision_of_save};

use crate::job_rows::{refresh_row, row_of_fan};
use crate::rows::{page_row, revision_row};
use std::alloc::Global;
use wk_bytes::Text;
use wk_index::Index;
use wk_jobs::{FanJob, Jobs};
use wk_memory::Memory;
use wk_page_rules::Reach;
use wk_revs::{Revs, Standing};
use wk_tables::{Change, PageRow, RowEdit};
use wk_title::Title;

/// The row that the page of a save has from then on, where this stands of its title.
fn saved_page(standing: Standing, title: &Title, text: Option<&Text>) -> Result<PageRow, Memory>
    ensures { IfOk result (λ row. row ≡ page_of_save standing title.now (option_copied text.entry)) }
{
    // A deletion leaves the page missing.
    let latest = if text.is_some() { standing.next } else { 0 };
    page_row(standing.to_save, title, latest, text)
}

/// The edits of the revision and of the page of a save, where this stands of its title.
fn page_edits(
    alloc: Global,
    standing: Standing,
    title: &Title,
    text: Option<&Text>,
    moment: u64,
) -> Result<Vec<RowEdit>, Memory>
    ensures { IfOk result (λ edits. map edit_of edits.items ≡ add_revision (revision_of_save standing (option_copied text.entry) moment)
        ∷ set_page (page_of_save standing title.now (option_copied text.entry)) ∷ []) }
{
    let number = standing.next;
    let parent = standing.current;
    let revision = revision_row(alloc, number, standing.to_save, parent, moment, text)?;
    let page = saved_page(standing, title, text)?;
    let mut edits = Vec::with_capacity(alloc, 4)?;
    edits.push(RowEdit::AddRevision(revision))?;
    edits.push(RowEdit::SetPage(page))?;
    Ok(edits)
}

/// The edit that adds a refresh job of the page, which has this title, where it has none.
fn refresh_edit(
    alloc: Global,
    jobs: &Jobs,
    page: u32,
    title: &Title,
) -> Result<Option<RowEdit>, Memory>
    ensures { IfOk result (λ edit. map edit_of (option_to_list edit) ≡ refresh_edits jobs.now.lists page title.now) }
{
    if jobs.refresh_job(page).is_some() {
        return Ok(None);
    }
    let row = refresh_row(alloc, jobs.next_number(), title)?;
    Ok(Some(RowEdit::AddJob(row)))
}

/// The number of the next new job once the page has a refresh job.
fn number_behind(jobs: &Jobs, page: u32) -> u64
    requires { jobs.now.lists.next < 2 ^ 63 }
    ensures { result ≡ (refresh_queued jobs.now.lists page).next }
{
    if jobs.refresh_job(page).is_some() {
        jobs.next_number()
    } else {
        jobs.next_number() + 1
    }
}

/// The reach that covers both.
fn wider(a: Reach, b: Reach) -> Reach
    ensures { result ≡ wider a b }
{
    match a {
        Reach::Text => b,
        Reach::Both => Reach::Both,
    }
}

/// The edit that begins the title's fan job anew, or adds one with this number where it has none; none where no fan job is
/// wanted.
fn fan_edit(
    alloc: Global,
    jobs: &Jobs,
    number: u64,
    title: &Title,
    reach: Reach,
    is_wanted: bool,
) -> Result<Option<RowEdit>, Memory>
    ensures { IfOk result (λ edit. (stored : List PageRows) (lists : JobLists) → lists.fans ≡ jobs.now.lists.fans → lists.next ≡ number
        → is_wanted ≡ (has_fan lists title.now || some_page_names stored title.now reach)
        → map edit_of (option_to_list edit) ≡ fan_edits stored lists title.now reach) }
{
    if !is_wanted {
        return Ok(None);
    }
    match jobs.fan_job(title) {
        Some(fan) => {
            let anew = FanJob {
                number: fan.number,
                title: fan.title.share()?,
                reach: wider(fan.reach, reach),
                cursor: 0,
            };
            Ok(Some(RowEdit::SetJob(row_of_fan(alloc, anew)?)))
        }
        None => {
            let new = FanJob {
                number,
                title: title.share()?,
                reach,
                cursor: 0,
            };
            Ok(Some(RowEdit::AddJob(row_of_fan(alloc, new)?)))
        }
    }
}

/// Appends the edit, where there is one.
fn push_some(edits: &mut Vec<RowEdit>, edit: Option<RowEdit>) -> Result<(), Memory>
    ensures { OnOk result (map edit_of edits.new.items ≡ map edit_of edits.old.items ++ map edit_of (option_to_list edit)) }
{
    match edit {
        Some(edit) => {
            edits.push(edit)?;
            Ok(())
        }
        None => Ok(()),
    }
}

/// The change of the tables that goes with a save of the title, of this text or, where there is none, of a deletion, at
/// this many seconds since 1970: the revision, its page, and the jobs that it queues. What stands of the title is told, and
/// whether the save wants a fan job. Texts and titles are shared. Its cost doesn't grow with the wiki, but for the fan jobs,
/// among which the title's is looked for.
pub fn save_change(
    alloc: Global,
    revs: &Revs,
    jobs: &Jobs,
    index: &Index,
    standing: Standing,
    title: &Title,
    text: Option<&Text>,
    moment: u64,
    wants_fan: bool,
) -> Result<Change, Memory>
    requires standing { standing ≡ standing_of revs.now.history title.now }
    requires numbers { jobs.now.lists.next < 2 ^ 63 }
    requires wants_fan { wants_fan ≡ is_fan_wanted (parts revs.now jobs.now index.now) title.now (option_copied text) }
    ensures { IfOk result (λ change. change ≡ save_change (parts revs.now jobs.now index.now) title.now (option_copied text.entry) moment) }
{
    let page = standing.to_save;
    let reach = standing.reach(text.is_some());
    let number = number_behind(jobs, page);
    let mut edits = page_edits(alloc, standing, title, text, moment)?;
    push_some(&mut edits, refresh_edit(alloc, jobs, page, title)?)?;
    push_some(
        &mut edits,
        fan_edit(alloc, jobs, number, title, reach, wants_fan)?,
    )?;
    Ok(Change { edits })
}

//! Saves.
ghost use Rattle.std.specs.Prelude.{◌≡◌, ◌+◌, ◌≤◌, ◌<◌, ◌^◌, ◌++◌, ◌∷◌, [], None, true, IfOk, is_some, length, if◌then◌else◌};
ghost use Rattle.wk_page_rules.specs.History.{can_save, next_revision, page_number};
ghost use Rattle.wk_page_rules.specs.Verdict.{max_pages};
ghost use Rattle.wk_page_rules.specs.PageRows.{no_rows};
ghost use Rattle.wk_wiki_rules.specs.Jobs.{has_fan};
ghost use Rattle.wk_wiki_rules.specs.Events.{with_saved};
ghost use Rattle.wk_revs.specs.Standing.{standing as standing_of};
ghost use Rattle.wk_live.specs.HeldState.{HasRoomFor};
ghost use Rattle.wk_live.specs.Wanted.{fan_of_save, queued_with, wants_fan};

use crate::live::Live;
use wk_bytes::Text;
use wk_index::Index;
use wk_jobs::Jobs;
use wk_memory::Memory;
use wk_page_rules::Reach;
use wk_revs::Standing;
use wk_title::Title;

/// Adds a page without rows behind all pages where the title has no page. Takes no memory.
fn add_page(index: &mut Index, page: Option<u32>)
    requires room { 1 ≤ index.old.spare }
    requires fits { page ≡ None → length index.old.stored < max_pages }
    ensures { index.new.stored ≡ (if is_some page then index.old.stored else index.old.stored ++ no_rows ∷ []) }
{
    match page {
        Some(_) => {}
        None => index.add_page(),
    }
}

/// Queues a refresh of the page, where it has none, and sets the title's fan job, where there is a title. There is room
/// for both. Takes no memory.
fn queue_jobs(jobs: &mut Jobs, page: u32, reach: Reach, fan: Option<Title>)
    requires refresh_room { 1 ≤ jobs.old.refresh_room }
    requires fan_room { 1 ≤ jobs.old.fan_room }
    requires numbers { jobs.old.lists.next + 1 < 2 ^ 63 }
    ensures { jobs.new.lists ≡ queued_with jobs.old.lists page reach fan }
{
    let queued: Result<_, _> = jobs.queue_refresh(page);
    let _ = queued.unwrap();
    match fan {
        Some(title) => {
            let set: Result<_, _> = jobs.set_fan(title, reach);
            set.unwrap();
        }
        None => {}
    }
}

/// Whether the title has a fan job.
fn has_fan(jobs: &Jobs, title: &Title) -> bool
    ensures { result ≡ has_fan jobs.now.lists title.now }
{
    match jobs.fan_job(title) {
        Some(_) => true,
        None => false,
    }
}

impl Live {
    /// Whether a save of the title that reaches these rows sets its fan job or adds one: one stands, or some page's
    /// stored rows, its own among them, name the title.
    pub fn wants_fan(&self, title: &Title, reach: Reach) -> Result<bool, Memory>
        ensures { IfOk result (λ wants. wants ≡ wants_fan self.now.state title.now reach) }
    {
        if has_fan(&self.jobs, title) {
            return Ok(true);
        }
        self.index.some_page_names(title, reach)
    }

    /// Saves the text as the title's current revision, or a deletion where there is none, at this many seconds since
    /// 1970, queues a refresh of its page and sets or adds the title's fan job; and gives the revision's number. What stands
    /// of the title is given, and the fan job's title exactly where one is wanted. Takes no memory.
    pub fn save(
        &mut self,
        standing: Standing,
        title: Title,
        text: Option<Text>,
        moment: u64,
        fan: Option<Title>,
    ) -> u64
        requires room { HasRoomFor 1 self.old.room }
        requires possible { can_save self.old.state.history title text ≡ true }
        requires fits { page_number self.old.state.history title ≡ None → length self.old.state.history.pages < max_pages }
        requires numbers { self.old.state.jobs.next + 1 < 2 ^ 63 }
        requires standing { standing ≡ standing_of self.old.state.history title }
        requires fan { fan ≡ fan_of_save self.old.state title text }
        ensures state { self.new.state ≡ with_saved self.old.state title text moment }
        ensures number { result ≡ next_revision self.old.state.history }
    {
        let reach = standing.reach(text.is_some());
        add_page(&mut self.index, standing.page);
        queue_jobs(&mut self.jobs, standing.to_save, reach, fan);
        self.revs.add(title, text, moment)
    }
}

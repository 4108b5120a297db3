//! Fans.
ghost use Rattle.std.specs.Prelude.{◌≡◌, ℕ, ◌+◌, ◌≤◌, ◌<◌, ◌^◌, None, Some, IfOk, length};
ghost use Rattle.std.specs.List.{last_or};
ghost use Rattle.wk_wiki_rules.specs.Steps.{after_fan, all_queued, cursor_behind};
ghost use Rattle.wk_wiki_rules.specs.Events.{with_jobs};
ghost use Rattle.wk_live.specs.Fanned.{IsNextServed, first_fan_served, jobs_served};

use crate::live::Live;
use wk_jobs::Jobs;
use wk_memory::Memory;

/// The last of the pages.
#[tactic(auto, using(crate::proofs::FanLaws::last_is))]
fn last_of(pages: &[u32]) -> Option<u32>
    ensures { result ≡ last_or None pages.now }
{
    pages.last().copied()
}

/// Queues a refresh of each of the pages that has none, in order. There is room for them all. Takes no memory.
fn queue_all(jobs: &mut Jobs, pages: &[u32])
    requires room { length pages.now ≤ jobs.old.refresh_room }
    requires numbers { jobs.old.lists.next + length pages.now ≤ 2 ^ 63 }
    ensures { jobs.new.lists ≡ all_queued jobs.old.lists pages.now }
{
    for page in pages {
        let queued: Result<_, _> = jobs.queue_refresh(*page);
        let _ = queued.unwrap();
    }
}

/// Takes away the first fan job, which there is, or says that it has served the pages up to the last of these. Takes no
/// memory.
fn serve_first(jobs: &mut Jobs, served: &[u32], is_last: bool)
    requires { 0 < length jobs.old.lists.fans }
    ensures { jobs.new.lists ≡ first_fan_served jobs.old.lists (last_or None served.now) is_last }
{
    if is_last {
        jobs.drop_fan();
        return;
    }
    match last_of(served) {
        Some(page) => jobs.move_fan(page),
        None => {}
    }
}

impl Live {
    /// The pages that the first fan job, which there is, serves next, at most so many, rising; and whether no page behind
    /// them names its title.
    pub fn next_served(&self, most: usize) -> Result<(Vec<u32>, bool), Memory>
        requires { 0 < length self.now.state.jobs.fans }
        ensures { IfOk result (λ next. IsNextServed self.now.state most next.0.items next.1) }
    {
        let Some(fan) = self.jobs.first_fan() else {
            unreachable!()
        };
        let served = self.index.users(&fan.title, fan.reach, fan.cursor, most)?;
        let cursor = cursor_behind(&served, fan.cursor);
        let behind = self.index.users(&fan.title, fan.reach, cursor, 1)?;
        let is_last = behind.len() == 0;
        Ok((served, is_last))
    }

    /// Queues a refresh of each of the pages that has none, in order, and takes away the first fan job, which there is,
    /// or says that it has served the pages up to the last of these. There is room for the refresh jobs. Takes no memory.
    pub fn serve_fan(&mut self, served: &[u32], is_last: bool)
        requires there { 0 < length self.old.state.jobs.fans }
        requires room { length served.now ≤ self.old.room.refreshes }
        requires numbers { self.old.state.jobs.next + length served.now ≤ 2 ^ 63 }
        ensures state { self.new.state ≡ with_jobs self.old.state (jobs_served self.old.state.jobs served.now is_last) }
        // It is the step of a fan where the pages are those that it serves next.
        ensures fanned { (most : ℕ) → IsNextServed self.old.state most served.now is_last
            → after_fan self.old.state.stored most self.old.state.jobs ≡ Some self.new.state.jobs }
    {
        queue_all(&mut self.jobs, served);
        serve_first(&mut self.jobs, served, is_last);
    }
}

/// The last of the pages, or the cursor where there is none.
fn cursor_behind(served: &[u32], cursor: u32) -> u32
    ensures { result ≡ cursor_behind served.now cursor }
{
    match last_of(served) {
        Some(page) => page,
        None => cursor,
    }
}

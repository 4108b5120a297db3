//! The job lists of a wiki.
ghost use Rattle.std.specs.Prelude.{◌≡◌, ◌+◌, ◌^◌, ◌≤◌, ◌<◌, ◌++◌, ◌∷◌, [], true, false, None, not, length, IsOk, IfOk, OnOk, OnErr};
ghost use Rattle.std.specs.Option.{option_copied};
ghost use Rattle.wk_wiki_rules.specs.Jobs.{IsNumbered, no_jobs, claimed_by, fan_dropped, fan_moved, fan_set, first_fan, first_queued, given_back, has_claimed, has_fan, has_refresh, left, page_held_by, refresh_dropped, refresh_queued};
ghost use Rattle.wk_wiki_rules.specs.Steps.{reopened_jobs};
ghost use Rattle.wk_jobs.specs.Entries.{job_of};
ghost use Rattle.wk_jobs.specs.Fans.{fan_of};

use crate::fans::{FanJob, Fans};
use crate::listed::ListedJobs;
use crate::refreshes::{RefreshJob, Refreshes};
use std::alloc::Global;
use std::marker::Model;
use wk_memory::Memory;
use wk_page_rules::Reach;
use wk_title::Title;
use wk_wiki_rules::Left;

/// The jobs of a wiki, in order: the refresh jobs, at most one a page, and the fan jobs, at most one a title. Each has
/// a number of its own, from 1 on. Contracts see the lists, and for how many jobs more of each kind there is room.
///
/// The claimed refresh jobs stand before the queued ones, in the order of their claims. The time of a call doesn't grow
/// with the jobs that are queued; that of `back` and `drop_refresh` grows with the tickets that are out, and that of
/// `set_fan` and `drop_fan` with the fan jobs.
#[derive(Drop)]
pub struct Jobs {
    refreshes: Refreshes,
    fans: Fans,
    next: u64,
}

impl Model for Jobs {
    ghost use Rattle.wk_wiki_rules.specs.Jobs.{IsNumbered};
    ghost use Rattle.wk_jobs.specs.HeldJobs.{HeldJobs};

    ghost Value = { HeldJobs };

    ghost use Rattle.wk_jobs.specs.Held.{held};

    ghost view = { held };

    ghost invariant = { λ j. IsNumbered (held j).lists };
}

impl Jobs {
    /// No jobs, and no room. Takes no memory.
    pub fn new(alloc: Global) -> Jobs
        ensures { result ≡ record { lists = no_jobs; refresh_room = 0; fan_room = 0 } }
    {
        Jobs {
            refreshes: Refreshes::new(alloc),
            fans: Fans::new(alloc),
            next: 1,
        }
    }

    /// Makes room for so many refresh jobs and fan jobs more. The lists stay as they were, and the room lasts until so
    /// many jobs are added.
    pub fn make_room(&mut self, refresh: usize, fans: usize) -> Result<(), Memory>
        ensures lists { self.new.lists ≡ self.old.lists }
        ensures refresh_room { OnOk result (refresh ≤ self.new.refresh_room) }
        ensures fan_room { OnOk result (fans ≤ self.new.fan_room) }
        ensures not_less { (self.old.refresh_room ≤ self.new.refresh_room) × (self.old.fan_room ≤ self.new.fan_room) }
    {
        self.refreshes.reserve(refresh)?;
        self.fans.reserve(fans)
    }

    /// Queues a refresh of the page at the end, with the next number, where the page has none, queued or claimed;
    /// whether it had none. Answers `Memory` only where no room was made, and then the lists stay as they were.
    pub fn queue_refresh(&mut self, page: u32) -> Result<bool, Memory>
        requires { self.old.lists.next < 2 ^ 63 }
        ensures lists { OnOk result (self.new.lists ≡ refresh_queued self.old.lists page) }
        ensures new { IfOk result (λ new. new ≡ not (has_refresh self.old.lists page)) }
        ensures refused { OnErr result (self.new.lists ≡ self.old.lists) }
        ensures room { 0 < self.old.refresh_room → IsOk result }
        ensures refresh_room { self.old.refresh_room ≤ self.new.refresh_room + 1 }
        ensures fan_room { self.new.fan_room ≡ self.old.fan_room }
    {
        if self.refreshes.has(page) {
            return Ok(false);
        }
        self.refreshes.reserve(1)?;
        self.refreshes.push(self.next, page);
        self.next += 1;
        Ok(true)
    }

    /// Begins the title's fan job anew, with the wider of both reaches, where it has one; else adds one at the end, with
    /// the next number. Answers `Memory` only where no room was made, and then the lists stay as they were.
    pub fn set_fan(&mut self, title: Title, reach: Reach) -> Result<(), Memory>
        requires { self.old.lists.next < 2 ^ 63 }
        ensures lists { OnOk result (self.new.lists ≡ fan_set self.old.lists title reach) }
        ensures refused { OnErr result (self.new.lists ≡ self.old.lists) }
        ensures room { 0 < self.old.fan_room → IsOk result }
        ensures refresh_room { self.new.refresh_room ≡ self.old.refresh_room }
        ensures fan_room { self.old.fan_room ≤ self.new.fan_room + 1 }
    {
        if self.fans.restart(&title, reach) {
            return Ok(());
        }
        self.fans.reserve(1)?;
        self.fans.push(FanJob {
            number: self.next,
            title,
            reach,
            cursor: 0,
        });
        self.next += 1;
        Ok(())
    }

    /// Appends a queued refresh job of a page that has none, with this number, which isn't below the next one.
    pub(crate) fn restore_refresh(&mut self, number: u64, page: u32) -> Result<(), Memory>
        requires next { self.old.lists.next ≤ number }
        requires bound { number < 2 ^ 63 }
        requires none { has_refresh self.old.lists page ≡ false }
        ensures { OnOk result (self.new.lists ≡ refresh_queued (record self.old.lists { next = number }) page) }
    {
        self.refreshes.reserve(1)?;
        self.refreshes.push(number, page);
        self.next = number + 1;
        Ok(())
    }

    /// Appends the fan job, of a title that has none, whose number isn't below the next one.
    pub(crate) fn restore_fan(&mut self, job: FanJob) -> Result<(), Memory>
        requires next { self.old.lists.next ≤ job.number }
        requires bound { job.number < 2 ^ 63 }
        requires none { has_fan self.old.lists job.title ≡ false }
        ensures { OnOk result (self.new.lists ≡ record self.old.lists { fans = self.old.lists.fans ++ job ∷ []; next = job.number + 1 }) }
    {
        let number = job.number;
        self.fans.reserve(1)?;
        self.fans.push(job);
        self.next = number + 1;
        Ok(())
    }

    /// The page of the first refresh job that is queued; `None` exactly where none is. Takes no memory.
    pub fn first_queued(&self) -> Option<u32>
        ensures { result ≡ first_queued self.now.lists }
    {
        self.refreshes.first_queued()
    }

    /// Claims the first refresh job that is queued, by the ticket of this number, and tells its page; `None` exactly
    /// where no refresh job is queued. Takes no memory.
    pub fn claim_first(&mut self, ticket: u64) -> Option<u32>
        ensures page { result ≡ first_queued self.old.lists }
        ensures lists { self.new.lists ≡ claimed_by self.old.lists ticket }
        ensures refresh_room { self.new.refresh_room ≡ self.old.refresh_room }
        ensures fan_room { self.new.fan_room ≡ self.old.fan_room }
    {
        self.refreshes.claim_first(ticket)
    }

    /// Queues the page's refresh job, which is claimed, at the end. Takes no memory.
    pub fn back(&mut self, page: u32)
        requires { has_claimed self.old.lists page ≡ true }
        ensures lists { self.new.lists ≡ given_back self.old.lists page }
        ensures refresh_room { self.new.refresh_room ≡ self.old.refresh_room }
        ensures fan_room { self.new.fan_room ≡ self.old.fan_room }
    {
        self.refreshes.back(page);
    }

    /// Takes away the page's refresh job, which is claimed. Takes no memory.
    pub fn drop_refresh(&mut self, page: u32)
        requires { has_claimed self.old.lists page ≡ true }
        ensures lists { self.new.lists ≡ refresh_dropped self.old.lists page }
        ensures refresh_room { self.new.refresh_room ≡ self.old.refresh_room }
        ensures fan_room { self.new.fan_room ≡ self.old.fan_room }
    {
        self.refreshes.remove(page);
    }

    /// The first fan job; `None` exactly where there is none. Takes no memory.
    pub fn first_fan(&self) -> Option<&FanJob>
        ensures { option_copied result ≡ first_fan self.now.lists }
    {
        self.fans.first()
    }

    /// Says that the first fan job, which there is, has served the pages up to the cursor. Takes no memory.
    pub fn move_fan(&mut self, cursor: u32)
        requires { 0 < length self.old.lists.fans }
        ensures lists { self.new.lists ≡ fan_moved self.old.lists cursor }
        ensures refresh_room { self.new.refresh_room ≡ self.old.refresh_room }
        ensures fan_room { self.new.fan_room ≡ self.old.fan_room }
    {
        self.fans.move_first(cursor);
    }

    /// Takes away the first fan job, which there is. Takes no memory.
    pub fn drop_fan(&mut self)
        requires { 0 < length self.old.lists.fans }
        ensures lists { self.new.lists ≡ fan_dropped self.old.lists }
        ensures refresh_room { self.new.refresh_room ≡ self.old.refresh_room }
        ensures fan_room { self.new.fan_room ≡ self.old.fan_room }
    {
        self.fans.remove_first();
    }

    /// Whether the page has a refresh job that is claimed. Takes no memory.
    pub fn is_claimed(&self, page: u32) -> bool
        ensures { result ≡ has_claimed self.now.lists page }
    {
        self.refreshes.is_claimed(page)
    }

    /// The page's refresh job, queued or claimed. Takes no memory.
    pub fn refresh_job(&self, page: u32) -> Option<RefreshJob>
        ensures { result ≡ job_of self.now.lists.refreshes page }
    {
        self.refreshes.job(page)
    }

    /// The page whose refresh job is claimed by the ticket of this number; `None` exactly where no job is. Takes no
    /// memory, and a time that grows with the tickets that are out.
    pub fn page_held(&self, ticket: u64) -> Option<u32>
        ensures { result ≡ page_held_by self.now.lists ticket }
    {
        self.refreshes.page_held(ticket)
    }

    /// The job lists of this moment. No title is copied.
    pub fn listed(&self) -> Result<ListedJobs, Memory>
        ensures { IfOk result (λ listed. listed ≡ self.now.lists) }
    {
        Ok(ListedJobs {
            refreshes: self.refreshes.listed()?,
            fans: self.fans.listed()?,
            next: self.next,
        })
    }

    /// The title's fan job. Takes no memory.
    pub fn fan_job(&self, title: &Title) -> Option<&FanJob>
        ensures { option_copied result ≡ fan_of self.now.lists.fans title.now }
    {
        self.fans.job(title)
    }

    /// Queues each refresh job, in the order of their numbers, and counts on from the greatest number of a job that
    /// stands, as a restart does. Takes no memory.
    pub fn reopen(&mut self)
        ensures lists { self.new.lists ≡ reopened_jobs self.old.lists }
        ensures refresh_room { self.new.refresh_room ≡ self.old.refresh_room }
        ensures fan_room { self.new.fan_room ≡ self.old.fan_room }
    {
        let refreshes = self.refreshes.greatest();
        let both = self.fans.greatest(refreshes);
        self.next = both + 1;
        self.refreshes.reopen();
    }

    /// The number of the next new job. Takes no memory.
    pub fn next_number(&self) -> u64
        ensures next { result ≡ self.now.lists.next }
        ensures numbered { IsNumbered self.now.lists }
    {
        self.next
    }

    /// How many jobs stand. Takes no memory.
    pub fn left(&self) -> Left
        ensures { result ≡ left self.now.lists }
    {
        Left {
            queued: self.refreshes.queued(),
            claimed: self.refreshes.claimed(),
            fans: self.fans.len(),
        }
    }
}

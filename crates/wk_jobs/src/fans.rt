//! The fan jobs, in their order.
ghost use Rattle.std.specs.Prelude.{◌≡◌, ◌+◌, ◌-◌, ◌≤◌, ◌<◌, ◌++◌, ◌∷◌, ◌==◌, [], true, false, map, fold, max, drop, length, position, IfOk, IsOk, OnOk, OnErr, slice_get, vec_len, vec_capacity};
ghost use Rattle.std.specs.List.{IsDistinct, list_any};
ghost use Rattle.std.specs.Option.{option_copied};
ghost use Rattle.wk_text_rules.specs.Titles.{title_eq};
ghost use Rattle.wk_wiki_rules.specs.Jobs.{set_anew, wider, with_first_cursor};
ghost use Rattle.wk_jobs.specs.Fans.{fan_of};

use crate::numbers::{Numbered, greatest};
use std::alloc::Global;
use std::marker::Model;
use wk_memory::Memory;
use wk_page_rules::Reach;
use wk_table_rows::{Share, share_all};
use wk_title::Title;

/// A job that queues a refresh of each page whose link rows name a title. Contracts see its fields.
#[derive(Drop, PartialEq, Eq)]
pub struct FanJob {
    /// The number of the job.
    pub number: u64,
    pub title: Title,
    /// Which rows count.
    pub reach: Reach,
    /// The number of the last page that was served since the job began, or began anew; 0 where none was.
    pub cursor: u32,
}

impl Model for FanJob {
    ghost use Rattle.wk_wiki_rules.specs.Jobs.{FanEntry};

    ghost Value = { FanEntry };

    ghost view = { λ j. record { number = j.number; title = j.title; reach = j.reach; cursor = j.cursor } };

    ghost inverse = { λ j. record { number = j.number; title = j.title; reach = j.reach; cursor = j.cursor } };
}

impl Numbered for FanJob {
    ghost number = { λ job. job.number };

    fn number(&self) -> u64 {
        self.number
    }
}

impl Share for FanJob {
    fn share(&self) -> Result<FanJob, Memory> {
        Ok(FanJob {
            number: self.number,
            title: self.title.share()?,
            reach: self.reach,
            cursor: self.cursor,
        })
    }
}

/// The fan jobs, at most one a title. Contracts see them in their order, and for how many more there is room.
///
/// A title's job is looked for among them from the front.
#[derive(Drop)]
pub struct Fans {
    jobs: Vec<FanJob>,
    spare: usize,
}

impl Model for Fans {
    ghost use Rattle.wk_jobs.specs.HeldFans.{HeldFans};

    ghost Value = { HeldFans };

    ghost use Rattle.wk_jobs.specs.Fans.{held_fans, KeepsFans};

    ghost view = { held_fans };

    ghost invariant = { KeepsFans };
}

/// The reach that covers both.
fn wider(a: Reach, b: Reach) -> Reach
    ensures { result ≡ wider a b }
{
    match a {
        Reach::Text => b,
        Reach::Both => Reach::Both,
    }
}

/// Where the title's job stands.
fn place_of_title(jobs: &[FanJob], title: &Title) -> Option<usize>
    ensures { result ≡ position (λ job. title_eq job.title title.now) jobs.now }
{
    jobs.iter().position(|job| job.title == *title)
}

/// Begins the job anew, with the wider of both reaches.
fn restart(job: &mut FanJob, reach: Reach)
    ensures { job.new ≡ record job.old { reach = wider job.old.reach reach; cursor = 0 } }
{
    job.reach = wider(job.reach, reach);
    job.cursor = 0;
}

/// Begins the title's job anew, where there is one, with the wider of both reaches, and tells whether there is one.
fn restart_title(jobs: &mut [FanJob], title: &Title, reach: Reach) -> bool
    requires { IsDistinct title_eq (map (λ job. job.title) jobs.old) }
    ensures jobs { jobs.new ≡ map (set_anew title.now reach) jobs.old }
    ensures there { result ≡ list_any (λ job. title_eq job.title title.now) jobs.old }
    ensures none { result ≡ false → jobs.new ≡ jobs.old }
{
    match place_of_title(jobs, title) {
        Some(place) => {
            restart(&mut jobs[place], reach);
            true
        }
        None => false,
    }
}

/// Moves the cursor of the first job.
fn move_first(jobs: &mut [FanJob], cursor: u32)
    requires { 0 < length jobs.old }
    ensures { jobs.new ≡ with_first_cursor jobs.old cursor }
{
    let first = &mut jobs[0];
    first.cursor = cursor;
}

impl Fans {
    /// No jobs, and no room. Takes no memory.
    pub fn new(alloc: Global) -> Fans
        ensures { result ≡ record { jobs = []; spare = 0 } }
    {
        Fans {
            jobs: Vec::new(alloc),
            spare: 0,
        }
    }

    /// Makes room for this many jobs more than there are. Room that was there before stays. Where there is so much room
    /// already, no memory is taken.
    pub fn reserve(&mut self, more: usize) -> Result<(), Memory>
        ensures jobs { self.new.jobs ≡ self.old.jobs }
        ensures room { OnOk result (more ≤ self.new.spare) }
        ensures not_less { self.old.spare ≤ self.new.spare }
        ensures there { more ≤ self.old.spare → IsOk result }
        ensures refused { OnErr result (self.new.spare ≡ self.old.spare) }
    {
        if more <= self.spare {
            return Ok(());
        }
        self.jobs.reserve(more)?;
        self.spare = more;
        Ok(())
    }

    /// The first job. Takes no memory.
    pub fn first(&self) -> Option<&FanJob>
        ensures { option_copied result ≡ slice_get self.now.jobs 0 }
    {
        self.jobs.first()
    }

    /// The title's job. Takes no memory.
    pub fn job(&self, title: &Title) -> Option<&FanJob>
        ensures { option_copied result ≡ fan_of self.now.jobs title.now }
    {
        self.jobs.iter().find(|job| job.title == *title)
    }

    /// The jobs, in a list of their own. No title is copied.
    pub fn listed(&self) -> Result<Vec<FanJob>, Memory>
        ensures { IfOk result (λ jobs. jobs.items ≡ self.now.jobs) }
    {
        share_all(*self.jobs.allocator(), &self.jobs)
    }

    /// How many jobs there are. Takes no memory.
    pub fn len(&self) -> u64
        ensures { result ≡ length self.now.jobs }
    {
        self.jobs.len() as u64
    }

    /// The greatest number of a job or this one. Takes no memory.
    pub fn greatest(&self, number: u64) -> u64
        ensures { result ≡ fold max number (map (λ job. job.number) self.now.jobs) }
    {
        greatest(number, &self.jobs)
    }

    /// Begins the title's job anew, where there is one, with the wider of both reaches, and tells whether there is one.
    /// Takes no memory.
    pub fn restart(&mut self, title: &Title, reach: Reach) -> bool
        ensures jobs { self.new.jobs ≡ map (set_anew title.now reach) self.old.jobs }
        ensures there { result ≡ list_any (λ job. title_eq job.title title.now) self.old.jobs }
        ensures none { result ≡ false → self.new.jobs ≡ self.old.jobs }
        ensures spare { self.new.spare ≡ self.old.spare }
    {
        restart_title(&mut self.jobs, title, reach)
    }

    /// Appends the job, of a title that has none. Takes no memory.
    pub fn push(&mut self, job: FanJob)
        requires none { list_any (λ other. title_eq other.title job.title) self.old.jobs ≡ false }
        requires room { 0 < self.old.spare }
        ensures jobs { self.new.jobs ≡ self.old.jobs ++ job ∷ [] }
        ensures spare { self.new.spare + 1 ≡ self.old.spare }
    {
        self.jobs.push_reserved(job);
        self.spare -= 1;
    }

    /// Moves the cursor of the first job, which there is. Takes no memory.
    pub fn move_first(&mut self, cursor: u32)
        requires { 0 < length self.old.jobs }
        ensures jobs { self.new.jobs ≡ with_first_cursor self.old.jobs cursor }
        ensures spare { self.new.spare ≡ self.old.spare }
    {
        move_first(&mut self.jobs, cursor);
    }

    /// Takes away the first job, which there is. Takes no memory.
    pub fn remove_first(&mut self)
        requires { 0 < length self.old.jobs }
        ensures jobs { self.new.jobs ≡ drop 1 self.old.jobs }
        ensures spare { self.new.spare ≡ self.old.spare }
    {
        let _ = self.jobs.remove(0);
    }
}

//! The refresh jobs: those that are claimed, in the order of their claims, and behind them those that wait.
ghost use Rattle.std.specs.Prelude.{◌≡◌, ◌+◌, ◌≤◌, ◌<◌, ◌++◌, ◌∷◌, ◌==◌, [], true, false, None, ◌&&◌, map, fold, max, position, find, length, count_by, is_some, IfOk, IsOk, OnOk, OnErr, vec_len, vec_capacity, nat_eq, option_map};
ghost use Rattle.std.specs.List.{IsDistinct, list_any};
ghost use Rattle.std.specs.VecDeque.{deque_len, deque_capacity};
ghost use Rattle.wk_wiki_rules.specs.Steps.{by_number};
ghost use Rattle.wk_wiki_rules.specs.Jobs.{first_claimed, is_claimed, is_held_by, is_queued, jobs_of, jobs_of_others, queued_again};
ghost use Rattle.wk_jobs.specs.Entries.{claimed_entry, entries, job_of, queued_entry};

use crate::numbers::{Numbered, greatest};
use std::alloc::Global;
use std::collections::{HashMap, VecDeque};
use std::marker::Model;
use std::mem;
use wk_memory::Memory;

/// A refresh job of a page. Contracts see its fields.
#[derive(Clone, Copy, PartialEq, Eq)]
pub struct RefreshJob {
    /// The number of the job.
    pub number: u64,
    /// The number of the page.
    pub page: u32,
    /// The ticket by which the job is claimed, or `None` while it is queued.
    pub ticket: Option<u64>,
}

impl Model for RefreshJob {
    ghost use Rattle.wk_wiki_rules.specs.Jobs.{RefreshEntry};

    ghost Value = { RefreshEntry };

    ghost view = { λ j. record { number = j.number; page = j.page; ticket = j.ticket } };

    ghost inverse = { λ j. record { number = j.number; page = j.page; ticket = j.ticket } };
}

/// A job that is claimed.
#[derive(Drop)]
struct ClaimedJob {
    number: u64,
    page: u32,
    ticket: u64,
}

/// A job that waits.
#[derive(Drop)]
struct QueuedJob {
    number: u64,
    page: u32,
}

/// The refresh jobs, at most one a page. Contracts see them in their order, and for how many more there is room.
///
/// A page's job is found in the map, and where it is claimed among the claimed ones, which are as many as tickets are
/// out. No call walks over the jobs that wait.
#[derive(Drop)]
pub struct Refreshes {
    claimed: Vec<ClaimedJob>,
    queued: VecDeque<QueuedJob>,
    numbers: HashMap<u32, u64>,
    spare: usize,
}

impl Numbered for ClaimedJob {
    ghost number = { λ job. job.number };

    fn number(&self) -> u64 {
        self.number
    }
}

impl Numbered for QueuedJob {
    ghost number = { λ job. job.number };

    fn number(&self) -> u64 {
        self.number
    }
}

impl Model for Refreshes {
    ghost use Rattle.wk_jobs.specs.HeldRefreshes.{HeldRefreshes};

    ghost Value = { HeldRefreshes };

    ghost use Rattle.wk_jobs.specs.Refreshes.{held_refreshes, KeepsRefreshes};

    ghost view = { held_refreshes };

    ghost invariant = { KeepsRefreshes };
}

/// Where the page's claimed job stands.
fn place_of_page(claimed: &[ClaimedJob], page: u32) -> Option<usize>
    ensures { result ≡ position (λ job. job.page == page) claimed.now }
{
    claimed.iter().position(|job| job.page == page)
}

/// The page of the job that is claimed by the ticket.
fn page_of_ticket(claimed: &[ClaimedJob], ticket: u64) -> Option<u32>
    ensures { result ≡ option_map (λ job. job.page) (find (λ job. job.ticket == ticket) claimed.now) }
{
    claimed
        .iter()
        .find(|job| job.ticket == ticket)
        .map(|job| job.page)
}

/// The job that is claimed, with its ticket.
fn claimed_job(job: &ClaimedJob) -> RefreshJob
    ensures { result ≡ claimed_entry job.now }
{
    RefreshJob {
        number: job.number,
        page: job.page,
        ticket: Some(job.ticket),
    }
}

/// The job that waits.
fn queued_job(job: &QueuedJob) -> RefreshJob
    ensures { result ≡ queued_entry job.now }
{
    RefreshJob {
        number: job.number,
        page: job.page,
        ticket: None,
    }
}

/// Appends the claimed jobs to a list.
fn push_claimed(jobs: &mut Vec<RefreshJob>, claimed: &[ClaimedJob]) -> Result<(), Memory>
    ensures { OnOk result (jobs.new.items ≡ jobs.old.items ++ map claimed_entry claimed.now) }
{
    for job in claimed {
        jobs.push(claimed_job(job))?;
    }
    Ok(())
}

/// Appends the jobs that wait to a list.
fn push_queued(jobs: &mut Vec<RefreshJob>, queued: &[QueuedJob]) -> Result<(), Memory>
    ensures { OnOk result (jobs.new.items ≡ jobs.old.items ++ map queued_entry queued.now) }
{
    for job in queued {
        jobs.push(queued_job(job))?;
    }
    Ok(())
}

/// Takes the page's job out of the claimed ones, which have one of the page.
fn take_claimed(claimed: &mut Vec<ClaimedJob>, page: u32) -> ClaimedJob
    requires one { IsDistinct nat_eq (map (λ job. job.page) (map claimed_entry claimed.old.items)) }
    requires there { list_any (λ job. job.page == page) claimed.old.items ≡ true }
    ensures others { map claimed_entry claimed.new.items ≡ jobs_of_others page (map claimed_entry claimed.old.items) }
    ensures own { jobs_of page (map claimed_entry claimed.old.items) ≡ claimed_entry result ∷ [] }
    ensures len { vec_len claimed.new + 1 ≡ vec_len claimed.old }
    ensures capacity { vec_capacity claimed.new ≡ vec_capacity claimed.old }
{
    let place = place_of_page(claimed, page).unwrap();
    claimed.remove(place)
}

/// All jobs, each of which waits, in the order of their numbers.
fn all_by_number(claimed: &[ClaimedJob], queued: VecDeque<QueuedJob>) -> VecDeque<QueuedJob>
    requires room { deque_len queued + length claimed.now ≤ deque_capacity queued }
    requires own { IsDistinct nat_eq (map (λ job. job.number) (entries claimed.now queued.items)) }
    ensures jobs { map queued_entry result.items ≡ map queued_again (by_number (λ job. job.number) (entries claimed.now queued.items)) }
    ensures len { deque_len result ≡ deque_len queued + length claimed.now }
    ensures capacity { deque_capacity result ≡ deque_capacity queued }
{
    let mut jobs = queued.into_vec();
    for job in claimed {
        jobs.push_reserved(QueuedJob {
            number: job.number,
            page: job.page,
        });
    }
    jobs.sort_unstable_by_key(|job| job.number);
    VecDeque::from_vec(jobs)
}

impl Refreshes {
    /// No jobs, and no room. Takes no memory.
    pub fn new(alloc: Global) -> Refreshes
        ensures { result ≡ record { jobs = []; spare = 0 } }
    {
        Refreshes {
            claimed: Vec::new(alloc),
            queued: VecDeque::new(alloc),
            numbers: HashMap::new(alloc),
            spare: 0,
        }
    }

    /// Makes room for this many jobs more than there are. Room that was there before stays. Where there is so much room
    /// already, no memory is taken.
    pub fn reserve(&mut self, more: usize) -> Result<(), Memory>
        ensures jobs { self.new.jobs ≡ self.old.jobs }
        ensures room { OnOk result (more ≤ self.new.spare) }
        ensures not_less { self.old.spare ≤ self.new.spare }
        ensures there { more ≤ self.old.spare → IsOk result }
        ensures refused { OnErr result (self.new.spare ≡ self.old.spare) }
    {
        if more <= self.spare {
            return Ok(());
        }
        let beside_queued = self.queued.len().checked_add(more).ok_or(Memory)?;
        let beside_claimed = self.claimed.len().checked_add(more).ok_or(Memory)?;
        self.claimed.reserve(beside_queued)?;
        self.queued.reserve(beside_claimed)?;
        self.numbers.reserve(more)?;
        self.spare = more;
        Ok(())
    }

    /// Whether the page has a job. Takes no memory.
    pub fn has(&self, page: u32) -> bool
        ensures { result ≡ list_any (λ job. job.page == page) self.now.jobs }
    {
        self.numbers.contains_key(&page)
    }

    /// Whether the page has a job that is claimed. Takes no memory.
    pub fn is_claimed(&self, page: u32) -> bool
        ensures { result ≡ list_any (λ job. job.page == page && is_claimed job) self.now.jobs }
    {
        place_of_page(&self.claimed, page).is_some()
    }

    /// The page's job. Takes no memory.
    pub fn job(&self, page: u32) -> Option<RefreshJob>
        ensures { result ≡ job_of self.now.jobs page }
    {
        if let Some(place) = place_of_page(&self.claimed, page) {
            let job = &self.claimed[place];
            return Some(claimed_job(job));
        }
        match self.numbers.get(&page) {
            Some(number) => Some(RefreshJob {
                number: *number,
                page,
                ticket: None,
            }),
            None => None,
        }
    }

    /// The page of the job that is claimed by the ticket. Takes no memory.
    pub fn page_held(&self, ticket: u64) -> Option<u32>
        ensures { result ≡ option_map (λ job. job.page) (find (is_held_by ticket) self.now.jobs) }
    {
        page_of_ticket(&self.claimed, ticket)
    }

    /// The jobs, in a list of their own.
    pub fn listed(&self) -> Result<Vec<RefreshJob>, Memory>
        ensures { IfOk result (λ jobs. jobs.items ≡ self.now.jobs) }
    {
        let mut jobs = Vec::with_capacity(*self.claimed.allocator(), self.numbers.len())?;
        let (front, behind) = self.queued.as_slices();
        push_claimed(&mut jobs, &self.claimed)?;
        push_queued(&mut jobs, front)?;
        push_queued(&mut jobs, behind)?;
        Ok(jobs)
    }

    /// Appends a job of a page that has none. Takes no memory.
    pub fn push(&mut self, number: u64, page: u32)
        requires none { list_any (λ job. job.page == page) self.old.jobs ≡ false }
        requires room { 0 < self.old.spare }
        ensures jobs { self.new.jobs ≡ self.old.jobs ++ record { number = number; page = page; ticket = None } ∷ [] }
        ensures spare { self.new.spare + 1 ≡ self.old.spare }
    {
        let put: Result<_, _> = self.numbers.insert(page, number);
        let _ = put.unwrap();
        let job = QueuedJob { number, page };
        self.queued.push_back_reserved(job);
        self.spare -= 1;
    }

    /// The page of the first job that is queued. Takes no memory.
    pub fn first_queued(&self) -> Option<u32>
        ensures { result ≡ option_map (λ job. job.page) (find is_queued self.now.jobs) }
    {
        match self.queued.front() {
            Some(job) => Some(job.page),
            None => None,
        }
    }

    /// Claims the first job that is queued, by the ticket, and tells its page. Takes no memory.
    pub fn claim_first(&mut self, ticket: u64) -> Option<u32>
        ensures page { result ≡ option_map (λ job. job.page) (find is_queued self.old.jobs) }
        ensures jobs { self.new.jobs ≡ first_claimed self.old.jobs ticket }
        ensures spare { self.new.spare ≡ self.old.spare }
    {
        let QueuedJob { number, page } = self.queued.pop_front()?;
        self.claimed.push_reserved(ClaimedJob {
            number,
            page,
            ticket,
        });
        Some(page)
    }

    /// Queues the page's job, which is claimed, at the end. Takes no memory.
    pub fn back(&mut self, page: u32)
        requires { list_any (λ job. job.page == page && is_claimed job) self.old.jobs ≡ true }
        ensures jobs { self.new.jobs ≡ jobs_of_others page self.old.jobs ++ map queued_again (jobs_of page self.old.jobs) }
        ensures spare { self.new.spare ≡ self.old.spare }
    {
        let ClaimedJob { number, page, .. } = take_claimed(&mut self.claimed, page);
        self.queued.push_back_reserved(QueuedJob { number, page });
    }

    /// Takes away the page's job, which is claimed. Takes no memory.
    pub fn remove(&mut self, page: u32)
        requires { list_any (λ job. job.page == page && is_claimed job) self.old.jobs ≡ true }
        ensures jobs { self.new.jobs ≡ jobs_of_others page self.old.jobs }
        ensures spare { self.new.spare ≡ self.old.spare }
    {
        let _ = take_claimed(&mut self.claimed, page);
        let _ = self.numbers.remove(&page);
    }

    /// Queues all jobs, in the order of their numbers, of which no two are the same. Takes no memory.
    pub fn reopen(&mut self)
        requires { IsDistinct nat_eq (map (λ job. job.number) self.old.jobs) }
        ensures jobs { self.new.jobs ≡ map queued_again (by_number (λ job. job.number) self.old.jobs) }
        ensures spare { self.new.spare ≡ self.old.spare }
    {
        let alloc = *self.queued.allocator();
        let queued = mem::replace(&mut self.queued, VecDeque::new(alloc));
        self.queued = all_by_number(&self.claimed, queued);
        self.claimed.clear();
    }

    /// The greatest number of a job, 0 where there is none. Takes no memory.
    pub fn greatest(&self) -> u64
        ensures { result ≡ fold max 0 (map (λ job. job.number) self.now.jobs) }
    {
        let (front, behind) = self.queued.as_slices();
        let claimed = greatest(0, &self.claimed);
        let waiting = greatest(claimed, front);
        greatest(waiting, behind)
    }

    /// How many jobs wait. Takes no memory.
    pub fn queued(&self) -> u64
        ensures { result ≡ count_by is_queued self.now.jobs }
    {
        self.queued.len() as u64
    }

    /// How many jobs are claimed. Takes no memory.
    pub fn claimed(&self) -> u64
        ensures { result ≡ count_by is_claimed self.now.jobs }
    {
        self.claimed.len() as u64
    }
}

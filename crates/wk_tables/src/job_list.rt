//! The rows of the job table, of which one is changed or taken away by its number.
ghost use Rattle.std.specs.Prelude.{◌≡◌, ◌+◌, ◌≤◌, ◌<◌, ◌++◌, ◌∷◌, ◌↔◌, [], true, length, map, position, Bool, vec_len, vec_capacity, IsTrue, IfOk, OnOk};
ghost use Rattle.std.specs.List.{All};
ghost use Rattle.std.specs.Option.{option_to_list};
ghost use Rattle.wk_table_rules.specs.Changes.{with_job, without_job};
ghost use Rattle.wk_tables.specs.Jobs.{KeepsJobs, holds, rows_in, slot_of};
ghost use Rattle.wk_table_rows.specs.Rising.{IsRising};

use std::alloc::Global;
use std::marker::Model;
use wk_memory::Memory;
use wk_table_rows::{JobRow, Numbered, Share, is_rising, place_in_order};

/// The place of a job: its number, and its row until it is taken away.
#[derive(Drop)]
struct JobSlot {
    number: u64,
    row: Option<JobRow>,
}

impl Numbered for JobSlot {
    ghost number = { λ slot. slot.number };

    fn number(&self) -> u64 {
        self.number
    }
}

/// The rows of the job table in order. Contracts see them, how many places are empty, and for how many more rows there is
/// room.
///
/// Where the numbers rise, as in a good store, a job is found by halving the list, and a job that is taken away leaves
/// its place empty. Places that are empty go when room is made and they are more than half of all, or with the last
/// job before them. Elsewhere a job is looked for from the front, and its place goes with it.
#[derive(Drop)]
pub struct JobList {
    slots: Vec<JobSlot>,
    is_in_order: bool,
    empty: usize,
    spare: usize,
}

impl Model for JobList {
    ghost use Rattle.std.specs.Prelude.{◌≡◌, ◌+◌, ◌≤◌, length, vec_len, vec_capacity};
    ghost use Rattle.wk_tables.specs.JobsHeld.{JobsHeld};

    ghost Value = { JobsHeld };

    ghost use Rattle.wk_tables.specs.Jobs.{rows_in, KeepsJobs};

    ghost view = { λ j. record { rows = rows_in j.slots.items; empty = j.empty; spare = j.spare } };

    ghost invariant = { λ j. KeepsJobs j.slots.items j.is_in_order × (j.spare + vec_len j.slots ≤ vec_capacity j.slots) × (vec_len j.slots ≡ length (rows_in j.slots.items) + j.empty) };
}

/// Where the job with this number stands.
fn place_of_job(slots: &[JobSlot], is_in_order: bool, number: u64) -> Option<usize>
    requires { is_in_order ≡ true → IsRising (λ slot. slot.number) slots.now }
    ensures { result ≡ position (holds number) slots.now }
{
    if is_in_order {
        match place_in_order(slots, number) {
            Some(place) if slots[place].row.is_some() => Some(place),
            _ => None,
        }
    } else {
        slots
            .iter()
            .position(|slot| slot.number == number && slot.row.is_some())
    }
}

/// Takes away the empty places behind the last job.
fn drop_empty_end(slots: &mut Vec<JobSlot>)
    ensures rows { rows_in slots.new.items ≡ rows_in slots.old.items }
    ensures holds { length (rows_in slots.new.items) ≤ vec_len slots.new }
    ensures keeps { (is_in_order : Bool) → KeepsJobs slots.old.items is_in_order → KeepsJobs slots.new.items is_in_order }
    ensures len { vec_len slots.new ≤ vec_len slots.old }
    ensures capacity { vec_capacity slots.new ≡ vec_capacity slots.old }
{
    while let Some(last) = slots.last() {
        if last.row.is_some() {
            break;
        }
        slots.truncate(slots.len() - 1);
    }
}

/// Takes away all empty places.
fn drop_empty(slots: &mut Vec<JobSlot>)
    ensures rows { rows_in slots.new.items ≡ rows_in slots.old.items }
    ensures none { vec_len slots.new ≡ length (rows_in slots.new.items) }
    ensures keeps { (is_in_order : Bool) → KeepsJobs slots.old.items is_in_order → KeepsJobs slots.new.items is_in_order }
    ensures len { vec_len slots.new ≤ vec_len slots.old }
    ensures capacity { vec_capacity slots.new ≡ vec_capacity slots.old }
{
    slots.retain(|slot| slot.row.is_some());
}

/// Whether the number is above those of all places.
fn is_above_all(slots: &[JobSlot], number: u64) -> bool
    requires { IsRising (λ slot. slot.number) slots.now }
    ensures { IsTrue result ↔ All (λ slot. slot.number < number) slots.now }
{
    match slots.last() {
        Some(last) => last.number < number,
        None => true,
    }
}

/// Appends the place of the job, and tells whether the numbers still rise.
fn push_row(slots: &mut Vec<JobSlot>, is_in_order: bool, row: JobRow) -> bool
    requires keeps { KeepsJobs slots.old.items is_in_order }
    requires room { vec_len slots.old < vec_capacity slots.old }
    ensures rows { rows_in slots.new.items ≡ rows_in slots.old.items ++ row ∷ [] }
    ensures keeps { KeepsJobs slots.new.items result }
    ensures len { vec_len slots.new ≡ vec_len slots.old + 1 }
    ensures capacity { vec_capacity slots.new ≡ vec_capacity slots.old }
{
    let is_in_order = is_in_order && is_above_all(slots, row.job_id);
    slots.push_reserved(JobSlot {
        number: row.job_id,
        row: Some(row),
    });
    is_in_order
}

/// Puts the row in the place of the first job of its number, where there is one.
fn set_row(slots: &mut [JobSlot], is_in_order: bool, row: JobRow)
    requires { KeepsJobs slots.old is_in_order }
    ensures rows { rows_in slots.new ≡ with_job (rows_in slots.old) row }
    ensures as_many { length (rows_in slots.new) ≡ length (rows_in slots.old) }
    ensures keeps { KeepsJobs slots.new is_in_order }
{
    if let Some(place) = place_of_job(slots, is_in_order, row.job_id) {
        slots[place] = JobSlot {
            number: row.job_id,
            row: Some(row),
        };
    }
}

/// Empties the place of the first job of this number, where there is one, and tells how many places that are.
fn take_row(slots: &mut [JobSlot], is_in_order: bool, number: u64) -> usize
    requires { KeepsJobs slots.old is_in_order }
    ensures rows { rows_in slots.new ≡ without_job (rows_in slots.old) number }
    ensures keeps { KeepsJobs slots.new is_in_order }
    ensures emptied { length (rows_in slots.new) + result ≡ length (rows_in slots.old) }
{
    match place_of_job(slots, is_in_order, number) {
        Some(place) => {
            slots[place] = JobSlot { number, row: None };
            1
        }
        None => 0,
    }
}

/// Appends the row, where there is one, for a further owner.
fn push_shared(rows: &mut Vec<JobRow>, row: &Option<JobRow>) -> Result<(), Memory>
    ensures { OnOk result (rows.new.items ≡ rows.old.items ++ option_to_list row.now) }
{
    match row {
        Some(row) => {
            rows.push(row.share()?)?;
            Ok(())
        }
        None => Ok(()),
    }
}

/// Places of these jobs.
fn slots_of(alloc: Global, rows: Vec<JobRow>) -> Result<Vec<JobSlot>, Memory>
    ensures { IfOk result (λ slots. slots.items ≡ map slot_of rows.items) }
{
    let mut slots = Vec::with_capacity(alloc, rows.len())?;
    for row in rows {
        slots.push(JobSlot {
            number: row.job_id,
            row: Some(row),
        })?;
    }
    Ok(slots)
}

impl JobList {
    /// No jobs, and no room. Takes no memory.
    pub fn new(alloc: Global) -> JobList
        ensures { result ≡ record { rows = []; empty = 0; spare = 0 } }
    {
        JobList {
            slots: Vec::new(alloc),
            is_in_order: true,
            empty: 0,
            spare: 0,
        }
    }

    /// These jobs, in this order.
    pub fn from_rows(alloc: Global, rows: Vec<JobRow>) -> Result<JobList, Memory>
        ensures { IfOk result (λ jobs. jobs.rows ≡ rows.items) }
    {
        let slots = slots_of(alloc, rows)?;
        let is_in_order = is_rising(&slots);
        Ok(JobList {
            slots,
            is_in_order,
            empty: 0,
            spare: 0,
        })
    }

    /// Takes away the empty places, where they are more than half of all.
    fn compact(&mut self)
        ensures rows { self.new.rows ≡ self.old.rows }
        ensures spare { self.new.spare ≡ self.old.spare }
        ensures few { self.new.empty ≤ length self.new.rows }
    {
        if self.slots.len() / 2 < self.empty {
            drop_empty(&mut self.slots);
            self.empty = 0;
        }
    }

    /// Makes room for this many jobs more than there are. Room that was there before stays, and no more places are empty
    /// than there are jobs.
    pub fn reserve(&mut self, more: usize) -> Result<(), Memory>
        ensures rows { self.new.rows ≡ self.old.rows }
        ensures room { OnOk result (more ≤ self.new.spare) }
        ensures not_less { self.old.spare ≤ self.new.spare }
        ensures few_empty { self.new.empty ≤ length self.new.rows }
    {
        self.compact();
        self.slots.reserve(more)?;
        self.spare = self.spare.max(more);
        Ok(())
    }

    /// Appends the job. Takes no memory.
    pub fn add(&mut self, row: JobRow)
        requires room { 0 < self.old.spare }
        ensures rows { self.new.rows ≡ self.old.rows ++ row ∷ [] }
        ensures spare { self.new.spare + 1 ≡ self.old.spare }
    {
        let before = self.slots.len();
        drop_empty_end(&mut self.slots);
        self.empty -= before - self.slots.len();
        self.is_in_order = push_row(&mut self.slots, self.is_in_order, row);
        self.spare -= 1;
    }

    /// Puts the row in the place of the first job of its number, where there is one. Takes no memory.
    pub fn set(&mut self, row: JobRow)
        ensures rows { self.new.rows ≡ with_job self.old.rows row }
        ensures spare { self.new.spare ≡ self.old.spare }
    {
        set_row(&mut self.slots, self.is_in_order, row);
    }

    /// Takes away the first job of this number, where there is one. Takes no memory.
    pub fn take_away(&mut self, number: u64)
        ensures rows { self.new.rows ≡ without_job self.old.rows number }
        ensures spare { self.new.spare ≡ self.old.spare }
    {
        self.empty += take_row(&mut self.slots, self.is_in_order, number);
    }

    /// The jobs, for a further owner.
    pub fn rows(&self) -> Result<Vec<JobRow>, Memory>
        ensures { IfOk result (λ rows. rows.items ≡ self.now.rows) }
    {
        let mut rows = Vec::new(*self.slots.allocator());
        for slot in &self.slots {
            push_shared(&mut rows, &slot.row)?;
        }
        Ok(rows)
    }
}

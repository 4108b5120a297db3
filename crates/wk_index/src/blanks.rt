//! Lists without rows, for pages to come.
ghost use Rattle.std.specs.Prelude.{◌≡◌, ◌+◌, ◌<◌, ◌≤◌, IfOk, OnOk, vec_len};
ghost use Rattle.std.specs.List.{All};
ghost use Rattle.wk_page_rules.specs.PageRows.{no_rows};

use crate::shared_rows::SharedRows;
use std::alloc::Global;
use std::marker::Model;
use wk_memory::Memory;
use wk_table_rows::PageRows;

/// Lists without rows, for pages to come, shared: each costs a pointer. Contracts see how many there are.
#[derive(Drop)]
pub struct Blanks {
    rows: Vec<SharedRows>,
}

impl Model for Blanks {
    ghost use Rattle.std.specs.Prelude.{◌≡◌, ℕ, vec_len};
    ghost use Rattle.std.specs.List.{All};
    ghost use Rattle.wk_page_rules.specs.PageRows.{no_rows};

    ghost Value = { ℕ };

    ghost view = { λ b. vec_len b.rows };

    ghost invariant = { λ b. All (λ rows. rows ≡ no_rows) b.rows.items };
}

impl Blanks {
    /// None. Takes no memory.
    pub fn new(alloc: Global) -> Blanks
        ensures { result ≡ 0 }
    {
        Blanks {
            rows: Vec::new(alloc),
        }
    }

    /// Adds until there are more than this many, so that one is left to be shared.
    pub fn fill(&mut self, count: usize) -> Result<(), Memory>
        ensures filled { OnOk result (count < self.new) }
        ensures not_less { self.old ≤ self.new }
    {
        fill(&mut self.rows, count)
    }

    /// Takes one. Takes no memory.
    pub fn take(&mut self) -> SharedRows
        requires { 0 < self.old }
        ensures blank { result ≡ no_rows }
        ensures fewer { self.new + 1 ≡ self.old }
    {
        match self.rows.pop() {
            Some(rows) => rows,
            None => unreachable!(),
        }
    }
}

/// Adds lists without rows until there are more than this many.
fn fill(blanks: &mut Vec<SharedRows>, count: usize) -> Result<(), Memory>
    requires { All (λ rows. rows ≡ no_rows) blanks.old.items }
    ensures blank { All (λ rows. rows ≡ no_rows) blanks.new.items }
    ensures filled { OnOk result (count < vec_len blanks.new) }
    ensures not_less { vec_len blanks.old ≤ vec_len blanks.new }
{
    while blanks.len() <= count {
        let blank = one_more(blanks)?;
        blanks.push(blank)?;
    }
    Ok(())
}

/// One more, shared with the last where there is one.
fn one_more(blanks: &Vec<SharedRows>) -> Result<SharedRows, Memory>
    requires { All (λ rows. rows ≡ no_rows) blanks.now.items }
    ensures { IfOk result (λ rows. rows ≡ no_rows) }
{
    match blanks.last() {
        Some(rows) => rows.share(),
        None => SharedRows::new(PageRows::new(*blanks.allocator())),
    }
}

//! The rows of one page among those of all pages, which are numbered from 1.
ghost use Rattle.std.specs.Prelude.{◌≡◌, IfOk, IsSome, vec_len, vec_capacity};
ghost use Rattle.std.specs.Option.{option_copied};
ghost use Rattle.wk_wiki_rules.specs.Names.{admitted, with_rows_at};
ghost use Rattle.wk_index.specs.Held.{rows_of};
ghost use Rattle.wk_index.specs.Named.{rows_at};

use crate::joined::joined_rows;
use crate::shared_rows::SharedRows;
use std::mem;
use wk_memory::Memory;
use wk_table_rows::PageRows;

/// The rows of the page with this number.
pub fn rows_at(stored: &[SharedRows], page: u32) -> Option<&SharedRows>
    ensures { option_copied result ≡ rows_at stored.now page }
{
    if page == 0 {
        return None;
    }
    stored.get(page as usize - 1)
}

/// The rows of the page, which is there, and these, for a page that has them between the two halves of a change.
pub fn joined_at(stored: &[SharedRows], page: u32, rows: &PageRows) -> Result<PageRows, Memory>
    requires { IsSome (rows_at stored.now page) }
    ensures { IfOk result (λ joined. joined ≡ admitted (rows_of stored.now page) rows.now) }
{
    match rows_at(stored, page) {
        Some(old) => joined_rows(old.rows(), rows),
        None => unreachable!(),
    }
}

/// Makes these the rows of the page, which is there, and gives those that it had. Takes no memory.
pub fn replace_rows(stored: &mut Vec<SharedRows>, page: u32, rows: SharedRows) -> SharedRows
    requires { IsSome (rows_at stored.old.items page) }
    ensures items { stored.new.items ≡ with_rows_at stored.old.items page rows }
    ensures len { vec_len stored.new ≡ vec_len stored.old }
    ensures capacity { vec_capacity stored.new ≡ vec_capacity stored.old }
{
    let place = page as usize - 1;
    mem::replace(&mut stored[place], rows)
}

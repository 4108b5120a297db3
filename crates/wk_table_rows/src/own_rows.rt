//! The rows of a page among rows in any order.
ghost use Rattle.std.specs.Prelude.{◌≡◌, ◌≤◌, ◌==◌, ◌++◌, not, nat_lt, filter, length, take, drop, vec_len, vec_capacity, IfOk};
ghost use Rattle.std.specs.List.{All, position, position_or_len};

use crate::number::Numbered;
use wk_memory::Memory;

/// Where the rows of the page begin at the end of the rows.
fn own_end<T: Numbered>(rows: &[T], page: u64) -> usize
    ensures within { result ≤ length rows.now }
    ensures own { All (λ row. T.number row ≡ page) (drop result rows.now) }
{
    let mut end = rows.len();
    while 0 < end && rows[end - 1].number() == page {
        end -= 1;
    }
    end
}

/// Takes the rows of the page from the end of the rows.
pub fn take_end<T: Numbered>(rows: &mut Vec<T>, page: u64) -> Result<Vec<T>, Memory>
    ensures rows { IfOk result (λ own. rows.old.items ≡ rows.new.items ++ own.items) }
    ensures own { IfOk result (λ own. All (λ row. T.number row ≡ page) own.items) }
{
    let end = own_end(rows, page);
    Ok(rows.split_off(end)?)
}

/// Takes away the rows of the page.
pub fn take_out<T: Numbered>(rows: &mut Vec<T>, page: u64)
    ensures rows { rows.new.items ≡ filter (λ row. not (T.number row == page)) rows.old.items }
    ensures len { vec_len rows.new ≤ vec_len rows.old }
    ensures capacity { vec_capacity rows.new ≡ vec_capacity rows.old }
{
    rows.retain(
        |row: &T| -> bool
            ensures { result ≡ not (T.number row.now == page) }
        { row.number() != page },
    );
}

/// Where the first row of a higher page stands.
fn first_behind<T: Numbered>(rows: &[T], page: u64) -> Option<usize>
    ensures { result ≡ position (λ row. nat_lt page (T.number row)) rows.now }
{
    rows.iter().position(|row| page < row.number())
}

/// Where the first row of a higher page stands, or the end of the rows.
pub fn place_behind<T: Numbered>(rows: &[T], page: u64) -> usize
    ensures place { result ≡ position_or_len (λ row. nat_lt page (T.number row)) rows.now }
    ensures within { result ≤ length rows.now }
{
    match first_behind(rows, page) {
        Some(place) => place,
        None => rows.len(),
    }
}

/// Brings the rows from `end` on to the place.
fn rotate<T>(rows: &mut [T], place: usize, end: usize)
    requires before { place ≤ end }
    requires within { end ≤ length rows.old }
    ensures { rows.new ≡ take place rows.old ++ drop end rows.old ++ drop place (take end rows.old) }
{
    let added = rows.len() - end;
    rows[place..].rotate_right(added);
}

/// Brings the rows from `end` on to the place.
pub fn bring_forward<T>(rows: &mut Vec<T>, place: usize, end: usize)
    requires before { place ≤ end }
    requires within { end ≤ vec_len rows.old }
    ensures rows { rows.new.items ≡ take place rows.old.items ++ drop end rows.old.items ++ drop place (take end rows.old.items) }
    ensures len { vec_len rows.new ≡ vec_len rows.old }
    ensures capacity { vec_capacity rows.new ≡ vec_capacity rows.old }
{
    rotate(rows, place, end);
}

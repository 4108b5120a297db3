//! Rows of a table that stand in order.
ghost use Rattle.std.specs.Prelude.{◌≡◌, Bool, ◌<◌, length, nat_lt, slice_index_or, take};
ghost use Rattle.std.specs.List.{list_all};
ghost use Rattle.wk_table_rules.specs.Rows.{category_title};
ghost use Rattle.wk_table_rules.specs.GoodStore.{row_lt};
ghost use Rattle.wk_good_rows.specs.Order.{Carries, IsInOrder};

use wk_table_rows::{CategoryRow, JobRow, LinkRow, RedirectRow};

/// A row of a table that has an order.
pub trait InOrder: Drop {
    /// Whether the first row stands before the second.
    ghost before: { Self → Self → Bool };

    /// Whether this row stands before the other.
    fn is_before(&self, other: &Self) -> bool
        ensures { result ≡ before self.now other.now };
}

/// By the page, and then by the title.
impl InOrder for LinkRow {
    ghost before = { λ a b. row_lt a.from a.target b.from b.target };

    fn is_before(&self, other: &LinkRow) -> bool {
        let titles = self
            .namespace
            .cmp(&other.namespace)
            .then(self.title.cmp(&other.title));
        self.from.cmp(&other.from).then(titles).is_lt()
    }
}

/// By the page, and then by the category.
impl InOrder for CategoryRow {
    ghost before = { λ a b. row_lt a.cl_from (category_title a.cl_to) b.cl_from (category_title b.cl_to) };

    fn is_before(&self, other: &CategoryRow) -> bool {
        self.cl_from
            .cmp(&other.cl_from)
            .then(self.cl_to.cmp(&other.cl_to))
            .is_lt()
    }
}

/// By the page.
impl InOrder for RedirectRow {
    ghost before = { λ a b. nat_lt a.rd_from b.rd_from };

    fn is_before(&self, other: &RedirectRow) -> bool {
        self.rd_from < other.rd_from
    }
}

/// By the number.
impl InOrder for JobRow {
    ghost before = { λ a b. nat_lt a.job_id b.job_id };

    fn is_before(&self, other: &JobRow) -> bool {
        self.job_id < other.job_id
    }
}

/// Whether the row at this place stands behind all before it, which are in order.
pub fn is_behind<T: InOrder>(rows: &[T], place: usize) -> bool
    requires carries { Carries T.before }
    requires within { place < length rows.now }
    requires order { IsInOrder T.before rows.now place }
    ensures { (row : T) → row ≡ slice_index_or rows.now place row → result ≡ list_all (λ earlier. T.before earlier row) (take place rows.now) }
{
    if place == 0 {
        return true;
    }
    rows[place - 1].is_before(&rows[place])
}

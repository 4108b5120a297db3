//! The link rows of one page, for more than one owner.
ghost use Rattle.std.specs.Prelude.{◌≡◌, IfOk, IfSome};

use std::marker::Model;
use std::sync::Arc;
use wk_memory::Memory;
use wk_table_rows::{PageRows, Share};

/// The link rows of one page, shared: a further owner costs a pointer. Contracts see the rows. They don't change.
///
/// They may be sent to other threads and shared between them.
#[derive(Drop)]
pub struct SharedRows {
    rows: Arc<PageRows>,
}

impl Model for SharedRows {
    ghost use Rattle.wk_page_rules.specs.PageRows.{PageRows as Rows};
    ghost use Rattle.std.specs.Arc.{arc_value};

    ghost Value = { Rows };

    ghost view = { λ s. arc_value s.rows };
}

impl SharedRows {
    /// These rows, in memory of their own.
    pub fn new(rows: PageRows) -> Result<SharedRows, Memory>
        ensures { IfOk result (λ shared. shared ≡ rows) }
    {
        let rows = Arc::new(*rows.templates.allocator(), rows)?;
        Ok(SharedRows { rows })
    }

    /// The rows themselves. Takes no memory.
    pub fn rows(&self) -> &PageRows
        ensures { result.now ≡ self.now }
    {
        &self.rows
    }

    /// The same rows for a further owner, which std's shared pointer may refuse.
    pub fn share(&self) -> Result<SharedRows, Memory>
        ensures { IfOk result (λ shared. shared ≡ self.now) }
    {
        let rows = self.rows.clone()?;
        Ok(SharedRows { rows })
    }

    /// The rows themselves, where this was their last owner. Takes no memory.
    pub(crate) fn into_rows(self) -> Option<PageRows>
        ensures { IfSome result (λ rows. rows ≡ self) }
    {
        Arc::into_inner(self.rows)
    }
}

impl Share for SharedRows {
    fn share(&self) -> Result<SharedRows, Memory> {
        SharedRows::share(self)
    }
}

//! Sets of titles.
ghost use Rattle.std.specs.Prelude.{◌≡◌, [], ◌||◌, not, IfOk, OnErr, OnOk};
ghost use Rattle.wk_text_rules.specs.Titles.{PageTitle, title_eq};
ghost use Rattle.wk_good_rows.specs.Among.{is_among};

use std::alloc::Global;
use std::collections::BTreeSet;
use std::marker::Model;
use wk_bytes::Text;
use wk_memory::Memory;

/// The title of a row, which need not be one that a text can name. In order as titles are.
#[derive(Drop, PartialEq, Eq, PartialOrd, Ord)]
struct RowTitle {
    ns: i64,
    key: Text,
}

impl Model for RowTitle {
    ghost use Rattle.wk_text_rules.specs.Titles.{PageTitle};

    ghost Value = { PageTitle };

    ghost view = { λ t. record { ns = t.ns; key = t.key } };

    ghost inverse = { λ t. record { ns = t.ns; key = t.key } };
}

/// A set of titles. Contracts see them as a list.
#[derive(Drop)]
pub struct TitleSet {
    titles: BTreeSet<RowTitle>,
}

impl Model for TitleSet {
    ghost use Rattle.std.specs.Prelude.{List};
    ghost use Rattle.wk_text_rules.specs.Titles.{PageTitle};

    ghost Value = { List PageTitle };

    ghost view = { λ s. s.titles.keys };
}

impl TitleSet {
    /// No titles. Takes no memory.
    pub fn new(alloc: Global) -> TitleSet
        ensures { result ≡ [] }
    {
        TitleSet {
            titles: BTreeSet::new(alloc),
        }
    }

    /// Whether the title is in the set. The key is shared for a moment, which may be refused.
    pub fn has(&self, ns: i64, key: &Text) -> Result<bool, Memory>
        ensures { IfOk result (λ there. there ≡ is_among (record { ns = ns; key = key.now }) self.now) }
    {
        let key = key.share()?;
        Ok(self.titles.contains(&RowTitle { ns, key }))
    }

    /// Adds the title, and tells whether it is new.
    pub fn add(&mut self, ns: i64, key: &Text) -> Result<bool, Memory>
        ensures new { IfOk result (λ new. new ≡ not (is_among (record { ns = ns; key = key.now }) self.old)) }
        ensures titles { OnOk result ((other : PageTitle) → is_among other self.new ≡ (title_eq (record { ns = ns; key = key.now }) other || is_among other self.old)) }
        ensures refused { OnErr result (self.new ≡ self.old) }
    {
        let key = key.share()?;
        Ok(self.titles.insert(RowTitle { ns, key })?)
    }
}

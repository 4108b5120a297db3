//! The titles that rows of the tables name, each made once.
ghost use Rattle.std.specs.Prelude.{◌≡◌, true, IfOk};
ghost use Rattle.wk_text_rules.specs.Titles.{is_normal};

use crate::row_titles::row_title;
use std::alloc::Global;
use std::collections::BTreeMap;
use std::marker::Model;
use wk_bytes::Text;
use wk_memory::Memory;
use wk_title::Title;

/// Titles by the number of their namespace and their key, so that rows which name one title share it. Contracts see how
/// many there are.
#[derive(Drop)]
pub struct TitleMap {
    titles: BTreeMap<(i64, Text), Title>,
}

impl Model for TitleMap {
    ghost use Rattle.std.specs.Prelude.{ℕ};
    ghost use Rattle.std.specs.BTreeMap.{btree_map_len};
    ghost use Rattle.wk_index.specs.TitleMap.{AreTitles};

    ghost Value = { ℕ };

    ghost view = { λ m. btree_map_len m.titles };

    ghost invariant = { λ m. AreTitles m.titles };
}

impl TitleMap {
    /// No titles. Takes no memory.
    pub fn new(alloc: Global) -> TitleMap {
        TitleMap {
            titles: BTreeMap::new(alloc),
        }
    }

    /// The title with this key in the namespace, where it is normal. It is made where it isn't there yet, and is shared
    /// from then on.
    pub fn title(&mut self, alloc: Global, namespace: i64, key: &Text) -> Result<Title, Memory>
        requires { is_normal (record { ns = namespace; key = key.now }) ≡ true }
        ensures { IfOk result (λ title. title ≡ record { ns = namespace; key = key.now }) }
    {
        let place = (namespace, key.share()?);
        if let Some(title) = self.titles.get(&place) {
            return title.share();
        }
        let title = row_title(alloc, namespace, key)?;
        self.titles.insert(place, title.share()?)?;
        Ok(title)
    }
}

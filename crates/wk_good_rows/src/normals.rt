//! Titles that were found normal, so that the rows which name one title judge it once.
ghost use Rattle.std.specs.Prelude.{◌≡◌, IfOk};
ghost use Rattle.wk_text_rules.specs.Titles.{is_normal, is_page_title};

use crate::normal::is_normal;
use crate::titles::TitleSet;
use std::alloc::Global;
use std::marker::Model;
use wk_bytes::Text;
use wk_memory::Memory;

/// The titles that were found normal so far. Contracts see them as a list.
#[derive(Drop)]
pub struct Normals {
    titles: TitleSet,
}

impl Model for Normals {
    ghost use Rattle.std.specs.Prelude.{List};
    ghost use Rattle.wk_text_rules.specs.Titles.{PageTitle};
    ghost use Rattle.wk_good_rows.specs.Among.{AreNormal};

    ghost Value = { List PageTitle };

    ghost view = { λ n. n.titles };

    ghost invariant = { λ n. AreNormal n.titles };
}

impl Normals {
    /// No titles. Takes no memory.
    pub fn new(alloc: Global) -> Normals {
        Normals {
            titles: TitleSet::new(alloc),
        }
    }

    /// Whether the title is one that a text can name.
    pub fn is_normal(&mut self, alloc: Global, namespace: i64, key: &Text) -> Result<bool, Memory>
        ensures { IfOk result (λ answer. answer ≡ is_normal (record { ns = namespace; key = key.now })) }
    {
        if self.titles.has(namespace, key)? {
            return Ok(true);
        }
        let normal = is_normal(alloc, namespace, key)?;
        if normal {
            self.titles.add(namespace, key)?;
        }
        Ok(normal)
    }

    /// Whether the title is one that a page can have.
    pub fn is_page_title(
        &mut self,
        alloc: Global,
        namespace: i64,
        key: &Text,
    ) -> Result<bool, Memory>
        ensures { IfOk result (λ answer. answer ≡ is_page_title (record { ns = namespace; key = key.now })) }
    {
        if namespace < 0 {
            return Ok(false);
        }
        self.is_normal(alloc, namespace, key)
    }
}

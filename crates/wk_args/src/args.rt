//! Values under names, of which the later of two with one name counts.
ghost use Rattle.std.specs.Prelude.{◌≡◌, OnOk, OnErr, IfErr};
ghost use Rattle.std.specs.Option.{option_copied};
ghost use Rattle.std.specs.FinMap as map;
ghost use Rattle.wk_args.specs.Args.{bound};

use std::alloc::{AllocFailed, Global};
use std::collections::BTreeMap;
use std::marker::Model;
use wk_memory::Memory;

/// Names to values. The later of two values that are bound to one name counts (MediaWiki's Help:Templates).
///
/// A name may be any text. Names are compared byte by byte.
#[derive(Drop)]
pub struct Args<V> {
    alloc: Global,
    values: BTreeMap<String, V>,
}

impl<V> Model for Args<V> {
    ghost use Rattle.std.specs.Prelude.{ℕ};
    ghost use Rattle.std.specs.Coded.{coded_ℕ, coded_list};
    ghost use Rattle.std.specs.Ordering.{nat_cmp};
    ghost use Rattle.std.specs.Cmp.Lexicographic.{slice_cmp};
    ghost use Rattle.std.specs.FinMap as map;
    ghost use Rattle.wk_args.specs.Entries.{by_bytes};

    ghost Value = { map.FinMap (slice_cmp nat_cmp) V };

    ghost coded = { map.code (coded_list coded_ℕ) V.code };

    ghost view = { λ a. map.from_entries (by_bytes a.values.entries) };
}

impl<V: Drop> Args<V> {
    /// No name is bound. Takes no memory.
    pub fn new(alloc: Global) -> Args<V>
        ensures { result ≡ map.empty }
    {
        Args {
            alloc,
            values: BTreeMap::new(alloc),
        }
    }

    /// Binds a name to a value, in the place of the value that it was bound to before, if it was.
    /// After an `Err` nothing is bound anew, and the value is given back.
    pub fn bind(&mut self, name: &str, value: V) -> Result<(), (V, Memory)>
        ensures ok { OnOk result (self.new ≡ map.insert self.old name.now value) }
        ensures value_returned { IfErr result (λ refused. refused.0 ≡ value) }
        ensures err { OnErr result (self.new ≡ self.old) }
    {
        let Ok(key) = String::from_str(self.alloc, name) else {
            return Err((value, Memory));
        };
        match self.values.insert(key, value) {
            Ok(_) => Ok(()),
            Err(AllocFailed { value: (_, value) }) => Err((value, Memory)),
        }
    }

    /// The value that the name is bound to, or `None` exactly where it was never bound. Takes no memory.
    pub fn look(&self, name: &str) -> Option<&V>
        ensures { option_copied result ≡ bound self.now name.now }
    {
        self.values.get(name)
    }
}

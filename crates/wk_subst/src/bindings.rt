//! What the values of a call are bound to.
ghost use Rattle.std.specs.Prelude.{◌≡◌, [], ◌∷◌, OnOk};
ghost use Rattle.std.specs.Option.{option_copied};
ghost use Rattle.wk_subst_rules.specs.Places.{value_bound};

use crate::output::Output;
use std::alloc::Global;
use std::marker::Model;
use wk_args::Args;
use wk_memory::Memory;

/// A value that is bound to a name.
#[derive(Drop)]
pub struct Binding {
    pub name: String,
    pub value: Output,
}

/// Values that are bound to names, of which the later of two with one name counts (MediaWiki's Help:Templates). Contracts see
/// them as a list, the last binding first.
#[derive(Drop)]
pub struct Bindings {
    alloc: Global,
    all: Vec<Binding>,
    last: Args<usize>,
}

impl Model for Bindings {
    ghost use Rattle.std.specs.Prelude.{List};
    ghost use Rattle.wk_subst_rules.specs.Places.{Bound};
    ghost use Rattle.wk_subst.specs.Bindings.{bound_of, IsLast};

    ghost Value = { List Bound };

    ghost view = { λ b. bound_of b.all.items };

    ghost invariant = { λ b. IsLast b.all.items b.last };
}

impl Bindings {
    /// Nothing is bound. Takes no memory.
    pub fn new(alloc: Global) -> Bindings
        ensures { result ≡ [] }
    {
        Bindings {
            alloc,
            all: Vec::new(alloc),
            last: Args::new(alloc),
        }
    }

    /// Binds a value to a name.
    pub fn bind(&mut self, name: &str, value: Output) -> Result<(), Memory>
        ensures { OnOk result (self.new ≡ record { name = name.now; value = value } ∷ self.old) }
    {
        let text = String::from_str(self.alloc, name)?;
        let at = self.all.as_slice().len();
        self.all.push(Binding { name: text, value })?;
        match self.last.bind(name, at) {
            Ok(()) => Ok(()),
            Err((_, memory)) => {
                let _ = self.all.pop();
                Err(memory)
            }
        }
    }

    /// What is bound to the name. Takes no memory.
    pub fn look(&self, name: &str) -> Option<&str>
        ensures { option_copied result ≡ value_bound self.now name.now }
    {
        let at = self.last.look(name)?;
        Some(self.all.as_slice()[*at].value.as_str())
    }
}

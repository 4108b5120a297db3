//! What a value of a call is bound to (MediaWiki's Help:Templates and Help:Substitution).
ghost use Rattle.std.specs.Prelude.{◌≡◌, IfOk, IfSome, OnOk, IsSome, decimal};
ghost use Rattle.std.specs.Bool.{OnTrue};
ghost use Rattle.std.specs.Option.{option_map, option_copied};
ghost use Rattle.wk_text_rules.specs.Blank.{trimmed};
ghost use Rattle.wk_tree.specs.Parsed.{list_with};
ghost use Rattle.wk_subst_rules.specs.Calls.{bound_name};
ghost use Rattle.wk_subst.specs.Nodes.{items_of, name_of};
ghost use Rattle.wk_subst.specs.Binding.{call_with};

use crate::items::{has_sealed, list_text};
use crate::names::trimmed_text;
use crate::output::Output;
use crate::stack::Call;
use std::alloc::Global;
use wk_memory::Memory;
use wk_tree::{ListId, Parsed};

/// The text without the blank bytes at both ends: the same one where it has none there.
fn trimmed_output(alloc: Global, text: Output) -> Result<Output, Memory>
    ensures { IfOk result (λ given. given ≡ trimmed text) }
{
    let mut given = Output::new(alloc);
    given.push(trimmed_text(text.as_str()))?;
    Ok(given)
}

/// The name that a list is, if a value can be bound to it: its source without the blank bytes at both ends.
fn name_in(alloc: Global, tree: &Parsed, list: ListId) -> Result<Option<Output>, Memory>
    requires { IsSome (list_with tree.now list) }
    ensures { IfOk result (λ name. name ≡ bound_name (items_of tree.now list)) }
{
    if has_sealed(tree, list) {
        return Ok(None);
    }
    let text = list_text(alloc, tree, list)?;
    Ok(Some(trimmed_output(alloc, text)?))
}

impl Call {
    /// Binds a value to the next number.
    fn bind_number(&mut self, alloc: Global, value: Output) -> Result<(), Memory>
        ensures { OnOk result (self.new ≡ call_with self.old None value) }
    {
        // No text has so many parts.
        let number = self.numbered.checked_add(1).ok_or(Memory)?;
        let name = number.to_string(alloc)?;
        self.bound.bind(&name, value)?;
        self.numbered = number;
        Ok(())
    }

    /// Binds a value to the name of its part, or to the next number where it has none. Nothing is bound where the name can't be.
    pub fn bind(
        &mut self,
        alloc: Global,
        tree: &Parsed,
        name: Option<ListId>,
        value: Output,
    ) -> Result<(), Memory>
        requires { IfSome name (λ list. IsSome (list_with tree.now list)) }
        ensures { OnOk result (self.new ≡ call_with self.old (name_of tree.now name) value) }
    {
        let Some(list) = name else {
            return self.bind_number(alloc, value);
        };
        match name_in(alloc, tree, list)? {
            Some(name) => {
                let value = trimmed_output(alloc, value)?;
                self.bound.bind(name.as_str(), value)
            }
            None => Ok(()),
        }
    }
}

//! What a `#switch` has met so far (MediaWiki's Help:Extension:ParserFunctions).
ghost use Rattle.std.specs.Prelude.{◌≡◌, List, IfOk, IsSome, None, Some, false, if◌then◌else◌};
ghost use Rattle.wk_tree.specs.Parsed.{ParsedText, list_with};
ghost use Rattle.wk_tree_rules.specs.Trees.{Item};
ghost use Rattle.wk_view_rules.specs.Expand.{behind_bare_item};
ghost use Rattle.wk_view_rules.specs.Words.{named_item, switch_on};
ghost use Rattle.wk_expand.specs.Searches.{HasDefault, behind_turned, search_of};

use std::alloc::Global;
use std::marker::Model;
use wk_func::{Switch, Turned};
use wk_memory::Memory;
use wk_out::Out;
use wk_tree::ListId;

/// What a `#switch` has met so far.
#[derive(Drop)]
pub struct Search {
    /// What it decides by.
    pub decides: Switch,
    /// Whether a bare item matched.
    pub matched: bool,
    /// The value of the last default item.
    pub default: Option<ListId>,
    /// The text of the item before, where that was bare.
    pub bare_before: Option<Out>,
}

impl Search {
    /// The search for a subject, before the first item. Takes no memory.
    pub fn new(subject: Out) -> Search
        ensures { result ≡ record { decides = switch_on subject; matched = false; default = None; bare_before = None } }
    {
        Search {
            decides: Switch::new(subject),
            matched: false,
            default: None,
            bare_before: None,
        }
    }

    /// Goes behind an item without an equals sign. Takes no memory.
    pub fn bare(&mut self, text: Out)
        ensures after { (parsed : ParsedText)
            → search_of parsed self.new ≡ behind_bare_item (search_of parsed self.old) text }
        ensures default { self.new.default ≡ self.old.default }
    {
        if self.decides.bare(&text) == Turned::Result {
            self.matched = true;
        }
        self.bare_before = Some(text);
    }

    /// Goes behind an item with an equals sign, by its name, where no bare item matched; true where its value is the
    /// result. Takes no memory.
    pub fn named(&mut self, name: &Out, value: ListId) -> bool
        ensures after { (parsed : ParsedText) (items : List Item) → list_with parsed value ≡ Some items
            → (if result then None else Some (search_of parsed self.new))
            ≡ behind_turned (named_item self.old.decides name.now) (search_of parsed self.old) items }
        ensures lists { (parsed : ParsedText) → IsSome (list_with parsed value)
            → HasDefault parsed self.old → HasDefault parsed self.new }
    {
        self.bare_before = None;
        match self.decides.named(name) {
            Turned::Result => true,
            Turned::Default => {
                self.default = Some(value);
                false
            }
            Turned::Pass => false,
        }
    }
}

/// What a `#switch` has met so far, in memory of its own, so that little is handed on from step to step.
#[derive(Drop)]
pub struct Searching {
    search: Box<Search>,
}

impl Model for Searching {
    ghost use Rattle.wk_expand.specs.declared.search.Search.{Search};

    ghost Value = { Search };

    ghost view = { λ s. s.search.value };
}

impl Searching {
    /// The search for a subject, before the first item.
    pub fn new(alloc: Global, subject: Out) -> Result<Searching, Memory>
        ensures { IfOk result (λ search. search
            ≡ record { decides = switch_on subject; matched = false; default = None; bare_before = None }) }
    {
        let search = Box::new(alloc, Search::new(subject))?;
        Ok(Searching { search })
    }

    /// Whether a bare item matched. Takes no memory.
    pub fn matched(&self) -> bool
        ensures { result ≡ self.now.matched }
    {
        self.search.matched
    }

    /// Goes behind an item without an equals sign. Takes no memory.
    pub fn bare(&mut self, text: Out)
        ensures after { (parsed : ParsedText)
            → search_of parsed self.new ≡ behind_bare_item (search_of parsed self.old) text }
        ensures default { self.new.default ≡ self.old.default }
    {
        self.search.bare(text)
    }

    /// Goes behind an item with an equals sign, as `Search::named` does. Takes no memory.
    pub fn named(&mut self, name: &Out, value: ListId) -> bool
        ensures after { (parsed : ParsedText) (items : List Item) → list_with parsed value ≡ Some items
            → (if result then None else Some (search_of parsed self.new))
            ≡ behind_turned (named_item self.old.decides name.now) (search_of parsed self.old) items }
        ensures lists { (parsed : ParsedText) → IsSome (list_with parsed value)
            → HasDefault parsed self.old → HasDefault parsed self.new }
    {
        self.search.named(name, value)
    }

    /// The search itself. Takes no memory.
    pub fn found(self) -> Search
        ensures { result ≡ self }
    {
        Box::into_inner(self.search)
    }
}

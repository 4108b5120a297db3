//! The rules of what a page expands to, as definitions: worlds and what is read of them, frames and bindings,
//! the functions and variables, the expansion with its counters, and a page's rows.
//! Nothing here runs. The contracts of the crates above cite `specs/`.
#![tactic(auto)]

/// What is asked of a title (own).
#[derive(Clone, Copy, PartialEq, Eq)]
pub enum Kind {
    /// The text of the viewed page itself.
    View,
    /// The text of a page that is included.
    Include,
    /// Whether the page exists.
    Exists,
}

/// A variable (MediaWiki's Help:Magic words).
#[derive(Clone, Copy, PartialEq, Eq)]
pub enum Var {
    /// `!`, which gives a `|`.
    Bar,
    /// `PAGENAME`, the viewed page's key with spaces.
    PageName,
    /// `FULLPAGENAME`, the viewed page's shown form.
    FullPageName,
    /// `NAMESPACE`, the name of the viewed page's namespace.
    Namespace,
}

/// A function (MediaWiki's Help:Extension:ParserFunctions).
#[derive(Clone, Copy, PartialEq, Eq)]
pub enum Func {
    /// `#if`.
    If,
    /// `#ifeq`.
    IfEq,
    /// `#ifexist`.
    IfExist,
    /// `#iferror`.
    IfError,
    /// `#switch`.
    Switch,
}

/// What the title part of a template node calls.
#[derive(Clone, Copy, PartialEq, Eq)]
pub enum Word {
    /// A variable.
    Variable(Var),
    /// A function, with the place in the trimmed title part at which its first operand begins.
    Function(Func, usize),
    /// A page.
    Page,
}

/// What an item of a `#switch` is for the search.
#[derive(Clone, Copy, PartialEq, Eq)]
pub enum Turned {
    /// The item gives the result: its own value, or for a bare item the value of the next item with an equals sign.
    Result,
    /// A default item.
    Default,
    /// Neither.
    Pass,
}

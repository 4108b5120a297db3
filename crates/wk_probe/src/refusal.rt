//! Why a line has no answer of its own.

use std::alloc::AllocError;
use wk_memory::Memory;

/// Why a line has no answer of its own.
#[derive(Clone, Copy, PartialEq, Eq)]
pub enum Refusal {
    /// Memory ran out.
    Memory,
    /// The line has more bytes than the limit.
    TooLong,
    /// The bytes aren't UTF-8.
    NotUtf8,
    /// The text isn't JSON.
    NotJson,
    /// The value isn't an object.
    NotObject,
    /// No string is the member `op`.
    NoOp,
    /// The member `op` is none that the program knows.
    UnknownOp,
    /// No string is the member `text`.
    NoText,
    /// No integer is the member `ns`.
    NoNamespace,
    /// The member `ns` is no namespace's number.
    UnknownNamespace,
    /// Neither `view` nor `include` is the member `mode`.
    NoMode,
    /// The text has 2^32 bytes or more.
    TextTooLong,
    /// Lists and nodes stand within each other more than the limit.
    TooDeep,
    /// No list of texts, each with whether it is sealed, is the member `runs`.
    NoRuns,
    /// A character is none of the first 256, so it stands for no byte.
    NoBytes,
    /// No list of texts is the member `pieces`.
    NoPieces,
    /// No string is the member `name`.
    NoName,
    /// The members `a` and `b` aren't both strings.
    NoOperand,
    /// No string is the member `page`, or it names no title.
    NoPage,
    /// No object of texts is the member `pages`.
    NoPages,
    /// A name in `pages` names no title.
    PageWithoutTitle,
    /// Two names in `pages` name one title.
    SamePage,
    /// The member `seen` is no list of titles, kinds and answers, each in the form of its kind.
    NoSeen,
    /// A text in `seen` names no title.
    SeenWithoutTitle,
    /// A title and a kind stand in `seen` twice.
    SeenTwice,
    /// The wiki wasn't opened.
    NotOpened,
    /// A page in `pages` wasn't saved.
    NotSaved,
    /// Jobs are left.
    NotRefreshed,
}

impl From<Memory> for Refusal {
    fn from(_: Memory) -> Refusal {
        Refusal::Memory
    }
}

impl From<AllocError> for Refusal {
    fn from(_: AllocError) -> Refusal {
        Refusal::Memory
    }
}

/// What is wrong, in words.
pub fn refusal_text(refusal: Refusal) -> &'static str {
    match refusal {
        Refusal::Memory => "out of memory",
        Refusal::TooLong => "the line has more than 8388608 bytes",
        Refusal::NotUtf8 => "the line is not UTF-8",
        Refusal::NotJson => "the line is not JSON",
        Refusal::NotObject => "the line is not a JSON object",
        Refusal::NoOp => "op is missing or not a string",
        Refusal::UnknownOp => "op is not known",
        Refusal::NoText => "text is missing or not a string",
        Refusal::NoNamespace => "ns is missing or not an integer",
        Refusal::UnknownNamespace => "ns is not the number of a namespace",
        Refusal::NoMode => "mode is neither view nor include",
        Refusal::TextTooLong => "text has 4294967296 bytes or more",
        Refusal::TooDeep => "the tree is too deep to be shown",
        Refusal::NoRuns => "runs is not a list of lists of a string and a boolean",
        Refusal::NoBytes => "a character stands for no byte",
        Refusal::NoPieces => "pieces is not a list of strings",
        Refusal::NoName => "name is missing or not a string",
        Refusal::NoOperand => "a or b is missing or not a string",
        Refusal::NoPage => "page is missing, not a string or no title",
        Refusal::NoPages => "pages is not an object of strings",
        Refusal::PageWithoutTitle => "a name in pages is no title",
        Refusal::SamePage => "two names in pages are one title",
        Refusal::NoSeen =>
            "seen is not a list of lists of a title, a kind and an answer of that kind",
        Refusal::SeenWithoutTitle => "a title in seen is no title",
        Refusal::SeenTwice => "a title and a kind are in seen twice",
        Refusal::NotOpened => "the wiki cannot be opened",
        Refusal::NotSaved => "a page in pages cannot be saved",
        Refusal::NotRefreshed => "jobs are left",
    }
}

//! What becomes of an edit.
ghost use Rattle.std.specs.Prelude.{◌≡◌, true, IfOk, IfSome};
ghost use Rattle.std.specs.Option.{option_copied};
ghost use Rattle.wk_text_rules.specs.Titles.{is_page_title};
ghost use Rattle.wk_page_rules.specs.Verdict.{body_bytes, is_conflict, is_same_text, real_title};

use std::alloc::Global;
use thiserror::Error;
use wk_bytes::Text;
use wk_memory::Memory;
use wk_page_rules::Limit;
use wk_title::{Title, page_named};
use wk_title_laws::shown_normalizes;

/// Why an edit isn't saved (the refusals of MediaWiki's API:Edit; the limits are own).
/// The variants stand in the order in which they are decided.
#[derive(Clone, Copy, Debug, PartialEq, Eq, Error)]
pub enum SaveRefusal {
    /// The text of the title names none, or one in a namespace in which no page can be.
    #[error("bad title")]
    InvalidTitle,
    /// The text as it would be kept has more than 2,097,152 bytes.
    #[error("the text is too big")]
    ContentTooBig,
    /// Only a missing page was to be saved, and the page exists.
    #[error("the page exists")]
    ArticleExists,
    /// Only an existing page was to be saved or deleted, and the page is missing.
    #[error("the page is missing")]
    MissingTitle,
    /// The edit names a base that isn't the page's current revision.
    #[error("edit conflict with revision {current}")]
    EditConflict {
        /// The page's current revision, 0 where it is missing.
        current: u64,
    },
    /// The save would pass a limit of the wiki.
    #[error("the wiki is full")]
    WikiFull(Limit),
    /// The journal has no room for another event.
    #[error("the journal is full")]
    JournalFull,
    /// Memory ran out.
    #[error("out of memory")]
    Memory,
    /// The store failed.
    #[error("the store failed")]
    StoreFault,
}

/// What becomes of an edit, before anything is saved.
#[derive(Drop)]
pub enum Verdict {
    /// It is refused.
    Refuse(SaveRefusal),
    /// The page exists and has this text already.
    NoChange(Title),
    /// It can be saved: the title, and the text as it is kept, or `None` for a deletion.
    Accept(Title, Option<Text>),
}

/// The title that the text names, where a page can be saved under it: in main by default, and in no virtual
/// namespace.
#[tactic(auto, using(crate::proofs::TitleLaws::real_is, crate::proofs::TitleLaws::not_virtual))]
pub fn real_title(alloc: Global, text: &str) -> Result<Option<Title>, Memory>
    ensures title { IfOk result (λ title. title ≡ real_title text.now) }
    ensures real { IfOk result (λ title. IfSome title (λ title. is_page_title title ≡ true)) }
{
    match page_named(alloc, text)? {
        Some(title) => {
            shown_normalizes(&title);
            Ok(Some(title))
        }
        None => Ok(None),
    }
}

/// Whether a base is given that isn't the current revision.
pub fn is_conflict(base: Option<u64>, current: u64) -> bool
    ensures { result ≡ is_conflict base current }
{
    match base {
        Some(base) => base != current,
        None => false,
    }
}

/// Whether the page's text is there and is the body.
pub fn is_same_text(text: Option<&Text>, body: &Option<Text>) -> bool
    ensures { result ≡ is_same_text (option_copied text.entry) body.now }
{
    match (text, body) {
        (Some(text), Some(body)) => *text == *body,
        _ => false,
    }
}

/// How many bytes a body has; a deletion has none.
pub fn body_len(body: &Option<Text>) -> u64
    ensures { result ≡ body_bytes body.now }
{
    match body {
        Some(text) => text.len() as u64,
        None => 0,
    }
}

//! What is answered when a title is asked, and what a draft tells of it.
ghost use Rattle.std.specs.Prelude.{◌≡◌, IfOk};
ghost use Rattle.std.specs.Option.{option_copied};
ghost use Rattle.wk_view_rules.specs.Worlds.{mark};
ghost use Rattle.wk_expand.specs.Answers.{answer_of, text_in};

use wk_bytes::Text;
use wk_memory::Memory;
use wk_title::Title;
use wk_view_rules::Kind;

/// An answer about a title (own).
#[derive(Drop)]
pub enum Answer {
    /// Asked for its text: the number of the page's current revision and its text, or `None` where it is missing.
    Page(Option<(u64, Text)>),
    /// Asked for its existence: whether the page exists.
    Exists(bool),
}

/// The mark of an answer (own): the number of the revision, 0 where the page is missing; of existence 1, or 0 where
/// the page is missing. Takes no memory.
pub fn mark(answer: &Answer) -> u64
    ensures { result ≡ mark (answer_of answer.now) }
{
    match answer {
        Answer::Page(Some((revision, _))) => *revision,
        Answer::Page(None) | Answer::Exists(false) => 0,
        Answer::Exists(true) => 1,
    }
}

impl Answer {
    /// The text of a page that is there. Takes no memory.
    pub(crate) fn text(&self) -> Option<&Text>
        ensures { option_copied result ≡ text_in (answer_of self.now) }
    {
        match self {
            Answer::Page(Some((_, text))) => Some(text),
            Answer::Page(None) | Answer::Exists(_) => None,
        }
    }

    /// The same answer for a further owner, which std's shared pointers may refuse.
    #[inline(always)]
    pub fn share(&self) -> Result<Answer, Memory>
        ensures { IfOk result (λ answer. answer_of answer ≡ answer_of self.now) }
    {
        match self {
            Answer::Page(Some((revision, text))) => {
                let text = text.share()?;
                Ok(Answer::Page(Some((*revision, text))))
            }
            Answer::Page(None) => Ok(Answer::Page(None)),
            Answer::Exists(there) => Ok(Answer::Exists(*there)),
        }
    }
}

/// A title that a draft has read, with the mark of the answer.
#[derive(Drop)]
pub struct Read {
    /// The title.
    pub title: Title,
    /// What was asked of it.
    pub kind: Kind,
    /// The mark of the answer.
    pub mark: u64,
}

/// What an expansion cost (MediaWiki's Manual:Template limits; the numbers are own).
#[derive(Clone, Copy, PartialEq, Eq)]
pub struct Counts {
    /// The nodes, with what was charged for texts, values and redirects. At most 1,000,000.
    pub nodes: u64,
    /// The bytes of what was included. At most 2,097,152.
    pub include: u64,
    /// The bytes of arguments. At most 2,097,152.
    pub argument: u64,
    /// The number of titles that were tested for existence. At most 100.
    pub exists: u64,
}

//! The answers that were seen so far.
ghost use Rattle.std.specs.Prelude.{◌≡◌, [], ◌∷◌, ◌++◌, map, option_map, None, IfOk, IfSome, IsTrue, OnOk, OnErr};
ghost use Rattle.std.specs.Option.{option_copied};
ghost use Rattle.wk_view_rules.specs.Plans.{noted};
ghost use Rattle.wk_view_rules.specs.Worlds.{IsSeen, ask, fits_kind, of_seen};
ghost use Rattle.wk_expand.specs.Answers.{answer_of, read_with};
ghost use Rattle.wk_expand.specs.Drafts.{with_mark};
ghost use Rattle.wk_expand.specs.Entries.{entry_read, entry_reads};

use crate::answer::{Answer, Read, mark};
use indexmap::IndexMap;
use indexmap::map::Entry;
use std::alloc::Global;
use std::marker::Model;
use wk_memory::Memory;
use wk_title::Title;
use wk_view_rules::Kind;

/// A title, and what is asked of it.
#[derive(Drop, PartialEq, Eq)]
#[derive_where(Hash)]
struct Asked {
    title: Title,
    #[derive_where(skip(Hash))]
    kind: Kind,
}

/// Answers that were seen, each to another pair of a title and a kind, in the order in which they came. Contracts see
/// them as a list of titles, kinds and answers.
#[derive(Drop)]
pub struct Seen {
    answers: IndexMap<Asked, Answer>,
}

impl Model for Seen {
    ghost use Rattle.wk_view_rules.specs.Worlds as rule;
    ghost use Rattle.wk_expand.specs.Entries.{entry_reads};

    ghost Value = { rule.Seen };

    ghost view = { λ s. entry_reads s.answers.entries };

    ghost invariant = { λ s. rule.IsSeen (entry_reads s.answers.entries) };
}

impl Seen {
    /// No answer was seen. Takes no memory.
    pub fn new(alloc: Global) -> Seen
        ensures { result ≡ [] }
    {
        Seen {
            answers: IndexMap::new(alloc),
        }
    }

    /// Keeps an answer behind those that there are. After an `Err` nothing is kept.
    pub fn add(&mut self, title: Title, kind: Kind, answer: Answer) -> Result<(), Memory>
        requires absent { ask (of_seen self.old) title kind ≡ None }
        requires formed { IsTrue (fits_kind kind (answer_of answer)) }
        ensures ok { OnOk result (self.new ≡ self.old ++ read_with title kind (answer_of answer) ∷ []) }
        ensures err { OnErr result (self.new ≡ self.old) }
    {
        self.answers.insert(Asked { title, kind }, answer)?;
        Ok(())
    }

    /// The answer to a title and a kind, or `None` exactly where none was seen.
    #[inline(always)]
    pub fn get(&self, title: &Title, kind: Kind) -> Result<Option<&Answer>, Memory>
        ensures answer { IfOk result
            (λ found. option_map answer_of (option_copied found) ≡ ask (of_seen self.now) title.now kind) }
        ensures formed { IfOk result (λ found. IfSome (option_copied found)
            (λ answer. IsTrue (fits_kind kind (answer_of answer)))) }
    {
        let asked = Asked {
            title: title.share()?,
            kind,
        };
        Ok(self.answers.get(&asked))
    }

    /// Keeps an answer behind those that there are, where none is kept for its title and kind yet.
    #[inline(always)]
    pub(crate) fn note(&mut self, title: &Title, kind: Kind, answer: &Answer) -> Result<(), Memory>
        requires { IsTrue (fits_kind kind (answer_of answer.now)) }
        ensures { OnOk result (self.new ≡ noted self.old (read_with title.now kind (answer_of answer.now))) }
    {
        let asked = Asked {
            title: title.share()?,
            kind,
        };
        keep(&mut self.answers, asked, answer)
    }

    /// The reads with their marks, in order.
    pub(crate) fn with_marks(&self, alloc: Global) -> Result<Vec<Read>, Memory>
        ensures items { IfOk result (λ reads. reads.items ≡ map with_mark self.now) }
        // What is known of all that was seen.
        ensures seen { IsSeen self.now }
    {
        marks(alloc, &self.answers)
    }
}

/// Keeps an answer behind those that there are, where none is kept under this key yet. After an `Err` nothing is kept.
#[inline(always)]
fn keep(answers: &mut IndexMap<Asked, Answer>, asked: Asked, answer: &Answer) -> Result<(), Memory>
    ensures ok { OnOk result
        (entry_reads answers.new.entries ≡ noted (entry_reads answers.old.entries) (entry_read (asked, answer.now))) }
    ensures err { OnErr result (answers.new.entries ≡ answers.old.entries) }
{
    match answers.entry(asked)? {
        Entry::Occupied(_) => Ok(()),
        Entry::Vacant(place) => match answer.share() {
            Ok(answer) => {
                place.insert(answer);
                Ok(())
            }
            Err(e) => {
                let _asked = place.into_key();
                Err(e)
            }
        },
    }
}

/// The answers with their marks, in order.
fn marks(alloc: Global, answers: &IndexMap<Asked, Answer>) -> Result<Vec<Read>, Memory>
    ensures { IfOk result (λ reads. reads.items ≡ map with_mark (entry_reads answers.now.entries)) }
{
    let mut reads = Vec::new(alloc);
    'entries: for (asked, answer) in answers.iter() {
        let title = asked.title.share()?;
        reads.push(Read {
            title,
            kind: asked.kind,
            mark: mark(answer),
        })?;
    }
    Ok(reads)
}

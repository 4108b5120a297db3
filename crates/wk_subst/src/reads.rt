//! What a substitution has read.
ghost use Rattle.std.specs.Prelude.{◌≡◌, [], IsTrue, OnOk, map};
ghost use Rattle.wk_view_rules.specs.Plans.{noted};
ghost use Rattle.wk_view_rules.specs.Worlds.{IsSeen, fits_kind};
ghost use Rattle.wk_expand.specs.Answers.{answer_of, read_with};
ghost use Rattle.wk_expand.specs.Drafts.{with_mark};

use std::alloc::Global;
use std::marker::Model;
use wk_expand::{Answer, Read, Seen, mark};
use wk_memory::Memory;
use wk_title::Title;
use wk_view_rules::Kind;

/// The titles that were read, each once, with their answers and the marks of these. Contracts see titles, kinds and answers.
#[derive(Drop)]
pub struct Reads {
    seen: Seen,
    marked: Vec<Read>,
}

impl Model for Reads {
    ghost use Rattle.wk_view_rules.specs.Worlds.{Seen};
    ghost use Rattle.wk_subst.specs.Marked.{AreMarked};

    ghost Value = { Seen };

    ghost view = { λ r. r.seen };

    ghost invariant = { λ r. AreMarked r.seen r.marked.items };
}

impl Reads {
    /// Nothing was read. Takes no memory.
    pub fn new(alloc: Global) -> Reads
        ensures { result ≡ [] }
    {
        Reads {
            seen: Seen::new(alloc),
            marked: Vec::new(alloc),
        }
    }

    /// What was read, in the order of first reading. Takes no memory.
    pub fn marked(&self) -> &[Read]
        ensures value { result.now ≡ map with_mark self.now }
        // What is known of all that was read.
        ensures seen { IsSeen self.now }
    {
        self.marked.as_slice()
    }

    /// The title is read with this answer, if it wasn't before.
    pub fn note(&mut self, title: &Title, answer: &Answer) -> Result<(), Memory>
        requires { IsTrue (fits_kind Kind.Include (answer_of answer.now)) }
        ensures { OnOk result (self.new ≡ noted self.old (read_with title.now Kind.Include (answer_of answer.now))) }
    {
        if let Some(_) = self.seen.get(title, Kind::Include)? {
            return Ok(());
        }
        let asked = title.share()?;
        let known = answer.share()?;
        let read = Read {
            title: title.share()?,
            kind: Kind::Include,
            mark: mark(answer),
        };
        self.marked.push(read)?;
        match self.seen.add(asked, Kind::Include, known) {
            Ok(()) => Ok(()),
            Err(memory) => {
                let _ = self.marked.pop();
                Err(memory)
            }
        }
    }
}

//! What is asked of the present, and the entries of the journal.
ghost use Rattle.std.specs.Prelude.{◌≡◌, ℕ, length, IfOk};

use crate::life::Life;
use crate::wiki::Wiki;
use wk_expand::{Answer, Kind};
use wk_jobs::Left;
use wk_keeper::Keeper;
use wk_memory::Memory;
use wk_title::Title;
use wk_wiki_rules::Entry;

impl Life {
    ghost use Rattle.std.specs.Prelude.{◌+◌};
    ghost use Rattle.wk_wiki_rules.specs.Entries.{entries_from};
    ghost use Rattle.wk_life_laws.specs.Lives.{journal_of};
    ghost use Rattle.wk_core.specs.Entries.{entry_at};

    /// The entry with this number, from 1; `None` exactly where there is none. Takes no memory.
    pub fn entry(&self, number: u64) -> Option<Entry>
        ensures value { result ≡ entry_at self.now.life.entries number }
        // The entries name the revisions in their order.
        ensures named { self.now.life.entries ≡ entries_from (self.now.life.kept.revisions + 1) (journal_of self.now.life) }
    {
        if number == 0 || (self.entries.len() as u64) < number {
            return None;
        }
        Some(self.entries[(number - 1) as usize])
    }
}

impl<K: Keeper> Wiki<K> {
    ghost use Rattle.wk_wiki_rules.specs.Jobs.{left};
    ghost use Rattle.wk_view_rules.specs.Worlds.{answer_in};
    ghost use Rattle.wk_wiki_rules.specs.States.{world_of};
    ghost use Rattle.wk_expand.specs.Answers.{answer_of};
    ghost use Rattle.wk_core.specs.Entries.{entry_at, entries_seen};

    /// What the present world answers where the title is asked in this way: with text, its page's current revision and
    /// text, or that it is missing; of existence, whether it exists. The text is shared.
    pub fn fetch(&self, title: &Title, kind: Kind) -> Result<Answer, Memory>
        ensures { IfOk result (λ answer. answer_of answer ≡ answer_in (world_of self.now.state) title.now kind) }
    {
        self.life.live().fetch(title, kind)
    }

    /// The point: how many events there are since the store was opened. Takes no memory.
    pub fn point(&self) -> u64
        ensures { result ≡ length self.now.journal }
    {
        self.life.point()
    }

    /// How many jobs stand. Takes no memory.
    pub fn left(&self) -> Left
        ensures { result ≡ left self.now.state.jobs }
    {
        self.life.live().jobs().left()
    }

    /// The entry of the event with this number, counted from 1; `None` exactly where the number is 0 or above the
    /// journal's length. Takes no memory.
    pub fn event(&self, number: u64) -> Option<Entry>
        ensures { result ≡ entry_at (entries_seen self.now) number }
    {
        self.life.facts();
        self.life.entry(number)
    }
}

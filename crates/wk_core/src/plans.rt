//! Plans of saves: what becomes of an edit, before anything is saved.
ghost use Rattle.std.specs.Prelude.{◌≡◌, ◌==◌, not, is_some, length, IfOk};
ghost use Rattle.std.specs.Option.{option_copied};
ghost use Rattle.wk_wiki_rules.specs.Steps.{reach_of_save};
ghost use Rattle.wk_life_laws.specs.Lives.{journal_of};
ghost use Rattle.wk_revs.specs.Edit.{edit_asked};
ghost use Rattle.wk_core.specs.Plans.{IsPlanned, IsPlannedIn};

use crate::life::Life;
use crate::wiki::Wiki;
use std::marker::Model;
use wk_bytes::Text;
use wk_keeper::Keeper;
use wk_memory::Memory;
use wk_page_rules::Reach;
use wk_revs::{Edit, SaveRefusal, Standing, Verdict};
use wk_title::Title;

/// What a save of an accepted edit makes. Contracts see the title, the text as it is kept, or nothing for a deletion, and what
/// stands of the title. By its type it is no wiki's; `HasPlanned` says of which it is, and that nothing has happened to it
/// since.
#[derive(Drop)]
pub struct Plan {
    pub(crate) title: Title,
    pub(crate) text: Option<Text>,
    pub(crate) standing: Standing,
}

impl Model for Plan {
    ghost use Rattle.wk_core.specs.PlanShown.{PlanShown};

    ghost Value = { PlanShown };

    ghost view = { λ p. record { title = p.title; text = p.text; standing = p.standing } };
}

impl Plan {
    /// The title that is saved. Takes no memory.
    pub fn title(&self) -> &Title
        ensures { result.now ≡ self.now.title }
    {
        &self.title
    }

    /// The text as it is kept, `None` for a deletion. Takes no memory.
    pub fn text(&self) -> Option<&Text>
        ensures { option_copied result ≡ self.now.text }
    {
        self.text.as_ref()
    }

    /// What stands of the title, and what the save makes. Takes no memory.
    pub fn standing(&self) -> Standing
        ensures { result ≡ self.now.standing }
    {
        self.standing
    }

    /// Which rows the save reaches. Takes no memory.
    pub(crate) fn reach(&self) -> Reach
        ensures { result ≡ reach_of_save (not (self.now.standing.current == 0)) (is_some self.now.text) }
    {
        self.standing.reach(self.text.is_some())
    }
}

/// What becomes of an edit.
#[derive(Drop)]
pub enum Planned {
    /// It is refused: by any of the refusals of `Wiki::save` but `Memory` and `StoreFault`.
    Refused(SaveRefusal),
    /// The page has this text already.
    NoChange {
        /// The title that the edit names.
        title: Title,
        /// The number of the page.
        page: u32,
    },
    /// It is accepted, and this is what its save makes.
    Save(Plan),
}

impl Life {
    /// What becomes of an edit: the first that applies.
    fn plan(&self, edit: &Edit) -> Result<Planned, Memory>
        ensures { IfOk result (IsPlannedIn self.now.life.limits self.now.life.state (length (journal_of self.now.life)) (edit_asked edit.now)) }
    {
        let alloc = *self.entries.allocator();
        let revs = self.live.revs();
        match revs.judge(alloc, edit, &self.limits)? {
            Verdict::Refuse(refusal) => Ok(Planned::Refused(refusal)),
            Verdict::NoChange(title) => {
                let page = revs.page_to_save(&title);
                Ok(Planned::NoChange { title, page })
            }
            Verdict::Accept(title, text) => {
                if self.is_full() {
                    return Ok(Planned::Refused(SaveRefusal::JournalFull));
                }
                let standing = revs.standing(&title);
                Ok(Planned::Save(Plan {
                    title,
                    text,
                    standing,
                }))
            }
        }
    }
}

impl<K: Keeper> Wiki<K> {
    /// What becomes of an edit now: a refusal, that the page has the text already, or the plan of its save, for
    /// `save_planned`. The refusals and their order are those of `save`, which is this and then `save_planned`. It is no event.
    pub fn plan(&self, edit: &Edit) -> Result<Planned, Memory>
        ensures { IfOk result (IsPlanned self.now (edit_asked edit.now)) }
    {
        self.life.plan(edit)
    }
}

//! Saves.
ghost use Rattle.std.specs.Prelude.{◌≡◌, None};
ghost use Rattle.wk_revs.specs.Edit.{edit_asked};
ghost use Rattle.wk_wiki_rules.specs.SaveOutcomes.{deletion};
ghost use Rattle.wk_shared.specs.Answers.{SaveTold};
ghost use Rattle.wk_shared.specs.Calls.{HasSeen, IsFree, IsMadeAt, MayFail};

use crate::shared::Shared;
use std::sync::Wait;
use wk_core::{Edit, Keeper, SaveRefusal, Saved, Wiki};
use wk_turn::Pass;

impl<K: Keeper> Shared<K> {
    /// Saves an edit at this many seconds since 1970, where the wiki isn't sealed, and tells the point (MediaWiki's
    /// API:Edit). Answers and refusals, and when they come, are those of `Wiki::save`, in the state in which the call was
    /// made. At most one event is made: it is the entry at the point, and the pass's own. It waits.
    pub fn save<R: Wait>(
        &self,
        rt: &R,
        pass: &mut Pass<Wiki<K>>,
        edit: &Edit,
        now: u64,
    ) -> (Result<Saved, SaveRefusal>, u64)
        requires free { IsFree self.now pass.old }
        requires unsealed { self.now.start.sealed ≡ None }
        ensures pass { HasSeen self.now pass.old pass.new result.1 }
        ensures call { IsMadeAt self.now.start pass.old pass.new (SaveTold (edit_asked edit.now) now result.0) }
        ensures fault { result.0 ≡ Err SaveRefusal.StoreFault → MayFail self.now.start }
    {
        let mut held = self.take_wiki(rt, pass);
        let answer = held.value.save(edit, now);
        let point = self.give_wiki(pass, held);
        (answer, point)
    }

    /// Deletes a page that exists, and tells the point (MediaWiki's API:Delete): a save of nothing. With a base it is
    /// refused as a conflict where that isn't the current revision. All else is as for `save`.
    pub fn remove<R: Wait>(
        &self,
        rt: &R,
        pass: &mut Pass<Wiki<K>>,
        title: &str,
        base: Option<u64>,
        now: u64,
    ) -> (Result<Saved, SaveRefusal>, u64)
        requires free { IsFree self.now pass.old }
        requires unsealed { self.now.start.sealed ≡ None }
        ensures pass { HasSeen self.now pass.old pass.new result.1 }
        ensures call { IsMadeAt self.now.start pass.old pass.new (SaveTold (deletion title.now base) now result.0) }
        ensures fault { result.0 ≡ Err SaveRefusal.StoreFault → MayFail self.now.start }
    {
        let mut held = self.take_wiki(rt, pass);
        let answer = held.value.remove(title, base, now);
        let point = self.give_wiki(pass, held);
        (answer, point)
    }
}

//! The present world answers, and what is drafted by its answers.
ghost use Rattle.std.specs.Prelude.{IfOk};
ghost use Rattle.wk_wiki_rules.specs.States.{world_of};
ghost use Rattle.wk_expand.specs.Steps.{given_text};
ghost use Rattle.wk_live.specs.Drafted.{IsPresent};

use crate::live::Live;
use std::alloc::Global;
use wk_base::NoGate;
use wk_drafts::{Answering, Ended, drafted_by};
use wk_expand::{Draft, Kind, Machine, Root, Seen, Trees};
use wk_memory::Memory;
use wk_title::Title;

impl<R> Answering<R> for Live {
    ghost use Rattle.wk_view_rules.specs.Worlds.{Agrees, of_world};
    ghost use Rattle.wk_wiki_rules.specs.States.{world_of};

    type Pass = ();

    ghost ready = { λ live pass. Unit {0} };

    ghost leaves = { λ live begun pass. Unit {0} };

    ghost answers = { λ live begun pass seen. Agrees (of_world (world_of live.state)) seen };

    ghost lacks = { λ live title kind. ⊥ };

    fn ask(
        &self,
        _rt: &R,
        _pass: &mut (),
        seen: &mut Seen,
        title: &Title,
        kind: Kind,
    ) -> Result<bool, Memory> {
        let answer = self.fetch(title, kind)?;
        seen.add(title.share()?, kind, answer)?;
        Ok(true)
    }
}

/// What the page, or a given text in the place of its own, expands to in the present world (MediaWiki's Help:Templates).
/// One machine gets one answer after the other. `trees` keeps parsed texts.
pub fn draft_now(
    alloc: Global,
    live: &Live,
    page: &Title,
    root: &Root,
    trees: &mut Trees,
) -> Result<Draft, Memory>
    ensures { IfOk result (IsPresent (world_of live.now.state) page.now (given_text root.now)) }
{
    let machine = Machine::new(alloc, page, root)?;
    let mut seen = Seen::new(alloc);
    match drafted_by(&(), live, &mut (), &mut NoGate, machine, &mut seen, trees)? {
        Ended::Made(draft) => {
            let _page = draft.page();
            Ok(draft)
        }
        Ended::Unknown(_, _) => unreachable!(),
    }
}

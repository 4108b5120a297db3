//! A wiki that callers share answers what is asked, each time under a turn of its own.
ghost use Rattle.std.specs.Prelude.{◌≡◌, ◌∷◌, ◌++◌, [], IfOk, IsOkAnd, IsTrue, OnOk, None};
ghost use Rattle.wk_view_rules.specs.Worlds.{ask, fits_kind, of_seen};
ghost use Rattle.wk_expand.specs.Answers.{answer_of, read_with};

use crate::{Pass, Shared};
use std::sync::Wait;
use wk_core::{Answer, Keeper, Kind, Wiki};
use wk_drafts::Answering;
use wk_expand::Seen;
use wk_memory::Memory;
use wk_title::Title;

/// Keeps an answer to a title and a kind, which weren't asked yet.
fn keep(
    seen: &mut Seen,
    title: &Title,
    kind: Kind,
    answer: Result<Answer, Memory>,
) -> Result<(), Memory>
    requires absent { ask (of_seen seen.old) title.now kind ≡ None }
    requires formed { IfOk answer (λ answer. IsTrue (fits_kind kind (answer_of answer))) }
    ensures { OnOk result (IsOkAnd answer (λ answer. seen.new ≡ seen.old ++ read_with title.now kind (answer_of answer) ∷ [])) }
{
    let answer = answer?;
    seen.add(title.share()?, kind, answer)?;
    Ok(())
}

impl<K: Keeper, R: Wait> Answering<R> for Shared<K> {
    ghost use Rattle.wk_shared.specs.Apart.{AreAnsweredSince, HasAsked};
    ghost use Rattle.wk_shared.specs.Calls.{IsFree};

    /// What the caller knows of the wiki.
    type Pass = Pass<Wiki<K>>;

    ghost ready = { λ shared pass. IsFree shared pass };

    ghost leaves = { HasAsked };

    ghost answers = { AreAnsweredSince };

    ghost lacks = { λ shared title kind. ⊥ };

    /// Keeps what the world answers at the point that the pass has seen then. It waits.
    fn ask(
        &self,
        rt: &R,
        pass: &mut Pass<Wiki<K>>,
        seen: &mut Seen,
        title: &Title,
        kind: Kind,
    ) -> Result<bool, Memory> {
        let (answer, _point) = self.fetch(rt, pass, title, kind);
        keep(seen, title, kind, answer)?;
        Ok(true)
    }
}

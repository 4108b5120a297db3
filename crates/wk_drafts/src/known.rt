//! Answers that are known answer.
use crate::answering::Answering;
use wk_expand::{Kind, Seen};
use wk_memory::Memory;
use wk_title::Title;

impl<R> Answering<R> for Seen {
    ghost use Rattle.std.specs.Prelude.{◌≡◌, ◌≤◌, None};
    ghost use Rattle.wk_view_rules.specs.Worlds.{ask, of_seen};
    ghost use Rattle.wk_drafts.specs.Given.{AreGiven};

    /// How many of the answers were given.
    type Pass = u64;

    ghost ready = { λ known given. Unit {0} };

    ghost leaves = { λ known begun given. begun ≤ given };

    ghost answers = { AreGiven };

    ghost lacks = { λ known title kind. ask (of_seen known) title kind ≡ None };

    fn ask(
        &self,
        _rt: &R,
        given: &mut u64,
        seen: &mut Seen,
        title: &Title,
        kind: Kind,
    ) -> Result<bool, Memory> {
        let Some(answer) = self.get(title, kind)? else {
            return Ok(false);
        };
        let Some(next) = given.checked_add(1) else {
            return Err(Memory);
        };
        let answer = answer.share()?;
        seen.add(title.share()?, kind, answer)?;
        *given = next;
        Ok(true)
    }
}

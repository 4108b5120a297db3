//! What an expansion reads.
ghost use Rattle.std.specs.Prelude.{◌≡◌, IfOk, IfErr, IsTrue, Some, None};
ghost use Rattle.wk_view_rules.specs.Expansions.{answer_to, give};
ghost use Rattle.wk_view_rules.specs.Worlds.{ask, fits_kind, of_seen};
ghost use Rattle.wk_expand.specs.Answers.{answer_of};
ghost use Rattle.wk_expand.specs.Running.{IsMissing, Keeps, Leads};

use crate::answer::Answer;
use crate::seen::Seen;
use crate::state::{Expander, Stop};
use wk_title::Title;
use wk_view_rules::Kind;

/// The answer to a title and a kind, shared; it is needed exactly where none was seen.
#[inline(always)]
pub fn asked(seen: &Seen, title: &Title, kind: Kind) -> Result<Answer, Stop>
    ensures answer { IfOk result (λ answer. ask (of_seen seen.now) title.now kind ≡ Some (answer_of answer)) }
    ensures formed { IfOk result (λ answer. IsTrue (fits_kind kind (answer_of answer))) }
    ensures missing { IfErr result (IsMissing seen.now title.now kind) }
{
    match seen.get(title, kind)? {
        Some(answer) => Ok(answer.share()?),
        None => Err(Stop::Needs(title.share()?, kind)),
    }
}

impl Expander {
    /// Reads a title with a kind.
    #[inline(always)]
    pub fn answer(&mut self, seen: &Seen, title: &Title, kind: Kind) -> Result<Answer, Stop>
        ensures keeps { Keeps result self.old self.new }
        ensures leads { Leads seen.now (answer_to title.now kind) self.old
            (λ answer. give (answer_of answer)) result self.new }
    {
        let answer = asked(seen, title, kind)?;
        self.reads.note(title, kind, &answer)?;
        Ok(answer)
    }
}

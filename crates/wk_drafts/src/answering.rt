//! What answers.
ghost use Rattle.std.specs.Prelude.{◌≡◌, ◌∷◌, ◌++◌, [], List, IfOk, OnOk, None, true, false};
ghost use Rattle.wk_text_rules.specs.Titles.{PageTitle};
ghost use Rattle.wk_view_rules.specs.Worlds.{Read, ask, of_seen};
ghost use Rattle.wk_view_rules.specs.declared.Kind.{Kind as KindValue};

use wk_expand::{Kind, Seen};
use wk_memory::Memory;
use wk_title::Title;

/// What answers where a title is asked (own): the present world of a wiki, a wiki that threads share, answers that are known.
/// `R` is what it waits by, where it waits.
pub trait Answering<R> {
    /// What changes by asking.
    type Pass;

    // It answers by this pass.
    ghost ready: { Self → Self.Pass → Type 0 };

    // The second is what asking leaves of the first.
    ghost leaves: { Self → Self.Pass → Self.Pass → Type 0 };

    // These answers were given between the first and the second.
    ghost answers: { Self → Self.Pass → Self.Pass → List Read → Type 0 };

    // It doesn't answer this.
    ghost lacks: { Self → PageTitle → KindValue → Type 0 };

    /// Keeps the answer to a title and a kind, which weren't asked yet, behind those that there are. Whether there is one;
    /// where there is none nothing is kept. `Memory` may come.
    fn ask(
        &self,
        rt: &R,
        pass: &mut Self::Pass,
        seen: &mut Seen,
        title: &Title,
        kind: Kind,
    ) -> Result<bool, Memory>
        requires ready { ready self.now pass.old }
        requires absent { ask (of_seen seen.old) title.now kind ≡ None }
        ensures ready { ready self.now pass.new }
        ensures leaves { (begun : Self.Pass) → leaves self.now begun pass.old → leaves self.now begun pass.new }
        ensures answers { (begun : Self.Pass) → leaves self.now begun pass.old → answers self.now begun pass.old seen.old
            → OnOk result (answers self.now begun pass.new seen.new) }
        ensures longer { IfOk result (λ known. known ≡ true → (read : Read) × (seen.new ≡ seen.old ++ read ∷ [])) }
        ensures unknown { IfOk result (λ known. known ≡ false → lacks self.now title.now kind × (seen.new ≡ seen.old)) };
}

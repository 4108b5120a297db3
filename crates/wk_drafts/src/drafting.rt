//! What is made step by step of answers.
ghost use Rattle.std.specs.Prelude.{◌≡◌, List, IfOk, None};
ghost use Rattle.wk_text_rules.specs.Titles.{PageTitle};
ghost use Rattle.wk_view_rules.specs.Worlds.{Agrees, Read, ask, of_seen};
ghost use Rattle.wk_view_rules.specs.declared.Kind.{Kind as KindValue};
ghost use Rattle.wk_drafts.specs.Ends.{IsRun};

use wk_expand::{Kind, Seen};
use wk_memory::Memory;
use wk_title::Title;

/// What a run comes to.
#[derive(Drop)]
pub enum Run<M, D> {
    /// All that was asked was seen.
    Done(D),
    /// This title wasn't seen with this kind. It goes on once it is.
    Needs(Title, Kind, M),
}

/// What is made step by step of answers that it asks for (own): a draft, or what a text becomes before it is saved.
pub trait Drafting: Drop {
    /// What is kept from one run to the next.
    type Kept;

    /// What it comes to.
    type Made: Drop;

    // What it has read so far.
    ghost reads: { Self → List Read };

    // The second is the first one, further on.
    ghost goes_on: { Self → Self → Type 0 };

    // The first needs this title with this kind next, by these answers.
    ghost needs: { Self → List Read → PageTitle → KindValue → Type 0 };

    // This is what the first comes to.
    ghost makes: { Self → Self.Made → Type 0 };

    // What was read for it.
    ghost reads_of: { Self.Made → List Read };

    /// Goes on as far as what was seen allows. What was seen answers what was read so far: so it does where it has all that
    /// was seen before, and more behind it.
    ///
    /// Done with what it comes to where all that is asked was seen. Else the first pair of a title and a kind that wasn't,
    /// with what goes on from there. `Memory` may come, and it is gone then. Nothing is waited for.
    fn run(self, seen: &Seen, kept: &mut Self::Kept) -> Result<Run<Self, Self::Made>, Memory>
        requires { Agrees (of_seen seen.now) (reads self) }
        ensures { (first : Self) → goes_on first self → IfOk result (IsRun
            (λ made. makes first made × Agrees (of_seen seen.now) (reads_of made))
            (λ title kind next. (ask (of_seen seen.now) title kind ≡ None) × needs first seen.now title kind
            × goes_on first next × Agrees (of_seen seen.now) (reads next))) };
}

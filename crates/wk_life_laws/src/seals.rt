//! Seals.
ghost use Rattle.std.specs.Prelude.{◌≡◌, ℕ, length, List, Some};
ghost use Rattle.wk_wiki_rules.specs.States.{State};
ghost use Rattle.wk_wiki_rules.specs.Events.{Event};
ghost use Rattle.wk_wiki_rules.specs.Lives.{state_at};
ghost use Rattle.wk_wiki_rules.specs.Starts.{Start};
ghost use Rattle.wk_life_laws.specs.Lives.{Life, IsLife, journal_of, start_of};
ghost use Rattle.wk_life_laws.specs.Next.{with_seal};
ghost use Rattle.wk_life_laws.specs.Runs.{IsRun};

/// A wiki is sealed at its present point: of the start that it tells, this point alone is other then.
pub fn a_seal_keeps_a_life()
    ensures sealed { (life : Life) (point : ℕ)
        → IsLife life → length (journal_of life) ≡ point → IsLife (with_seal life point) }
    ensures start { (life : Life) (point : ℕ) → start_of (with_seal life point) ≡ record (start_of life) { sealed = Some point } }
    ensures journal { (life : Life) (point : ℕ) → journal_of (with_seal life point) ≡ journal_of life }
{}

/// A wiki that was sealed has the revisions and the pages that it had at the seal.
pub fn a_sealed_run_keeps_its_history()
    ensures { (start : Start) (journal : List Event) (state middle : State) (point : ℕ)
        → IsRun start journal state → start.sealed ≡ Some point → state_at start.state journal point ≡ Some middle
        → state.history ≡ middle.history }
{}

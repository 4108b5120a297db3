//! The saves of what a wiki tells, and the conflicts.
ghost use Rattle.std.specs.Prelude.{◌≡◌, ℕ, List};
ghost use Rattle.wk_page_rules.specs.Verdict.{EditAsked, edit_conflict, refuse};
ghost use Rattle.wk_wiki_rules.specs.States.{State};
ghost use Rattle.wk_wiki_rules.specs.Events.{Event};
ghost use Rattle.wk_wiki_rules.specs.Verdicts.{verdict_in};
ghost use Rattle.wk_wiki_laws.specs.Conflicts.{IsInConflict};
ghost use Rattle.wk_wiki_laws.specs.Saves.{Continues, after_saves, saves};
ghost use Rattle.wk_wiki_rules.specs.Starts.{Start};
ghost use Rattle.wk_life_laws.specs.Runs.{IsRun};

/// The revisions and the pages are those of the start, and then what the saves of the journal make of them, in their order:
/// none is lost or changed, and each save makes one.
pub fn a_run_is_one_history_of_saves()
    ensures saves { (start : Start) (journal : List Event) (state : State)
        → IsRun start journal state → state.history ≡ after_saves start.state.history (saves journal) }
    ensures continues { (start : Start) (journal : List Event) (state : State)
        → IsRun start journal state → Continues start.state.history (saves journal) state.history }
{}

/// An edit is refused as a conflict exactly where it names a base that isn't the page's current revision, and no refusal
/// applies that comes before.
pub fn a_run_refuses_conflicts_alone()
    ensures conflict { (start : Start) (state : State) (point : ℕ) (edit : EditAsked) (current : ℕ)
        → IsInConflict state.history edit current
        → verdict_in start.limits state point edit ≡ refuse (edit_conflict current) }
    ensures only_so { (start : Start) (state : State) (point : ℕ) (edit : EditAsked) (current : ℕ)
        → verdict_in start.limits state point edit ≡ refuse (edit_conflict current)
        → IsInConflict state.history edit current }
{}

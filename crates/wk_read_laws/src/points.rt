//! Answers of points of a journal.
ghost use Rattle.std.specs.Prelude.{◌≡◌, ℕ, ◌≤◌, ◌∷◌, ◌++◌, [], All, IsTrue, length, List, Some};
ghost use mathlib.Core.List.{IsPrefix};
ghost use Rattle.wk_page_rules.specs.History.{text_of_revision};
ghost use Rattle.wk_view_rules.specs.Worlds.{Agrees, IsHonest, Read, World, fits_kind, of_seen};
ghost use Rattle.wk_wiki_rules.specs.States.{State};
ghost use Rattle.wk_wiki_rules.specs.Events.{Event};
ghost use Rattle.wk_wiki_rules.specs.Staleness.{StaleRead, first_stale};
ghost use Rattle.wk_wiki_rules.specs.Starts.{Start};
ghost use Rattle.wk_life_laws.specs.Runs.{IsRun};
ghost use Rattle.wk_read_laws.specs.Points.{AreReadSince, IsReadSince, IsStaleSince};

/// Answers are those of points from one on: of none at first, of one more with each that is asked, also behind a longer
/// journal, and of those alone that something answers in the same way.
pub fn answers_are_of_points()
    ensures none { (start : Start) (journal : List Event) (from : ℕ) → AreReadSince start journal from [] }
    ensures more { (start : Start) (journal : List Event) (from : ℕ) (reads : List Read) (read : Read)
        → AreReadSince start journal from reads → IsReadSince start journal from read
        → AreReadSince start journal from (reads ++ read ∷ []) }
    ensures later { (start : Start) (journal longer : List Event) (from : ℕ) (reads : List Read)
        → IsPrefix journal longer → AreReadSince start journal from reads → AreReadSince start longer from reads }
    ensures among { (start : Start) (journal : List Event) (from : ℕ) (seen reads : List Read)
        → AreReadSince start journal from seen → Agrees (of_seen seen) reads → AreReadSince start journal from reads }
{}

/// Answers of points are honest in the state behind the journal, and each has its kind's form. One that isn't current was
/// current at its point.
pub fn answers_of_points_are_honest()
    ensures honest { (start : Start) (journal : List Event) (state : State) (from : ℕ) (reads : List Read)
        → IsRun start journal state → AreReadSince start journal from reads
        → IsHonest (text_of_revision state.history) reads }
    ensures formed { (start : Start) (journal : List Event) (from : ℕ) (reads : List Read)
        → AreReadSince start journal from reads → All (λ (r : Read). IsTrue (fits_kind r.kind r.answer)) reads }
    ensures stale { (start : Start) (journal : List Event) (from : ℕ) (pages : World) (reads : List Read) (stale : StaleRead)
        → AreReadSince start journal from reads → first_stale pages reads ≡ Some stale
        → IsStaleSince start journal from pages stale }
{}

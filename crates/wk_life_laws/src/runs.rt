//! What holds of the start, the journal and the state that a wiki tells.
ghost use Rattle.std.specs.Prelude.{◌≡◌, ◌++◌, ◌∷◌, [], Bool, ℕ, ◌≤◌, ◌^◌, true, length, List, None, Some};
ghost use Rattle.wk_page_rules.specs.History.{text_of_revision};
ghost use Rattle.wk_page_rules.specs.Verdict.{max_pages};
ghost use Rattle.wk_table_rules.specs.GoodStore.{IsGood};
ghost use Rattle.wk_view_rules.specs.Worlds.{IsHonest, Read};
ghost use Rattle.wk_wiki_rules.specs.States.{State};
ghost use Rattle.wk_wiki_rules.specs.Events.{Event, step};
ghost use Rattle.wk_wiki_rules.specs.Lives.{opened, reopened, replay, state_at};
ghost use Rattle.wk_wiki_rules.specs.Tables.{state_of, tables_of};
ghost use Rattle.wk_wiki_laws.specs.Kept.{IsKept};
ghost use Rattle.wk_wiki_laws.specs.WellFormed.{IsWellFormed};
ghost use Rattle.wk_wiki_rules.specs.Calls.{IsMade};
ghost use Rattle.wk_wiki_rules.specs.Entries.{is_save};
ghost use Rattle.wk_wiki_rules.specs.Passes.{CacheEntry, state_seen};
ghost use Rattle.wk_wiki_rules.specs.Starts.{Start};
ghost use Rattle.wk_life_laws.specs.Caches.{IsLastingEntry};
ghost use Rattle.wk_life_laws.specs.Sound.{IsSoundSince};
ghost use Rattle.wk_life_laws.specs.Runs.{IsRun};

/// Each event that a call makes goes on from what a wiki tells.
pub fn a_run_goes_on()
    ensures { (start : Start) (journal : List Event) (state next : State) (event : Event)
        → IsRun start journal state → IsMade start.limits state (length journal) event
        → (is_save event ≡ true → start.sealed ≡ None) → step state (length journal) event ≡ Some next
        → IsRun start (journal ++ event ∷ []) next }
{}

/// Whether the keeper of the tables can fail plays no part.
pub fn a_run_is_one_with_any_keeper()
    ensures { (start : Start) (journal : List Event) (state : State) (whole : Bool)
        → IsRun start journal state → IsRun (record start { whole = whole }) journal state }
{}

/// The journal leads from the start to the state, which is of good form.
pub fn a_run_is_replayed()
    ensures replayed { (start : Start) (journal : List Event) (state : State)
        → IsRun start journal state → replay start.state journal ≡ Some state }
    ensures present { (start : Start) (journal : List Event) (state : State)
        → IsRun start journal state → state_at start.state journal (length journal) ≡ Some state }
    ensures seen { (start : Start) (journal : List Event) (state : State) (own : List ℕ)
        → IsRun start journal state
        → state_seen (record { start = start; journal = journal; own = own }) (length journal) ≡ Some state }
    ensures point { (start : Start) (journal : List Event) (state : State) (point : ℕ)
        → IsRun start journal state → (middle : State) × (state_at start.state journal point ≡ Some middle) }
{}

/// The state is of good form, and its numbers are within bounds.
pub fn a_run_keeps_its_form()
    ensures kept { (start : Start) (journal : List Event) (state : State) → IsRun start journal state → IsKept state }
    ensures formed { (start : Start) (journal : List Event) (state : State) → IsRun start journal state → IsWellFormed state }
    ensures next { (start : Start) (journal : List Event) (state : State)
        → IsRun start journal state → state.jobs.next ≤ 2 ^ 63 }
    ensures pages { (start : Start) (journal : List Event) (state : State)
        → IsRun start journal state → length state.history.pages ≤ max_pages }
{}

/// The link rows are sound where they are at the start.
pub fn a_run_is_sound_where_its_start_is()
    ensures { (start : Start) (journal : List Event) (state : State)
        → IsRun start journal state → IsSoundSince start.state state }
{}

/// The tables of the state are good, and a store that holds them is opened as the state after a restart.
pub fn a_run_has_good_tables()
    ensures good { (start : Start) (journal : List Event) (state : State)
        → IsRun start journal state → IsGood (tables_of state) }
    ensures stood_for { (start : Start) (journal : List Event) (state : State)
        → IsRun start journal state → state_of (tables_of state) ≡ reopened state }
    ensures opened { (start : Start) (journal : List Event) (state : State)
        → IsRun start journal state → opened (tables_of state) ≡ reopened state }
{}

/// What was read at any point of the journal is honest still, and what a cache keeps of it lasts.
pub fn a_run_keeps_reads_honest()
    ensures reads { (start : Start) (journal : List Event) (state middle : State) (point : ℕ) (reads : List Read)
        → IsRun start journal state → state_at start.state journal point ≡ Some middle
        → IsHonest (text_of_revision middle.history) reads → IsHonest (text_of_revision state.history) reads }
    ensures entries { (start : Start) (journal : List Event) (state middle : State) (point : ℕ) (entry : CacheEntry)
        → IsRun start journal state → state_at start.state journal point ≡ Some middle
        → IsLastingEntry middle entry → IsLastingEntry state entry }
{}

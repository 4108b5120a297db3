//! What a wiki keeps at all times.
ghost use Rattle.std.specs.Prelude.{◌≡◌, ℕ, List, Some};
ghost use Rattle.wk_page_rules.specs.Verdict.{MostHeld};
ghost use Rattle.wk_table_rules.specs.Rows.{StoreTables};
ghost use Rattle.wk_table_rules.specs.GoodStore.{IsGood};
ghost use Rattle.wk_wiki_rules.specs.States.{State, no_state};
ghost use Rattle.wk_wiki_rules.specs.Events.{Event, step_by};
ghost use Rattle.wk_wiki_rules.specs.Lives.{reopened, opened};
ghost use Rattle.wk_wiki_rules.specs.Tables.{tables_of, state_of};
ghost use Rattle.wk_wiki_laws.specs.Kept.{IsKept};
ghost use Rattle.wk_wiki_laws.specs.Reached.{IsReached, IsWithinFull};
ghost use Rattle.wk_wiki_rules.specs.Calls.{CallsMake, IsMade};

/// What a wiki keeps at all times, one refresh job a page, one fan job a title, numbers of their own, and revisions, pages
/// and rows of good form, holds of an empty wiki and of one that is opened over good tables. Each event that a call makes
/// within full limits keeps it, and so do the events that calls make over time, and each restart.
pub fn a_wiki_keeps_its_form()
    ensures none { IsKept no_state }
    ensures stood_for { (tables : StoreTables) → IsGood tables → IsKept (state_of tables) }
    ensures opened { (tables : StoreTables) → IsGood tables → IsKept (opened tables) }
    ensures stepped { (served : ℕ) (most : MostHeld) (state next : State) (journal : ℕ) (event : Event)
        → IsWithinFull most → IsMade most state journal event → step_by served state journal event ≡ Some next
        → IsKept state → IsKept next }
    ensures called { (served : ℕ) (most : MostHeld) (start last : State) (events : List Event)
        → IsWithinFull most → CallsMake served most start events last → IsKept start → IsKept last }
    ensures reopened { (state : State) → IsKept state → IsKept (reopened state) }
    ensures reached { (state : State) → IsReached state → IsKept state }
{}

/// The tables of a state that keeps this are good, and a store that holds them is opened as the state after a restart.
pub fn kept_states_have_good_tables()
    ensures good { (state : State) → IsKept state → IsGood (tables_of state) }
    ensures stood_for { (state : State) → IsKept state → state_of (tables_of state) ≡ reopened state }
    ensures opened { (state : State) → IsKept state → opened (tables_of state) ≡ reopened state }
{}

//! Stores: the tables of a wiki's states are good, and what a wiki is that is opened over good tables.
ghost use Rattle.std.specs.Prelude.{◌≡◌, List};
ghost use Rattle.wk_table_rules.specs.Rows.{StoreTables};
ghost use Rattle.wk_table_rules.specs.GoodStore.{IsGood};
ghost use Rattle.wk_wiki_rules.specs.States.{State};
ghost use Rattle.wk_wiki_rules.specs.Events.{Event};
ghost use Rattle.wk_wiki_rules.specs.Tables.{state_of, tables_of};
ghost use Rattle.wk_wiki_rules.specs.Lives.{opened, reopened, LivesOfStore};
ghost use Rattle.wk_wiki_rules.specs.Soundness.{IsSound};
ghost use Rattle.wk_wiki_laws.specs.Reached.{IsReached};
ghost use Rattle.wk_wiki_laws.specs.WellFormed.{IsWellFormed};

/// Good tables stand for a wiki that is well formed, and a store that has them is opened as one.
pub fn good_tables_are_opened_well_formed()
    ensures stood_for { (tables : StoreTables) → IsGood tables → IsWellFormed (state_of tables) }
    ensures opened { (tables : StoreTables) → IsGood tables → IsWellFormed (opened tables) }
{}

/// A wiki that was opened over good tables is sound at every moment of each of its lives: over those of version 1
/// whatever their rows are, and over others where their rows stand for a sound wiki.
pub fn a_wiki_over_good_tables_is_sound_at_all_times()
    ensures first_version { (tables : StoreTables) (journals : List (List Event)) (last : State)
        → IsGood tables → tables.version ≡ 1 → LivesOfStore tables journals last → IsSound last }
    ensures sound_rows { (tables : StoreTables) (journals : List (List Event)) (last : State)
        → IsGood tables → IsSound (state_of tables) → LivesOfStore tables journals last → IsSound last }
{}

/// The tables of each state that calls with full limits reach break no rule.
pub fn tables_that_calls_make_are_good()
    ensures { (state : State) → IsReached state → IsGood (tables_of state) }
{}

/// A store that holds a state which calls with full limits reach is opened as that state after a restart. So what the
/// tables leave out is what a restart makes anew: which jobs are claimed, their order after one was given back, and the
/// number of the next job.
pub fn a_store_is_opened_as_the_state_after_a_restart()
    ensures stood_for { (state : State) → IsReached state → state_of (tables_of state) ≡ reopened state }
    ensures opened { (state : State) → IsReached state → opened (tables_of state) ≡ reopened state }
    ensures sound { (state : State) → IsReached state → IsSound state → IsSound (opened (tables_of state)) }
{}

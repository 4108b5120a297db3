//! Soundness: the link rows of each page are current, or a job covers the page.
ghost use Rattle.std.specs.Prelude.{◌≡◌, ◌≢◌, ℕ, List, [], Option, Some};
ghost use Rattle.wk_text_rules.specs.Titles.{PageTitle};
ghost use Rattle.wk_page_rules.specs.History.{Page};
ghost use Rattle.wk_table_rules.specs.Rows.{StoreTables};
ghost use Rattle.wk_wiki_rules.specs.Jobs.{page_held_by};
ghost use Rattle.wk_wiki_rules.specs.Covers.{is_covered};
ghost use Rattle.wk_wiki_rules.specs.States.{State, no_state, page_at, stored_at};
ghost use Rattle.wk_wiki_rules.specs.Events.{Event, Save, Claim, Done, Back, Fan, step_by};
ghost use Rattle.wk_wiki_rules.specs.Lives.{replay_by, reopened, opened, Lives, LivesOfStore};
ghost use Rattle.wk_wiki_rules.specs.Tables.{state_of};
ghost use Rattle.wk_wiki_rules.specs.Soundness.{IsSound, IsCurrent};
ghost use Rattle.wk_wiki_laws.specs.WellFormed.{IsWellFormed};

/// A wiki in which nothing was ever saved is sound.
pub fn an_empty_wiki_is_sound()
    ensures { IsSound no_state }
{}

/// Where no job is left in a sound wiki, the link rows of each page are current.
pub fn pages_are_current_when_no_job_is_left()
    ensures { (state : State) → IsSound state → state.jobs.refreshes ≡ [] → state.jobs.fans ≡ []
        → (number : ℕ) (page : Page) → page_at state.history number ≡ Some page → IsCurrent state number page }
{}

/// Claims, give-backs and restarts keep a wiki sound.
pub fn soundness_is_kept_while_no_row_changes()
    ensures claimed { (most : ℕ) (state next : State) (journal : ℕ)
        → step_by most state journal Claim ≡ Some next → IsSound state → IsSound next }
    ensures given_back { (most : ℕ) (state next : State) (journal ticket : ℕ)
        → step_by most state journal (Back ticket) ≡ Some next → IsSound state → IsSound next }
    ensures reopened { (state : State) → IsSound state → IsSound (reopened state) }
{}

/// A store of version 1 is opened as a sound wiki, whatever its rows are; and any store is where its rows stand for a
/// sound wiki.
pub fn a_store_is_opened_as_a_sound_wiki()
    ensures first_version { (tables : StoreTables) → tables.version ≡ 1 → IsSound (opened tables) }
    ensures sound_rows { (tables : StoreTables) → IsSound (state_of tables) → IsSound (opened tables) }
{}

/// A refresh that is done makes its page current, changes neither the stored link rows nor the jobs of another page,
/// and keeps a wiki sound.
pub fn a_refresh_makes_its_page_current()
    ensures current { (most : ℕ) (state next : State) (journal ticket number : ℕ) (page : Page)
        → IsWellFormed state → page_held_by state.jobs ticket ≡ Some number → page_at state.history number ≡ Some page
        → step_by most state journal (Done ticket) ≡ Some next → IsCurrent next number page }
    ensures other_rows { (most : ℕ) (state next : State) (journal ticket held number : ℕ)
        → IsWellFormed state → page_held_by state.jobs ticket ≡ Some held → number ≢ held
        → step_by most state journal (Done ticket) ≡ Some next → stored_at next number ≡ stored_at state number }
    ensures other_cover { (most : ℕ) (state next : State) (journal ticket held number : ℕ)
        → IsWellFormed state → page_held_by state.jobs ticket ≡ Some held → number ≢ held
        → step_by most state journal (Done ticket) ≡ Some next
        → is_covered next.jobs number (stored_at next number) ≡ is_covered state.jobs number (stored_at state number) }
    ensures sound { (most : ℕ) (state next : State) (journal ticket : ℕ)
        → IsWellFormed state → step_by most state journal (Done ticket) ≡ Some next → IsSound state → IsSound next }
{}

/// A fan keeps a wiki sound: each page that its job covered before has a refresh job then, or the job still covers it.
pub fn a_fan_keeps_soundness()
    ensures { (most : ℕ) (state next : State) (journal : ℕ)
        → step_by most state journal Fan ≡ Some next → IsSound state → IsSound next }
{}

/// A save keeps a wiki sound: its own page has a refresh job then, the fan job of its title covers each page whose
/// link rows may change, and those of all others stay as they are.
pub fn a_save_keeps_soundness()
    ensures { (most : ℕ) (state next : State) (journal : ℕ) (title : PageTitle) (text : Option (List ℕ)) (moment : ℕ)
        → IsWellFormed state → step_by most state journal (Save title text moment) ≡ Some next → IsSound state → IsSound next }
{}

/// What these laws ask of a wiki besides soundness holds of an empty one, and each event and each restart keep it.
pub fn a_wiki_is_well_formed()
    ensures none { IsWellFormed no_state }
    ensures stepped { (most : ℕ) (state next : State) (journal : ℕ) (event : Event)
        → step_by most state journal event ≡ Some next → IsWellFormed state → IsWellFormed next }
    ensures reopened { (state : State) → IsWellFormed state → IsWellFormed (reopened state) }
{}

/// A journal keeps a wiki sound; so a wiki that began empty is sound at every moment of each of its lives, and one that
/// was opened over a store is where it was opened sound and well formed.
pub fn a_wiki_is_sound_at_all_times()
    ensures journal { (most : ℕ) (start last : State) (events : List Event)
        → IsWellFormed start → IsSound start → replay_by most start events ≡ Some last → IsSound last }
    ensures lives { (journals : List (List Event)) (last : State) → Lives no_state journals last → IsSound last }
    ensures lives_of_a_store { (tables : StoreTables) (journals : List (List Event)) (last : State)
        → IsWellFormed (opened tables) → IsSound (opened tables) → LivesOfStore tables journals last → IsSound last }
{}

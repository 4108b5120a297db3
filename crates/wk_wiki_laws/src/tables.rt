//! Told tables: the change that goes with each event makes of the tables of a state those of the state behind it.
ghost use Rattle.std.specs.Prelude.{◌≡◌, ℕ, List, [], Option, Some};
ghost use Rattle.wk_text_rules.specs.Titles.{PageTitle};
ghost use Rattle.wk_table_rules.specs.Rows.{StoreTables, newest_version};
ghost use Rattle.wk_table_rules.specs.GoodStore.{IsGood};
ghost use Rattle.wk_wiki_rules.specs.Jobs.{RefreshEntry, FanEntry, first_fan};
ghost use Rattle.wk_view_rules.specs.Rows.{rows};
ghost use Rattle.wk_wiki_rules.specs.States.{State, stored_at, title_at, world_of};
ghost use Rattle.wk_wiki_rules.specs.Events.{Save, Claim, Done, Back, Fan, step_by};
ghost use Rattle.wk_wiki_rules.specs.Lives.{reopened, opened};
ghost use Rattle.wk_wiki_rules.specs.Tables.{tables_of};
ghost use Rattle.wk_wiki_laws.specs.Kept.{IsKept};
ghost use Rattle.wk_wiki_rules.specs.TableChanges.{save_change, refresh_change, refresh_change_without_rows, fan_change, job_held_by, migration};
ghost use Rattle.wk_wiki_laws.specs.Makes.{Makes};

/// The change of a save fits the tables of the state, and makes them those of the state behind the save.
pub fn a_save_changes_the_tables()
    ensures { (served : ℕ) (state next : State) (journal : ℕ) (title : PageTitle) (text : Option (List ℕ)) (moment : ℕ)
        → IsKept state → step_by served state journal (Save title text moment) ≡ Some next
        → Makes (tables_of state) (save_change state title text moment) (tables_of next) }
{}

/// The change of a refresh that is done fits the tables of the state, and makes them those of the state behind it: with the
/// rows that the page has in the present world, or without them where they are stored already.
pub fn a_refresh_changes_the_tables()
    ensures with_rows { (served : ℕ) (state next : State) (journal ticket : ℕ) (job : RefreshEntry)
        → IsKept state → job_held_by state.jobs ticket ≡ Some job → step_by served state journal (Done ticket) ≡ Some next
        → Makes (tables_of state) (refresh_change job (rows (world_of state) (title_at state.history job.page))) (tables_of next) }
    ensures without_rows { (served : ℕ) (state next : State) (journal ticket : ℕ) (job : RefreshEntry)
        → IsKept state → job_held_by state.jobs ticket ≡ Some job → step_by served state journal (Done ticket) ≡ Some next
        → stored_at state job.page ≡ rows (world_of state) (title_at state.history job.page)
        → Makes (tables_of state) (refresh_change_without_rows job) (tables_of next) }
{}

/// The change of a fan fits the tables of the state, and makes them those of the state behind the fan.
pub fn a_fan_changes_the_tables()
    ensures { (served : ℕ) (state next : State) (journal : ℕ) (fan : FanEntry)
        → IsKept state → first_fan state.jobs ≡ Some fan → step_by served state journal Fan ≡ Some next
        → Makes (tables_of state) (fan_change served state fan) (tables_of next) }
{}

/// A claim, a refresh that is given back, and a restart change no table.
pub fn claims_and_returns_change_no_table()
    ensures claimed { (served : ℕ) (state next : State) (journal : ℕ)
        → step_by served state journal Claim ≡ Some next → tables_of next ≡ tables_of state }
    ensures given_back { (served : ℕ) (state next : State) (journal ticket : ℕ)
        → IsKept state → step_by served state journal (Back ticket) ≡ Some next → tables_of next ≡ tables_of state }
    ensures reopened { (state : State) → tables_of (reopened state) ≡ tables_of state }
{}

/// Good tables of the newest version are those of the wiki that is opened over them. The migration fits good tables of each
/// version, and makes them those of the wiki that is opened.
pub fn opened_tables_are_those_of_the_wiki()
    ensures newest { (tables : StoreTables) → IsGood tables → tables.version ≡ newest_version → tables_of (opened tables) ≡ tables }
    ensures migrated { (tables : StoreTables) → IsGood tables → Makes tables (migration tables) (tables_of (opened tables)) }
{}

/// A restart of a wiki that was just restarted changes nothing.
pub fn reopening_twice_is_reopening_once()
    ensures { (state : State) → reopened (reopened state) ≡ reopened state }
{}

/// The job table has no row exactly where no job of either kind stands.
pub fn no_job_row_means_no_job()
    ensures none { (state : State) → state.jobs.refreshes ≡ [] → state.jobs.fans ≡ [] → (tables_of state).jobs ≡ [] }
    ensures only_so { (state : State) → (tables_of state).jobs ≡ [] → (state.jobs.refreshes ≡ []) × (state.jobs.fans ≡ []) }
{}

//! Laws of fans, and of what was read for a page while other events came between.
ghost use Rattle.std.specs.Prelude.{◌≡◌, ◌==◌, ◌&&◌, ℕ, ◌<◌, ◌≤◌, nat_lt, All, AllPairs, true, false, List, length, drop, Some};
ghost use Rattle.std.specs.List.{list_any};
ghost use Rattle.wk_text_rules.specs.Titles.{PageTitle};
ghost use Rattle.wk_page_rules.specs.History.{text_of_revision};
ghost use Rattle.wk_page_rules.specs.declared.Reach.{Reach};
ghost use Rattle.wk_table_rules.specs.Rows.{StoreTables};
ghost use Rattle.wk_view_rules.specs.Worlds.{IsHonest, Read};
ghost use Rattle.wk_wiki_rules.specs.Jobs.{FanEntry, first_fan, with_first_cursor};
ghost use Rattle.wk_wiki_rules.specs.Steps.{all_queued, cursor_behind, next_served};
ghost use Rattle.wk_page_rules.specs.PageRows.{names};
ghost use Rattle.wk_wiki_rules.specs.Users.{users};
ghost use Rattle.wk_wiki_rules.specs.States.{State, stored_at};
ghost use Rattle.wk_wiki_rules.specs.Events.{Event, Fan, step_by};
ghost use Rattle.wk_wiki_rules.specs.Lives.{replay_from, reopened, opened, Lives, LivesOfStore};
ghost use Rattle.wk_wiki_laws.specs.FanRuns.{FanRun};

/// A fan queues a refresh of each page that it serves. These are above its job's cursor, each one's stored link rows
/// name the title, and they rise: none is served twice. The job goes where no page above the new cursor, the last
/// page that was served, names the title; where one does, the job stands with that cursor.
pub fn a_fan_serves_each_page_once()
    ensures queued { (most : ℕ) (state next : State) (journal : ℕ) (fan : FanEntry)
        → first_fan state.jobs ≡ Some fan → step_by most state journal Fan ≡ Some next
        → next.jobs.refreshes ≡ (all_queued state.jobs (next_served state.stored most fan)).refreshes }
    ensures served { (state : State) (title : PageTitle) (reach : Reach) (above most : ℕ)
        → All (λ page. (above < page) × (names (stored_at state page) title reach ≡ true)) (users state.stored title reach above most) }
    ensures rising { (state : State) (title : PageTitle) (reach : Reach) (above most : ℕ)
        → AllPairs (λ (a b : ℕ). a < b) (users state.stored title reach above most) }
    ensures ended { (most : ℕ) (state next : State) (journal : ℕ) (fan : FanEntry) (cursor : ℕ)
        → first_fan state.jobs ≡ Some fan → step_by most state journal Fan ≡ Some next
        → cursor ≡ cursor_behind (next_served state.stored most fan) fan.cursor
        → ((page : ℕ) → cursor < page → names (stored_at state page) fan.title fan.reach ≡ false)
        → next.jobs.fans ≡ drop 1 state.jobs.fans }
    ensures moved { (most : ℕ) (state next : State) (journal : ℕ) (fan : FanEntry) (cursor page : ℕ)
        → first_fan state.jobs ≡ Some fan → step_by most state journal Fan ≡ Some next
        → cursor ≡ cursor_behind (next_served state.stored most fan) fan.cursor
        → cursor < page → names (stored_at state page) fan.title fan.reach ≡ true
        → next.jobs.fans ≡ with_first_cursor state.jobs.fans cursor }
{}

/// No page is missed: those above the old cursor that name the title, up to the last page that is served, are served.
pub fn a_fan_misses_no_page()
    ensures { (state : State) (title : PageTitle) (reach : Reach) (above most page : ℕ)
        → above < page → page ≤ cursor_behind (users state.stored title reach above most) above
        → names (stored_at state page) title reach ≡ true
        → list_any (λ served. served == page) (users state.stored title reach above most) ≡ true }
{}

/// Fans with no other event between, from one that serves a job to the one with which the job goes, serve exactly the
/// pages above the job's cursor whose stored link rows name its title under its reach, once each, by rising number. Each
/// of these pages gets a refresh job where it has none, and the other fan jobs stay. Where a fan may serve at least one
/// page, such fans lead on from each state that has a fan job.
pub fn a_run_of_fans_serves_every_page()
    ensures served { (most : ℕ) (state last : State) (journal : ℕ) (fan : FanEntry) (pages : List ℕ)
        → first_fan state.jobs ≡ Some fan → FanRun most state journal pages last
        → pages ≡ users state.stored fan.title fan.reach fan.cursor (length state.stored) }
    ensures exact { (most : ℕ) (state last : State) (journal : ℕ) (fan : FanEntry) (pages : List ℕ) (page : ℕ)
        → first_fan state.jobs ≡ Some fan → FanRun most state journal pages last
        → list_any (λ served. served == page) pages
        ≡ (nat_lt fan.cursor page && names (stored_at state page) fan.title fan.reach) }
    ensures rising { (most : ℕ) (state last : State) (journal : ℕ) (pages : List ℕ)
        → FanRun most state journal pages last → AllPairs (λ (a b : ℕ). a < b) pages }
    ensures queued { (most : ℕ) (state last : State) (journal : ℕ) (pages : List ℕ)
        → FanRun most state journal pages last
        → last.jobs.refreshes ≡ (all_queued state.jobs pages).refreshes }
    ensures gone { (most : ℕ) (state last : State) (journal : ℕ) (pages : List ℕ)
        → FanRun most state journal pages last → last.jobs.fans ≡ drop 1 state.jobs.fans }
    ensures ends { (most : ℕ) (state : State) (journal : ℕ) (fan : FanEntry)
        → 1 ≤ most → first_fan state.jobs ≡ Some fan
        → (pages : List ℕ) × ((last : State) × FanRun most state journal pages last) }
{}

/// Reads whose texts are those of their revisions stay so, whatever events come, over a restart, and over many lives.
pub fn honest_reads_stay_honest()
    ensures stepped { (most : ℕ) (state next : State) (journal : ℕ) (event : Event) (reads : List Read)
        → step_by most state journal event ≡ Some next
        → IsHonest (text_of_revision state.history) reads → IsHonest (text_of_revision next.history) reads }
    ensures replayed { (most : ℕ) (start last : State) (journal : ℕ) (events : List Event) (reads : List Read)
        → replay_from most start journal events ≡ Some last
        → IsHonest (text_of_revision start.history) reads → IsHonest (text_of_revision last.history) reads }
    ensures reopened { (state : State) (reads : List Read)
        → IsHonest (text_of_revision state.history) reads → IsHonest (text_of_revision (reopened state).history) reads }
    ensures lived { (start last : State) (journals : List (List Event)) (reads : List Read)
        → Lives start journals last
        → IsHonest (text_of_revision start.history) reads → IsHonest (text_of_revision last.history) reads }
    ensures lived_from_store { (tables : StoreTables) (last : State) (journals : List (List Event)) (reads : List Read)
        → LivesOfStore tables journals last
        → IsHonest (text_of_revision (opened tables).history) reads → IsHonest (text_of_revision last.history) reads }
{}

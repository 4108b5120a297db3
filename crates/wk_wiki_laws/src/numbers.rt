//! The numbers of jobs, pages and cursors.
ghost use Rattle.std.specs.Prelude.{◌≡◌, ℕ, ◌+◌, ◌≤◌, ◌<◌, ◌^◌, false, All, List, length, Option, Some};
ghost use Rattle.std.specs.List.{list_any};
ghost use Rattle.wk_text_rules.specs.Titles.{PageTitle};
ghost use Rattle.wk_page_rules.specs.Verdict.{EditAsked, MostHeld, accept, max_pages};
ghost use Rattle.wk_wiki_rules.specs.Jobs.{IsNumbered, numbers_of};
ghost use Rattle.wk_wiki_rules.specs.States.{State};
ghost use Rattle.wk_wiki_rules.specs.Events.{Event, step_by};
ghost use Rattle.wk_wiki_rules.specs.Lives.{replay_from, reopened};
ghost use Rattle.wk_wiki_rules.specs.Verdicts.{verdict_in};
ghost use Rattle.wk_wiki_laws.specs.Kept.{IsKept};
ghost use Rattle.wk_wiki_laws.specs.WellFormed.{IsWellFormed};
ghost use Rattle.wk_wiki_rules.specs.Entries.{is_save};
ghost use Rattle.wk_wiki_rules.specs.Room.{is_fan_refused};
ghost use Rattle.wk_wiki_laws.specs.Numbers.{pages_ahead};

/// In a wiki that keeps its form the number of the next job is at most 2^63, so that each job's number is below; where a
/// save or a fan begins it is at most 2^62. There are at most 1,000,000 pages, and no cursor is above that.
pub fn numbers_stay_within_bounds()
    ensures next { (state : State) → IsKept state → state.jobs.next ≤ 2 ^ 63 }
    ensures jobs { (state : State) → IsKept state → All (λ number. (1 ≤ number) × (number < 2 ^ 63)) (numbers_of state.jobs) }
    ensures at_a_save { (most : MostHeld) (state : State) (journal : ℕ) (edit : EditAsked) (title : PageTitle) (text : Option (List ℕ))
        → verdict_in most state journal edit ≡ accept title text → state.jobs.next ≤ 2 ^ 62 }
    ensures at_a_fan { (most : MostHeld) (state : State) (journal : ℕ)
        → is_fan_refused most state journal ≡ false → state.jobs.next ≤ 2 ^ 62 }
    ensures pages { (state : State) → IsKept state → length state.history.pages ≤ max_pages }
    ensures cursors { (state : State) → IsKept state → All (λ fan. fan.cursor ≤ max_pages) state.jobs.fans }
{}

/// Fans raise the number of the next job by at most the pages above their jobs' cursors, summed over the fan jobs: the number
/// and this sum together don't rise at any event but a save, nor at a restart.
pub fn fans_add_at_most_the_pages_ahead()
    ensures stepped { (served : ℕ) (state next : State) (journal : ℕ) (event : Event)
        → IsWellFormed state → is_save event ≡ false → step_by served state journal event ≡ Some next
        → next.jobs.next + pages_ahead next ≤ state.jobs.next + pages_ahead state }
    ensures replayed { (served : ℕ) (state last : State) (journal : ℕ) (events : List Event)
        → IsWellFormed state → list_any is_save events ≡ false → replay_from served state journal events ≡ Some last
        → last.jobs.next + pages_ahead last ≤ state.jobs.next + pages_ahead state }
    ensures reopened { (state : State)
        → IsNumbered state.jobs → (reopened state).jobs.next + pages_ahead (reopened state) ≤ state.jobs.next + pages_ahead state }
{}

//! Laws of the tools; and of a wiki that was sealed and goes on: what comes behind the seal are jobs alone. Each is the contract
//! of a function with an empty body.
#![tactic(auto)]

ghost use Rattle.std.specs.Prelude.{◌≡◌, ℕ, false, [], List};
ghost use Rattle.wk_page_rules.specs.History.{Page};
ghost use Rattle.wk_wiki_rules.specs.States.{State};
ghost use Rattle.wk_wiki_rules.specs.Soundness.{IsCurrent, IsSound};
ghost use Rattle.wk_tool_rules.specs.Checks.{differing, differs};
ghost use Rattle.wk_wiki_rules.specs.Events.{Event};
ghost use Rattle.wk_wiki_rules.specs.Starts.{Start};
ghost use Rattle.wk_life_laws.specs.Runs.{IsRun};
ghost use Rattle.wk_tool_laws.specs.Sealed.{AddsJobs, IsSealedAt};

/// A page differs exactly where its stored rows aren't those that it has in the present world.
pub fn a_page_differs_where_its_rows_are_not_current()
    ensures only_so { (state : State) (number : ℕ) (page : Page)
        → differs state (number, page) ≡ false → IsCurrent state number page }
    ensures current { (state : State) (number : ℕ) (page : Page)
        → IsCurrent state number page → differs state (number, page) ≡ false }
{}

/// Where no job is left in a sound wiki, no page differs.
pub fn no_page_differs_where_no_job_is_left()
    ensures { (state : State) → IsSound state → state.jobs.refreshes ≡ [] → state.jobs.fans ≡ [] → differing state ≡ [] }
{}

/// What a wiki tells that was sealed and then went on: events were added to its journal, none of them a save. So its revisions
/// and pages are those at the seal, the numbers of jobs come no nearer to their end than the pages that fans may serve allow,
/// and where no job stood at the seal none stands now.
pub fn a_sealed_run_goes_on()
    ensures { (old new : Start) (before after : List Event) (state last : State)
        → IsRun old before state → IsRun new after last → IsSealedAt old new before after
        → AddsJobs old before after state last }
{}

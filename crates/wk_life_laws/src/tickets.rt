//! The tickets of what a wiki tells.
ghost use Rattle.std.specs.Prelude.{◌≡◌, ◌≢◌, ℕ, ◌+◌, ◌≤◌, nat_eq, IsSome, length, List, None, Some};
ghost use Rattle.std.specs.List.{IsDistinct};
ghost use Rattle.wk_wiki_rules.specs.Jobs.{claimed_by, first_queued, page_held_by};
ghost use Rattle.wk_wiki_rules.specs.States.{State};
ghost use Rattle.wk_wiki_rules.specs.Events.{Event, Done, Back, step};
ghost use Rattle.wk_wiki_rules.specs.Starts.{Start};
ghost use Rattle.wk_wiki_laws.specs.Tickets.{tickets_of, IsOpenClaim};
ghost use Rattle.wk_life_laws.specs.Runs.{IsRun};

/// A ticket is out exactly where it is that of a claim in the journal that no later event closes. No two jobs have one
/// ticket, and a ticket is a number of the journal.
pub fn tickets_of_a_run_are_open_claims()
    ensures out { (start : Start) (journal : List Event) (state : State) (ticket page : ℕ)
        → IsRun start journal state → page_held_by state.jobs ticket ≡ Some page → IsOpenClaim journal ticket }
    ensures open_claims { (start : Start) (journal : List Event) (state : State) (ticket : ℕ)
        → IsRun start journal state → IsOpenClaim journal ticket → IsSome (page_held_by state.jobs ticket) }
    ensures differ { (start : Start) (journal : List Event) (state : State)
        → IsRun start journal state → IsDistinct nat_eq (tickets_of state.jobs) }
    ensures numbers { (start : Start) (journal : List Event) (state : State) (ticket page : ℕ)
        → IsRun start journal state → page_held_by state.jobs ticket ≡ Some page → (1 ≤ ticket) × (ticket ≤ length journal) }
{}

/// The ticket of a claim is new, and is of the page of the first queued job. It stays out, of the same page, over each event
/// that doesn't bring it in.
pub fn a_ticket_stays_of_its_page()
    ensures new { (start : Start) (journal : List Event) (state : State)
        → IsRun start journal state → page_held_by state.jobs (length journal + 1) ≡ None }
    ensures claimed { (start : Start) (journal : List Event) (state : State) (page : ℕ)
        → IsRun start journal state → first_queued state.jobs ≡ Some page
        → page_held_by (claimed_by state.jobs (length journal + 1)) (length journal + 1) ≡ Some page }
    ensures stays { (start : Start) (journal : List Event) (state next : State) (event : Event) (ticket page : ℕ)
        → IsRun start journal state → step state (length journal) event ≡ Some next
        → page_held_by state.jobs ticket ≡ Some page → event ≢ Done ticket → event ≢ Back ticket
        → page_held_by next.jobs ticket ≡ Some page }
{}

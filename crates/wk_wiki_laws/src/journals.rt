//! Journals: two parts of one, the room that calls leave, and the tickets that are out.
ghost use Rattle.std.specs.Prelude.{◌≡◌, ◌≢◌, ℕ, ◌+◌, ◌≤◌, ◌==◌, ◌||◌, nat_lt, nat_eq, List, [], ◌∷◌, ◌++◌, length, None, Some, IsSome, option_and_then};
ghost use Rattle.std.specs.List.{IsDistinct};
ghost use Rattle.wk_page_rules.specs.Verdict.{MostHeld, is_journal_full, max_job};
ghost use Rattle.wk_wiki_rules.specs.Jobs.{IsOneAPage, page_held_by};
ghost use Rattle.wk_wiki_rules.specs.States.{State};
ghost use Rattle.wk_wiki_rules.specs.Events.{Event, Done, Back, step_by};
ghost use Rattle.wk_wiki_rules.specs.Lives.{replay_from, replay_by, reopened};
ghost use Rattle.wk_wiki_rules.specs.Verdicts.{journal_use};
ghost use Rattle.wk_wiki_rules.specs.Calls.{CallsMake, IsMade};
ghost use Rattle.wk_wiki_rules.specs.Room.{tickets_out, HasRoom};
ghost use Rattle.wk_wiki_laws.specs.Tickets.{tickets_of, IsOpenClaim};

/// A journal in two parts is replayed as the second part behind the state that the first one gives.
pub fn a_journal_is_replayed_in_parts()
    ensures { (served : ℕ) (start : State) (journal : ℕ) (first second : List Event)
        → replay_from served start journal (first ++ second)
        ≡ option_and_then (λ middle. replay_from served middle (journal + length first) second)
        (replay_from served start journal first) }
{}

/// What calls make is a journal that can be replayed from its start.
pub fn calls_make_a_journal()
    ensures { (served : ℕ) (most : MostHeld) (start last : State) (events : List Event)
        → CallsMake served most start events last → replay_by served start events ≡ Some last }
{}

/// The journal that calls make and the tickets that are out never pass the limit, where they don't at the start: so they
/// don't where no ticket is out at the start, as after a restart. The journal is full where they reach the limit, and
/// never beyond it. While a ticket is out there is room for the event by which it comes in again.
pub fn calls_leave_room()
    ensures stepped { (served : ℕ) (most : MostHeld) (state next : State) (journal : ℕ) (event : Event)
        → IsMade most state journal event → step_by served state journal event ≡ Some next
        → HasRoom most state journal → HasRoom most next (journal + 1) }
    ensures room { (served : ℕ) (most : MostHeld) (start last : State) (events : List Event)
        → HasRoom most start 0 → CallsMake served most start events last → HasRoom most last (length events) }
    ensures full { (served : ℕ) (most : MostHeld) (start last : State) (events : List Event)
        → HasRoom most start 0 → CallsMake served most start events last
        → is_journal_full most (journal_use last (length events))
        ≡ (length events + tickets_out last == most.journal || nat_lt max_job last.jobs.next) }
    ensures give_back { (served : ℕ) (most : MostHeld) (start last : State) (events : List Event) (ticket page : ℕ)
        → HasRoom most start 0 → CallsMake served most start events last → page_held_by last.jobs ticket ≡ Some page
        → length events + 1 ≤ most.journal }
    ensures reopened { (state : State) → tickets_out (reopened state) ≡ 0 }
{}

/// From a start at which no ticket is out, a ticket is out exactly where it is that of a claim in the journal that no
/// later event closes. No two jobs have one ticket. A ticket stays out over each event that doesn't bring it in, and its
/// job keeps its page; so a ticket that no event of a whole journal closes is still of the page that it was of. After a
/// restart no ticket is out.
pub fn tickets_are_open_claims()
    ensures out { (served : ℕ) (start last : State) (events : List Event) (ticket page : ℕ)
        → IsOneAPage start.jobs → tickets_out start ≡ 0 → replay_by served start events ≡ Some last
        → page_held_by last.jobs ticket ≡ Some page → IsOpenClaim events ticket }
    ensures open_claims { (served : ℕ) (start last : State) (events : List Event) (ticket : ℕ)
        → IsOneAPage start.jobs → tickets_out start ≡ 0 → replay_by served start events ≡ Some last
        → IsOpenClaim events ticket → IsSome (page_held_by last.jobs ticket) }
    ensures differ { (served : ℕ) (start last : State) (events : List Event)
        → IsOneAPage start.jobs → tickets_out start ≡ 0 → replay_by served start events ≡ Some last
        → IsDistinct nat_eq (tickets_of last.jobs) }
    ensures kept { (served : ℕ) (start state next : State) (events : List Event) (event : Event) (ticket page : ℕ)
        → IsOneAPage start.jobs → tickets_out start ≡ 0 → replay_by served start events ≡ Some state
        → replay_by served start (events ++ event ∷ []) ≡ Some next
        → page_held_by state.jobs ticket ≡ Some page → event ≢ Done ticket → event ≢ Back ticket
        → page_held_by next.jobs ticket ≡ Some page }
    ensures held { (served : ℕ) (start state next : State) (events more : List Event) (ticket page : ℕ)
        → IsOneAPage start.jobs → tickets_out start ≡ 0 → replay_by served start events ≡ Some state
        → replay_by served start (events ++ more) ≡ Some next
        → page_held_by state.jobs ticket ≡ Some page → IsOpenClaim (events ++ more) ticket
        → page_held_by next.jobs ticket ≡ Some page }
    ensures reopened { (state : State) (ticket : ℕ) → page_held_by (reopened state).jobs ticket ≡ None }
{}

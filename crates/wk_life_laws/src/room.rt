//! Room in a journal.
ghost use Rattle.std.specs.Prelude.{◌≡◌, ℕ, ◌+◌, ◌≤◌, ◌<◌, ◌==◌, ◌||◌, false, true, length, List, nat_lt, Option, Some};
ghost use Rattle.wk_text_rules.specs.Titles.{PageTitle};
ghost use Rattle.wk_page_rules.specs.Verdict.{EditAsked, MostHeld, Refusal, accept, is_journal_full, journal_full, judged, max_job, no_change, refuse};
ghost use Rattle.wk_wiki_rules.specs.Jobs.{JobLists, claimed_by, given_back, page_held_by};
ghost use Rattle.wk_wiki_rules.specs.Steps.{after_fan};
ghost use Rattle.wk_wiki_rules.specs.States.{State};
ghost use Rattle.wk_wiki_rules.specs.Events.{Event, with_jobs, with_refreshed, with_saved};
ghost use Rattle.wk_wiki_rules.specs.Verdicts.{journal_use, verdict_in};
ghost use Rattle.wk_wiki_rules.specs.Room.{is_claim_refused, is_fan_refused, tickets_out};
ghost use Rattle.wk_wiki_rules.specs.Starts.{Start};
ghost use Rattle.wk_life_laws.specs.Lives.{Life, IsLife, journal_of};
ghost use Rattle.wk_life_laws.specs.Runs.{IsRun};

/// There are as many events as entries.
pub fn each_event_has_an_entry()
    ensures { (life : Life) → IsLife life → length (journal_of life) ≡ length life.entries }
{}

/// The journal and the tickets that are out are within the limit, so that each ticket that is out has room for the event
/// by which it comes in again. The journal is full where they reach the limit, or the next job has too great a number.
pub fn a_run_has_room()
    ensures room { (start : Start) (journal : List Event) (state : State)
        → IsRun start journal state → length journal + tickets_out state ≤ start.limits.journal }
    ensures give_back { (start : Start) (journal : List Event) (state : State) (ticket page : ℕ)
        → IsRun start journal state → page_held_by state.jobs ticket ≡ Some page
        → (length journal + 1 ≤ start.limits.journal) × (1 ≤ tickets_out state) }
    ensures full { (start : Start) (journal : List Event) (state : State)
        → IsRun start journal state
        → is_journal_full start.limits (journal_use state (length journal))
        ≡ (length journal + tickets_out state == start.limits.journal || nat_lt max_job state.jobs.next) }
{}

/// The room of a save, of a fan and of a claim in numbers.
pub fn room_is_found_in_numbers()
    ensures not_full { (most : MostHeld) (state : State) (point : ℕ)
        → point + tickets_out state < most.journal → state.jobs.next ≤ max_job
        → is_journal_full most (journal_use state point) ≡ false }
    ensures full_journal { (most : MostHeld) (state : State) (point : ℕ)
        → most.journal ≤ point + tickets_out state → is_journal_full most (journal_use state point) ≡ true }
    ensures full_numbers { (most : MostHeld) (state : State) (point : ℕ)
        → max_job < state.jobs.next → is_journal_full most (journal_use state point) ≡ true }
    ensures only_so { (most : MostHeld) (state : State) (point : ℕ)
        → is_journal_full most (journal_use state point) ≡ false
        → (point + tickets_out state < most.journal) × (state.jobs.next ≤ max_job) }
    ensures fan { (most : MostHeld) (state : State) (point : ℕ)
        → is_fan_refused most state point ≡ is_journal_full most (journal_use state point) }
    ensures claim { (most : MostHeld) (state : State) (point : ℕ)
        → point + tickets_out state + 2 ≤ most.journal → is_claim_refused most state point ≡ false }
    ensures no_claim { (most : MostHeld) (state : State) (point : ℕ)
        → most.journal < point + tickets_out state + 2 → is_claim_refused most state point ≡ true }
    ensures claim_only_so { (most : MostHeld) (state : State) (point : ℕ)
        → is_claim_refused most state point ≡ false → point + tickets_out state + 2 ≤ most.journal }
{}

/// The room of the journal decides only on an edit that is accepted but for it.
pub fn room_decides_on_accepted_edits()
    ensures accepted { (most : MostHeld) (state : State) (point : ℕ) (edit : EditAsked) (title : PageTitle) (text : Option (List ℕ))
        → judged state.history most edit ≡ accept title text → is_journal_full most (journal_use state point) ≡ false
        → verdict_in most state point edit ≡ accept title text }
    ensures full { (most : MostHeld) (state : State) (point : ℕ) (edit : EditAsked) (title : PageTitle) (text : Option (List ℕ))
        → judged state.history most edit ≡ accept title text → is_journal_full most (journal_use state point) ≡ true
        → verdict_in most state point edit ≡ refuse journal_full }
    ensures refused { (most : MostHeld) (state : State) (point : ℕ) (edit : EditAsked) (refusal : Refusal)
        → judged state.history most edit ≡ refuse refusal → verdict_in most state point edit ≡ refuse refusal }
    ensures unchanged { (most : MostHeld) (state : State) (point : ℕ) (edit : EditAsked) (title : PageTitle)
        → judged state.history most edit ≡ no_change title → verdict_in most state point edit ≡ no_change title }
    ensures only_so { (most : MostHeld) (state : State) (point : ℕ) (edit : EditAsked) (title : PageTitle) (text : Option (List ℕ))
        → verdict_in most state point edit ≡ accept title text
        → (judged state.history most edit ≡ accept title text) × (is_journal_full most (journal_use state point) ≡ false) }
{}

/// The tickets that are out behind each event: a claim adds at most one, a refresh that comes in takes at least one away,
/// and a save and a fan leave them as many.
pub fn events_change_the_tickets_that_are_out()
    ensures saved { (state : State) (title : PageTitle) (text : Option (List ℕ)) (moment : ℕ)
        → tickets_out (with_saved state title text moment) ≡ tickets_out state }
    ensures claimed { (state : State) (ticket : ℕ)
        → tickets_out (with_jobs state (claimed_by state.jobs ticket)) ≤ tickets_out state + 1 }
    ensures done { (state : State) (ticket page : ℕ)
        → page_held_by state.jobs ticket ≡ Some page → tickets_out (with_refreshed state page) + 1 ≤ tickets_out state }
    ensures given_back { (state : State) (ticket page : ℕ)
        → page_held_by state.jobs ticket ≡ Some page
        → tickets_out (with_jobs state (given_back state.jobs page)) + 1 ≤ tickets_out state }
    ensures fanned { (most : ℕ) (state : State) (jobs : JobLists)
        → after_fan state.stored most state.jobs ≡ Some jobs → tickets_out (with_jobs state jobs) ≡ tickets_out state }
{}

//! Laws of the revisions: only saves make them, none is ever lost, and an edit of a base that isn't current is a conflict.
ghost use Rattle.std.specs.Prelude.{◌≡◌, List, Option, Some, flat_map, ℕ};
ghost use Rattle.wk_text_rules.specs.Titles.{PageTitle};
ghost use Rattle.wk_page_rules.specs.History.{History, saved};
ghost use Rattle.wk_page_rules.specs.Verdict.{EditAsked, JournalUse, MostHeld, edit_conflict, judged, refuse, verdict};
ghost use Rattle.wk_table_rules.specs.Rows.{StoreTables};
ghost use Rattle.wk_wiki_rules.specs.States.{State};
ghost use Rattle.wk_wiki_rules.specs.Events.{Event, Save, Claim, Done, Back, Fan, step_by};
ghost use Rattle.wk_wiki_rules.specs.Tables.{state_of};
ghost use Rattle.wk_wiki_rules.specs.Lives.{reopened, replay_from, Lives, LivesOfStore};
ghost use Rattle.wk_wiki_rules.specs.Verdicts.{verdict_in};
ghost use Rattle.wk_wiki_laws.specs.Conflicts.{IsInConflict};
ghost use Rattle.wk_wiki_laws.specs.Saves.{Continues, after_saves, saves};

/// Only a save changes the revisions and the pages: it does what `saved` says, and each other event and a restart keep
/// them as they were.
pub fn only_saves_change_the_history()
    ensures saved { (most : ℕ) (state next : State) (journal : ℕ) (title : PageTitle) (text : Option (List ℕ)) (moment : ℕ)
        → step_by most state journal (Save title text moment) ≡ Some next
        → next.history ≡ saved state.history title text moment }
    ensures claimed { (most : ℕ) (state next : State) (journal : ℕ)
        → step_by most state journal Claim ≡ Some next → next.history ≡ state.history }
    ensures refreshed { (most : ℕ) (state next : State) (journal ticket : ℕ)
        → step_by most state journal (Done ticket) ≡ Some next → next.history ≡ state.history }
    ensures given_back { (most : ℕ) (state next : State) (journal ticket : ℕ)
        → step_by most state journal (Back ticket) ≡ Some next → next.history ≡ state.history }
    ensures fanned { (most : ℕ) (state next : State) (journal : ℕ)
        → step_by most state journal Fan ≡ Some next → next.history ≡ state.history }
    ensures reopened { (state : State) → (reopened state).history ≡ state.history }
{}

/// The revisions and the pages are one history of saves: those of the start, and then what the saves of the journals
/// make of them, in their order, over every restart.
pub fn revisions_are_one_history_of_saves()
    ensures replayed { (most : ℕ) (start last : State) (journal : ℕ) (events : List Event)
        → replay_from most start journal events ≡ Some last
        → last.history ≡ after_saves start.history (saves events) }
    ensures lived { (start last : State) (journals : List (List Event))
        → Lives start journals last → last.history ≡ after_saves start.history (flat_map saves journals) }
    ensures lived_from_store { (tables : StoreTables) (last : State) (journals : List (List Event))
        → LivesOfStore tables journals last
        → last.history ≡ after_saves (state_of tables).history (flat_map saves journals) }
{}

/// No revision is lost or changed, and each save makes one: the old revisions stand first, and behind them one for
/// each save, with its text and its moment.
pub fn revisions_are_kept()
    ensures replayed { (most : ℕ) (start last : State) (journal : ℕ) (events : List Event)
        → replay_from most start journal events ≡ Some last → Continues start.history (saves events) last.history }
    ensures lived { (start last : State) (journals : List (List Event))
        → Lives start journals last → Continues start.history (flat_map saves journals) last.history }
    ensures lived_from_store { (tables : StoreTables) (last : State) (journals : List (List Event))
        → LivesOfStore tables journals last
        → Continues (state_of tables).history (flat_map saves journals) last.history }
{}

/// A claim, a refresh that is given back, a fan's turn and a restart change the jobs alone.
pub fn claims_and_returns_change_the_jobs_alone()
    ensures claimed { (most : ℕ) (state next : State) (journal : ℕ)
        → step_by most state journal Claim ≡ Some next → next ≡ record state { jobs = next.jobs } }
    ensures given_back { (most : ℕ) (state next : State) (journal ticket : ℕ)
        → step_by most state journal (Back ticket) ≡ Some next → next ≡ record state { jobs = next.jobs } }
    ensures fanned { (most : ℕ) (state next : State) (journal : ℕ)
        → step_by most state journal Fan ≡ Some next → next ≡ record state { jobs = next.jobs } }
    ensures reopened { (state : State) → reopened state ≡ record state { jobs = (reopened state).jobs } }
{}

/// An edit is refused as a conflict, with the page's current revision, exactly where it names a base that isn't that
/// revision (0 where the page is missing), and no refusal applies that comes before.
pub fn a_conflict_is_a_base_that_is_not_current()
    ensures judged_conflict { (h : History) (most : MostHeld) (edit : EditAsked) (current : ℕ)
        → IsInConflict h edit current → judged h most edit ≡ refuse (edit_conflict current) }
    ensures judged_only_so { (h : History) (most : MostHeld) (edit : EditAsked) (current : ℕ)
        → judged h most edit ≡ refuse (edit_conflict current) → IsInConflict h edit current }
    ensures verdict_conflict { (h : History) (most : MostHeld) (used : JournalUse) (edit : EditAsked) (current : ℕ)
        → IsInConflict h edit current
        → verdict h most used edit ≡ refuse (edit_conflict current) }
    ensures verdict_only_so { (h : History) (most : MostHeld) (used : JournalUse) (edit : EditAsked) (current : ℕ)
        → verdict h most used edit ≡ refuse (edit_conflict current)
        → IsInConflict h edit current }
    ensures state_conflict { (most : MostHeld) (state : State) (journal : ℕ) (edit : EditAsked) (current : ℕ)
        → IsInConflict state.history edit current
        → verdict_in most state journal edit ≡ refuse (edit_conflict current) }
    ensures state_only_so { (most : MostHeld) (state : State) (journal : ℕ) (edit : EditAsked) (current : ℕ)
        → verdict_in most state journal edit ≡ refuse (edit_conflict current)
        → IsInConflict state.history edit current }
{}

//! The start of a wiki as it is told by what is kept of it, and the events that are read back from entries.
ghost use Rattle.std.specs.Prelude.{◌≡◌, ℕ, ◌≤◌, All, List, [], ◌∷◌, ◌++◌, length, Some};
ghost use Rattle.wk_page_rules.specs.History.{next_revision};
ghost use Rattle.wk_wiki_rules.specs.States.{State};
ghost use Rattle.wk_wiki_rules.specs.Events.{Event, step_by};
ghost use Rattle.wk_wiki_rules.specs.Lives.{replay_from};
ghost use Rattle.wk_wiki_rules.specs.Entries.{entries_from, events_of, IsTold};
ghost use Rattle.wk_wiki_rules.specs.Starts.{StartKept, kept_of, told_start};
ghost use Rattle.wk_wiki_rules.specs.declared.Entry.{Entry};
ghost use Rattle.wk_life_laws.specs.Standing.{EntryStands};

/// The start that is told of what is kept of it is the state itself where nothing has come since, and no event changes it:
/// so behind every journal it is the state at the start. What is kept of a start is no more than what stands, and stays so.
pub fn a_start_is_told_by_the_present()
    ensures now { (state : State) → told_start (kept_of state) state.history ≡ state }
    ensures stepped { (most : ℕ) (kept : StartKept) (state next : State) (journal : ℕ) (event : Event)
        → kept.revisions ≤ length state.history.revisions → kept.pages ≤ length state.history.pages
        → step_by most state journal event ≡ Some next → told_start kept next.history ≡ told_start kept state.history }
    ensures no_fewer { (most : ℕ) (state next : State) (journal : ℕ) (event : Event)
        → step_by most state journal event ≡ Some next
        → (length state.history.revisions ≤ length next.history.revisions) × (length state.history.pages ≤ length next.history.pages) }
    ensures replayed { (most : ℕ) (start last : State) (journal : ℕ) (events : List Event)
        → replay_from most start journal events ≡ Some last → told_start (kept_of start) last.history ≡ start }
{}

/// The events that are read back from the entries of a journal are those that were made, and stay so whatever comes behind
/// them. An event is read back behind those that stood, and the entries that stood are read back as before. There are as
/// many events as entries.
pub fn events_are_read_back()
    ensures made { (most : ℕ) (start last : State) (journal : ℕ) (events : List Event)
        → replay_from most start journal events ≡ Some last
        → events_of last.history (entries_from (next_revision start.history) events) ≡ events }
    ensures stay { (most : ℕ) (start middle last : State) (journal later : ℕ) (events more : List Event)
        → replay_from most start journal events ≡ Some middle → replay_from most middle later more ≡ Some last
        → events_of last.history (entries_from (next_revision start.history) events) ≡ events }
    ensures stepped { (most : ℕ) (state next : State) (journal : ℕ) (event : Event) (entries : List Entry)
        → All (EntryStands state.history) entries → step_by most state journal event ≡ Some next
        → events_of next.history (entries ++ entries_from (next_revision state.history) (event ∷ []))
        ≡ events_of state.history entries ++ event ∷ [] }
    ensures stand { (most : ℕ) (state next : State) (journal : ℕ) (event : Event) (entries : List Entry)
        → All (EntryStands state.history) entries → step_by most state journal event ≡ Some next
        → All (EntryStands next.history) (entries ++ entries_from (next_revision state.history) (event ∷ [])) }
    ensures told { (state : State) (entries : List Entry)
        → All (EntryStands state.history) entries → All (IsTold state.history) entries }
    ensures count { (state : State) (entries : List Entry)
        → All (EntryStands state.history) entries → length (events_of state.history entries) ≡ length entries }
{}

//! Soundness and good form from any state on.
ghost use Rattle.std.specs.Prelude.{◌≡◌, ℕ, List, Some};
ghost use Rattle.wk_wiki_rules.specs.States.{State};
ghost use Rattle.wk_wiki_rules.specs.Events.{Event, step_by};
ghost use Rattle.wk_wiki_rules.specs.Lives.{Lives, replay, replay_from, reopened};
ghost use Rattle.wk_wiki_rules.specs.Soundness.{IsSound};
ghost use Rattle.wk_wiki_laws.specs.WellFormed.{IsWellFormed};
ghost use Rattle.wk_life_laws.specs.Sound.{IsSoundSince};

/// Events from any point of a journal, and lives from any state, keep a well-formed wiki well formed, and a sound one sound.
pub fn soundness_is_kept_from_any_state()
    ensures formed_journal { (most : ℕ) (start last : State) (journal : ℕ) (events : List Event)
        → IsWellFormed start → replay_from most start journal events ≡ Some last → IsWellFormed last }
    ensures sound_journal { (most : ℕ) (start last : State) (journal : ℕ) (events : List Event)
        → IsWellFormed start → IsSound start → replay_from most start journal events ≡ Some last → IsSound last }
    ensures formed_lives { (start last : State) (journals : List (List Event))
        → IsWellFormed start → Lives start journals last → IsWellFormed last }
    ensures sound_lives { (start last : State) (journals : List (List Event))
        → IsWellFormed start → IsSound start → Lives start journals last → IsSound last }
{}

/// A wiki is well formed, and sound where its start is: this holds at a well-formed start, each event and each restart keep
/// it, and so it holds behind every journal.
pub fn a_wiki_is_sound_where_its_start_is()
    ensures start { (start : State) → IsWellFormed start → IsSoundSince start start }
    ensures stepped { (most : ℕ) (start state next : State) (journal : ℕ) (event : Event)
        → IsSoundSince start state → step_by most state journal event ≡ Some next → IsSoundSince start next }
    ensures reopened { (start state : State) → IsSoundSince start state → IsSoundSince start (reopened state) }
    ensures replayed { (start last : State) (events : List Event)
        → IsWellFormed start → replay start events ≡ Some last → IsSoundSince start last }
{}

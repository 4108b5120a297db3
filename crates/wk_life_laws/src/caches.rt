//! What a cache keeps of reads.
ghost use Rattle.std.specs.Prelude.{◌≡◌, ℕ, All, IsTrue, length, List, None, Some};
ghost use Rattle.wk_view_rules.specs.Plans.{done};
ghost use Rattle.wk_view_rules.specs.Views.{view};
ghost use Rattle.wk_view_rules.specs.Worlds.{Read, Source, fits_kind, of_world};
ghost use Rattle.wk_wiki_rules.specs.States.{State, world_of};
ghost use Rattle.wk_wiki_rules.specs.Events.{Event, step_by};
ghost use Rattle.wk_wiki_rules.specs.Lives.{replay_from};
ghost use Rattle.wk_wiki_laws.specs.WellFormed.{IsWellFormed};
ghost use Rattle.wk_wiki_rules.specs.Passes.{CacheEntry, PassSeen, IsHonestEntry, IsReadAt, shown_number, state_seen};
ghost use Rattle.wk_wiki_rules.specs.Staleness.{first_stale};
ghost use Rattle.wk_life_laws.specs.Caches.{IsLastingEntry};

/// What a cache keeps of a page is right at the present point where each of its reads is current, whenever it was drafted:
/// its texts are those of their revisions, and each answer has its kind's form.
pub fn a_current_entry_is_right()
    ensures { (pass : PassSeen) (state : State) (a : Source) (entry : CacheEntry)
        → state_seen pass (length pass.journal) ≡ Some state → IsWellFormed state → IsHonestEntry state entry
        → view a entry.reading.page ≡ done entry.reading.expanded entry.reading.reads
        → All (λ (r : Read). IsTrue (fits_kind r.kind r.answer)) entry.reading.reads
        → first_stale (world_of state) entry.reading.reads ≡ None
        → IsReadAt pass (record entry.reading { point = length pass.journal }) }
{}

/// What is kept of a read of a page's own text is honest, and stays so whatever events come.
pub fn kept_entries_stay_honest()
    ensures made { (state : State) (entry : CacheEntry)
        → IsWellFormed state → entry.reading.given ≡ None
        → view (of_world (world_of state)) entry.reading.page ≡ done entry.reading.expanded entry.reading.reads
        → entry.reading.number ≡ shown_number state.history entry.reading.page → IsLastingEntry state entry }
    ensures stepped { (most : ℕ) (state next : State) (journal : ℕ) (event : Event) (entry : CacheEntry)
        → step_by most state journal event ≡ Some next → IsLastingEntry state entry → IsLastingEntry next entry }
    ensures replayed { (most : ℕ) (start last : State) (journal : ℕ) (events : List Event) (entry : CacheEntry)
        → replay_from most start journal events ≡ Some last → IsLastingEntry start entry → IsLastingEntry last entry }
{}

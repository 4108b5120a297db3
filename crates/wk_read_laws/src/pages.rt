//! What a page, or a text in its place, expands to at a point.
ghost use Rattle.std.specs.Prelude.{◌≡◌, ℕ, All, IsTrue, length, List, None};
ghost use mathlib.Core.List.{IsPrefix};
ghost use Rattle.wk_page_rules.specs.History.{text_of_revision};
ghost use Rattle.wk_view_rules.specs.Plans.{done};
ghost use Rattle.wk_view_rules.specs.Worlds.{Agrees, IsHonest, Read, fits_kind, of_world};
ghost use Rattle.wk_wiki_rules.specs.States.{State, world_of};
ghost use Rattle.wk_wiki_rules.specs.Events.{Event};
ghost use Rattle.wk_wiki_rules.specs.Passes.{CacheEntry, IsKeptRead, IsReadAt, PageReading, drafted_in, shown_number};
ghost use Rattle.wk_wiki_rules.specs.Staleness.{first_stale};
ghost use Rattle.wk_wiki_rules.specs.Starts.{Start};
ghost use Rattle.wk_life_laws.specs.Runs.{IsRun};

/// What was drafted of honest answers, at whatever points they were asked, is what the page, or the text, expands to at the
/// present point where each answer is current.
pub fn a_read_is_right_where_each_answer_is_current()
    ensures { (start : Start) (journal : List Event) (own : List ℕ) (state : State) (reading : PageReading)
        → IsRun start journal state
        → (Agrees (of_world (world_of state)) reading.reads
        → drafted_in (world_of state) reading.page reading.given ≡ done reading.expanded reading.reads)
        → IsHonest (text_of_revision state.history) reading.reads
        → All (λ (r : Read). IsTrue (fits_kind r.kind r.answer)) reading.reads
        → first_stale (world_of state) reading.reads ≡ None
        → reading.number ≡ shown_number state.history reading.page → reading.point ≡ length journal
        → IsReadAt (record { start = start; journal = journal; own = own }) reading }
{}

/// What a reader keeps of a page stays right at its point whatever else is seen. Where each of its answers is current, it is
/// right at the present point too.
pub fn a_kept_read_is_right_later()
    ensures longer { (start : Start) (journal longer : List Event) (own others : List ℕ) (entry : CacheEntry)
        → IsPrefix journal longer → IsKeptRead (record { start = start; journal = journal; own = own }) entry
        → IsKeptRead (record { start = start; journal = longer; own = others }) entry }
    ensures current { (start : Start) (journal : List Event) (own : List ℕ) (state : State) (entry : CacheEntry)
        → IsRun start journal state → IsKeptRead (record { start = start; journal = journal; own = own }) entry
        → All (λ (r : Read). IsTrue (fits_kind r.kind r.answer)) entry.reading.reads
        → first_stale (world_of state) entry.reading.reads ≡ None
        → IsReadAt (record { start = start; journal = journal; own = own }) (record entry.reading { point = length journal }) }
{}

//! Runs that meet the premises of the laws of what calls rest on.
ghost use Rattle.std.specs.Prelude.{◌≡◌, ◌≤◌, All, IsTrue, length, drop, take, codes, ◌∷◌, [], Some};
ghost use Rattle.wk_page_rules.specs.History.{text_of_revision};
ghost use Rattle.wk_page_rules.specs.Verdict.{accept, judged};
ghost use Rattle.wk_wiki_rules.specs.Jobs.{page_held_by};
ghost use Rattle.wk_wiki_rules.specs.Steps.{fan_pages};
ghost use Rattle.wk_page_rules.specs.PageRows.{no_rows};
ghost use Rattle.wk_view_rules.specs.Plans.{done};
ghost use Rattle.wk_view_rules.specs.Views.{reads, view};
ghost use Rattle.wk_view_rules.specs.Worlds.{Agrees, IsHonest, Read, fits_kind, of_world};
ghost use Rattle.wk_wiki_rules.specs.States.{page_at, world_of};
ghost use Rattle.wk_wiki_rules.specs.Events.{Claim, Done, step};
ghost use Rattle.wk_wiki_rules.specs.Lives.{Lives, replay_from};
ghost use Rattle.wk_wiki_rules.specs.Soundness.{IsSound};
ghost use Rattle.wk_wiki_laws.specs.WellFormed.{IsWellFormed};
ghost use Rattle.wk_wiki_rules.specs.Entries.{entries_from};
ghost use Rattle.wk_wiki_rules.specs.Passes.{IsHonestEntry, state_seen};
ghost use Rattle.wk_wiki_rules.specs.Staleness.{first_stale};
ghost use Rattle.wk_wiki_rules.specs.Starts.{kept_of};
ghost use Rattle.wk_life_laws.specs.Caches.{IsLastingEntry};
ghost use Rattle.wk_life_laws.specs.Sound.{IsSoundSince};
ghost use Rattle.wk_life_laws.specs.Standing.{EntryStands};
ghost use Rattle.wk_examples.specs.Cached.{cached, whole_race};
ghost use Rattle.wk_examples.specs.Queues.{waiting};
ghost use Rattle.wk_examples.specs.Stores.{title_a};
ghost use Rattle.wk_examples.specs.Wikis.{title_p, at, jobs, race, race_4, race_5, race_6, race_11, race_12, includes_both, edit_of_a, restart_1, small};

/// P is drafted before other pages are refreshed, and then its own refresh comes in: each of its reads is current.
pub fn a_refresh_that_is_current()
    ensures formed { IsWellFormed race_11 }
    ensures honest { IsHonest (text_of_revision race_11.history) (reads (of_world (world_of race_6)) title_p) }
    ensures none_stale { first_stale (world_of race_11) (reads (of_world (world_of race_6)) title_p) ≡ None }
    ensures agrees { Agrees (of_world (world_of race_11)) (reads (of_world (world_of race_6)) title_p) }
    ensures held { page_held_by race_11.jobs 11 ≡ Some 1 }
    ensures page { page_at race_11.history 1 ≡ Some (at title_p 1) }
    ensures done { step race_11 11 (Done 11) ≡ Some race_12 }
{}

/// P was read behind six events, and is still so at the end of the journal.
pub fn a_cached_read_that_is_current()
    ensures made { IsLastingEntry race_6 cached }
    ensures seen { state_seen whole_race (length whole_race.journal) ≡ Some race_12 }
    ensures formed { IsWellFormed race_12 }
    ensures honest { IsHonestEntry race_12 cached }
    ensures drafted { view (of_world (world_of race_6)) cached.reading.page ≡ done cached.reading.expanded cached.reading.reads }
    ensures answers { All (λ (r : Read). IsTrue (fits_kind r.kind r.answer)) cached.reading.reads }
    ensures none_stale { first_stale (world_of race_12) cached.reading.reads ≡ None }
{}

/// An edit that is accepted.
pub fn an_accepted_edit()
    ensures { judged restart_1.history (small 9) (edit_of_a (Some 1) (codes "y ")) ≡ accept title_a (Some (codes "y")) }
{}

/// A save behind a start of three revisions and pages, and the entries of the five events that have come since the wiki was
/// empty.
pub fn what_is_kept_of_a_start()
    ensures revisions { (kept_of race_4).revisions ≤ length race_4.history.revisions }
    ensures pages { (kept_of race_4).pages ≤ length race_4.history.pages }
    ensures entries { All (EntryStands race_5.history) (entries_from 1 (take 5 race)) }
    ensures then { replay_from fan_pages race_5 5 (drop 5 race) ≡ Some race_12 }
{}

/// A sound wiki in the midst of a journal, and what a restart and a refresh make of it. And a wiki that isn't sound: no job
/// stands, and P's rows aren't stored.
pub fn soundness_of_a_start()
    ensures formed { IsWellFormed race_5 }
    ensures sound { IsSound race_5 }
    ensures replayed { replay_from fan_pages race_5 5 (drop 5 race) ≡ Some race_12 }
    ensures lived { Lives race_5 ((Claim ∷ Done 1 ∷ []) ∷ [])
        (record race_5 { stored = includes_both ∷ no_rows ∷ no_rows ∷ []; jobs = jobs (waiting 2 2 ∷ waiting 3 3 ∷ []) [] 4 }) }
    ensures formed_behind { IsWellFormed (record race_12 { stored = no_rows ∷ no_rows ∷ no_rows ∷ [] }) }
    ensures unsound { IsSound (record race_12 { stored = no_rows ∷ no_rows ∷ no_rows ∷ [] }) → ⊥ }
    ensures since { IsSoundSince (record race_12 { stored = no_rows ∷ no_rows ∷ no_rows ∷ [] })
        (record race_12 { stored = no_rows ∷ no_rows ∷ no_rows ∷ [] }) }
{}

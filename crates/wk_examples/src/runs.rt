//! Runs of a wiki that meet the premises of the laws of states.
ghost use Rattle.std.specs.Prelude.{◌≡◌, ◌<◌, ◌≤◌, ℕ, true, false, codes, List, ◌∷◌, [], Some};
ghost use Rattle.wk_page_rules.specs.History.{text_of_revision};
ghost use Rattle.wk_view_rules.specs.Views.{reads};
ghost use Rattle.wk_view_rules.specs.Worlds.{IsHonest, of_world};
ghost use Rattle.wk_page_rules.specs.declared.Reach.TheVariants.{Both};
ghost use Rattle.wk_table_rules.specs.GoodStore.{IsGood};
ghost use Rattle.wk_wiki_rules.specs.Jobs.{first_fan, page_held_by};
ghost use Rattle.wk_page_rules.specs.PageRows.{names};
ghost use Rattle.wk_wiki_rules.specs.Steps.{cursor_behind, next_served};
ghost use Rattle.wk_wiki_rules.specs.States.{no_state, page_at, stored_at, world_of};
ghost use Rattle.wk_wiki_rules.specs.Events.{Claim, Done};
ghost use Rattle.wk_wiki_rules.specs.Tables.{state_of, tables_of};
ghost use Rattle.wk_wiki_rules.specs.Lives.{opened, replay_by, Lives, LivesOfStore};
ghost use Rattle.wk_wiki_rules.specs.Soundness.{IsSound};
ghost use Rattle.wk_wiki_laws.specs.Conflicts.{IsInConflict};
ghost use Rattle.wk_wiki_laws.specs.FanRuns.{FanRun};
ghost use Rattle.wk_wiki_laws.specs.Reached.{IsReached, IsWithinFull};
ghost use Rattle.wk_wiki_laws.specs.WellFormed.{IsWellFormed};
ghost use Rattle.wk_examples.specs.Queues.{fan};
ghost use Rattle.wk_examples.specs.Stores.{title_t};
ghost use Rattle.wk_examples.specs.Wikis.{title_p, at, race, race_4, race_12, users_journal, users_9, users_10, users_11, users_12, users_13, users_14, restart_1, members_2, members_3, edit_of_a, small, old_tables, opened_2};

/// An edit whose base isn't the page's current revision, to which no refusal applies that comes before.
pub fn a_conflict()
    ensures { IsInConflict restart_1.history (edit_of_a (Some 0) (codes "y")) 1 }
{}

/// Wikis that are sound: with no job left, before a save, and before a fan.
pub fn sound_wikis()
    ensures lived { Lives no_state (race ∷ []) race_12 }
    ensures no_job_left { IsSound race_12 }
    ensures replayed { replay_by 2 no_state users_journal ≡ Some users_9 }
    ensures before_a_save { IsSound users_9 }
    ensures formed_before_a_save { IsWellFormed users_9 }
    ensures before_a_fan { IsSound users_10 }
{}

/// A store of version 1, which is good, and what its first life gives.
pub fn an_old_store()
    ensures good { IsGood old_tables }
    ensures formed { IsWellFormed (opened old_tables) }
    ensures sound { IsSound (opened old_tables) }
    ensures lived { LivesOfStore old_tables ((Claim ∷ Done 1 ∷ []) ∷ []) opened_2 }
{}

/// A refresh that is held by a ticket, in a wiki that is well formed.
pub fn a_refresh_that_is_held()
    ensures formed { IsWellFormed members_2 }
    ensures held { page_held_by members_2.jobs 2 ≡ Some 1 }
    ensures page { page_at members_2.history 1 ≡ Some (at title_p 1) }
{}

/// A fan job that is served in two fans: the first leaves a page that names the title, and the second leaves none.
pub fn fans_that_serve()
    ensures first { first_fan users_12.jobs ≡ Some (fan 5 title_t Both 0) }
    ensures cursor { cursor_behind (next_served users_12.stored 2 (fan 5 title_t Both 0)) 0 ≡ 2 }
    ensures one_below { names (stored_at users_12 2) title_t Both ≡ true }
    ensures one_above { names (stored_at users_12 3) title_t Both ≡ true }
    ensures none_above { (page : ℕ) → 3 < page → names (stored_at users_13 page) title_t Both ≡ false }
    ensures run { FanRun 2 users_12 12 (1 ∷ 2 ∷ 3 ∷ []) users_14 }
{}

/// What is read for a page's expansion in a state is honest there.
pub fn honest_reads()
    ensures { IsHonest (text_of_revision race_4.history) (reads (of_world (world_of race_4)) title_p) }
{}

/// States that calls with full limits reach: a save, a claim and a refresh from an empty wiki, and from an old store.
pub fn reached_states()
    ensures limits { IsWithinFull (small 9) }
    ensures from_nothing { IsReached members_3 }
    ensures from_a_store { IsReached opened_2 }
    ensures sound { IsSound members_3 }
    ensures sound_rows { IsSound (state_of (tables_of members_3)) }
{}

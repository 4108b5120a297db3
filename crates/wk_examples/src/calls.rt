//! Worked examples of a wiki's calls: what they tell, the changes of the tables, room, entries and starts; and runs that
//! meet the premises of their laws.
ghost use Rattle.std.specs.Prelude.{◌≡◌, codes, true, false, List, ◌∷◌, [], Some, None, take};
ghost use Rattle.wk_page_rules.specs.Verdict.{accept, no_change};
ghost use Rattle.wk_page_rules.specs.declared.Reach.TheVariants.{Both};
ghost use Rattle.wk_table_rules.specs.Changes.{add_revision, set_page, add_job};
ghost use Rattle.wk_table_rules.specs.JobTable.{refresh_row};
ghost use Rattle.wk_wiki_rules.specs.Jobs.{IsOneAPage, page_held_by};
ghost use Rattle.wk_wiki_rules.specs.Steps.{fan_pages};
ghost use Rattle.wk_view_rules.specs.Views.{reads};
ghost use Rattle.wk_view_rules.specs.Worlds.{of_world};
ghost use Rattle.wk_view_rules.specs.declared.Kind.TheVariants.{Include, Exists};
ghost use Rattle.wk_wiki_rules.specs.States.{no_state, world_of};
ghost use Rattle.wk_wiki_rules.specs.Events.{Save, Claim, Done, Back, Fan};
ghost use Rattle.wk_wiki_rules.specs.Lives.{replay_by};
ghost use Rattle.wk_wiki_rules.specs.Tables.{tables_of};
ghost use Rattle.wk_wiki_laws.specs.Kept.{IsKept};
ghost use Rattle.wk_wiki_rules.specs.Calls.{CallsMake};
ghost use Rattle.wk_wiki_rules.specs.Claims.{claim_outcome};
ghost use Rattle.wk_wiki_rules.specs.Entries.{closes, entries_from, events_of, KeepsSeal};
ghost use Rattle.wk_wiki_rules.specs.Fans.{next_fan_outcome};
ghost use Rattle.wk_wiki_rules.specs.Room.{is_claim_refused, is_fan_refused, tickets_out, HasRoom};
ghost use Rattle.wk_wiki_rules.specs.SaveOutcomes.{save_outcome, created, changed, unchanged};
ghost use Rattle.wk_wiki_rules.specs.Staleness.{event_of_finish, first_stale};
ghost use Rattle.wk_wiki_rules.specs.Starts.{kept_of, told_start};
ghost use Rattle.wk_wiki_rules.specs.TableChanges.{save_change, refresh_change, fan_change, job_held_by, migration};
ghost use Rattle.wk_wiki_rules.specs.declared.Entry.TheVariants as entry;
ghost use Rattle.wk_wiki_laws.specs.Makes.{Makes};
ghost use Rattle.wk_wiki_laws.specs.Tickets.{IsOpenClaim};
ghost use Rattle.wk_examples.specs.Queues.{held, fan};
ghost use Rattle.wk_examples.specs.Stores.{title_t, page, revision};
ghost use Rattle.wk_examples.specs.Wikis.{title_p, title_q, race, race_1, race_2, race_3, race_4, race_5, race_11, race_12, includes_both, tested_2, tested_4, tested_6, users_11, users_12, users_13, users_14, members_text, members_2, members_3, small, old_tables, opened_0};

/// P is drafted, and Template:T is saved before the refresh of P comes in: the second read has mark 2, and the present one is 4.
pub fn a_stale_refresh()
    ensures claimed { claim_outcome race_3 3 ≡ Some (record { ticket = 4; title = title_p }) }
    ensures saved { save_outcome race_4.history (accept title_t (Some (codes "t2"))) ≡ Some (changed title_t (record { page = 2; old = 2; new = 4 })) }
    ensures current_before { first_stale (world_of race_4) (reads (of_world (world_of race_4)) title_p) ≡ None }
    ensures stale { first_stale (world_of race_5) (reads (of_world (world_of race_4)) title_p) ≡ Some (record { title = title_t; kind = Include; read = 2; now = 4 }) }
    ensures given_back { event_of_finish (world_of race_5) (reads (of_world (world_of race_4)) title_p) 4 ≡ Back 4 }
    ensures done { event_of_finish (world_of race_4) (reads (of_world (world_of race_4)) title_p) 4 ≡ Done 4 }
{}

/// P tests whether Q exists, and Q is created: the test isn't current, and the fan of Q serves P.
pub fn an_existence_that_changed()
    ensures new { save_outcome tested_2.history (accept title_q (Some (codes "q"))) ≡ Some (created title_q (record { page = 2; old = 0; new = 2 })) }
    ensures same { save_outcome tested_4.history (no_change title_q) ≡ Some (unchanged title_q 2) }
    ensures stale { first_stale (world_of tested_4) (reads (of_world (world_of tested_2)) title_p) ≡ Some (record { title = title_q; kind = Exists; read = 0; now = 1 }) }
    ensures fan { next_fan_outcome fan_pages tested_4 ≡ Some (record { title = title_q; served = 1; queued = 1 }) }
    ensures no_fan { next_fan_outcome fan_pages race_12 ≡ None }
{}

/// The changes of the tables: of saves, where the fan job stands and where it doesn't, of a refresh, of fans in two parts, and
/// of a store of version 1.
pub fn changes_of_tables()
    ensures rows { save_change race_1 title_t (Some (codes "t1")) 12 ≡ add_revision (record (revision 2 2 0 (codes "t1")) { rev_timestamp = 12 }) ∷ set_page (page 2 title_t 2 2) ∷ add_job (refresh_row 2 title_t) ∷ [] }
    ensures saved { Makes (tables_of race_1) (save_change race_1 title_t (Some (codes "t1")) 12) (tables_of race_2) }
    ensures saved_again { Makes (tables_of users_11) (save_change users_11 title_t (Some (codes "y")) 13) (tables_of users_12) }
    ensures refreshed { Makes (tables_of race_11) (refresh_change (held 1 1 11) includes_both) (tables_of race_12) }
    ensures job { job_held_by race_11.jobs 11 ≡ Some (held 1 1 11) }
    ensures fanned { Makes (tables_of users_12) (fan_change 2 users_12 (fan 5 title_t Both 0)) (tables_of users_13) }
    ensures fanned_out { Makes (tables_of users_13) (fan_change 2 users_13 (fan 5 title_t Both 2)) (tables_of users_14) }
    ensures migrated { Makes old_tables (migration old_tables) (tables_of opened_0) }
{}

/// With three events at most, two saves leave no room for a claim, but room for one save more.
pub fn room_in_a_journal()
    ensures claim_refused { is_claim_refused (small 3) race_2 2 ≡ true }
    ensures claim_made { is_claim_refused (small 4) race_2 2 ≡ false }
    ensures fan_refused { is_fan_refused (small 2) users_12 2 ≡ true }
    ensures fan_made { is_fan_refused (small 3) users_12 2 ≡ false }
    ensures one_out { tickets_out race_4 ≡ 1 }
{}

/// A journal's entries stand for its events, and the start is told by what is kept of it.
pub fn entries_and_starts()
    ensures entries { entries_from 1 (take 6 race) ≡ entry.Save 1 ∷ entry.Save 2 ∷ entry.Save 3 ∷ entry.Claim ∷ entry.Save 4 ∷ entry.Back 4 ∷ [] }
    ensures events { events_of race_12.history (entries_from 1 race) ≡ race }
    ensures closed { closes (Back 4) ≡ Some 3 }
    ensures sealed { KeepsSeal (Some 5) race }
    ensures start { told_start (kept_of race_3) race_12.history ≡ race_3 }
    ensures start_of_a_deleted_page { told_start (kept_of tested_4) tested_6.history ≡ tested_4 }
{}

/// A save, a claim and a refresh that calls make from an empty wiki, with the ticket that is out before the refresh comes in.
pub fn calls_that_are_made()
    ensures made { CallsMake fan_pages (small 9) no_state (Save title_p (Some members_text) 11 ∷ Claim ∷ Done 2 ∷ []) members_3 }
    ensures room { HasRoom (small 9) no_state 0 }
    ensures one_page { IsOneAPage no_state.jobs }
    ensures none_out { tickets_out no_state ≡ 0 }
    ensures replayed { replay_by fan_pages no_state (Save title_p (Some members_text) 11 ∷ Claim ∷ []) ≡ Some members_2 }
    ensures out { page_held_by members_2.jobs 2 ≡ Some 1 }
    ensures open_claim { IsOpenClaim (Save title_p (Some members_text) 11 ∷ Claim ∷ []) 2 }
    ensures kept { IsKept members_2 }
{}

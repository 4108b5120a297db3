//! The states of a wiki, one after another: what each event does, and what a restart and a new version of the store give.
ghost use Rattle.std.specs.Prelude.{◌≡◌, true, false, codes, List, ◌∷◌, [], Some, None};
ghost use Rattle.wk_page_rules.specs.Verdict.{refuse, no_change, accept, edit_conflict, journal_full};
ghost use Rattle.wk_view_rules.specs.declared.Kind.TheVariants.{View, Include, Exists};
ghost use Rattle.wk_table_rules.specs.Rows.{category_title, no_tables};
ghost use Rattle.wk_page_rules.specs.PageRows.{no_rows};
ghost use Rattle.wk_table_rules.specs.JobTable.{refresh_row};
ghost use Rattle.wk_table_rules.specs.GoodStore.{first_broken};
ghost use Rattle.wk_wiki_rules.specs.Jobs.{left};
ghost use Rattle.wk_wiki_rules.specs.Covers.{is_covered};
ghost use Rattle.wk_view_rules.specs.Rows.{rows};
ghost use Rattle.wk_wiki_rules.specs.States.{no_state, stored_at, world_of};
ghost use Rattle.wk_wiki_rules.specs.Events.{Save, Claim, Done, Back, Fan, step, step_by};
ghost use Rattle.wk_wiki_rules.specs.Tables.{tables_of, state_of};
ghost use Rattle.wk_wiki_rules.specs.Verdicts.{verdict_in, event_of};
ghost use Rattle.wk_wiki_rules.specs.Lives.{replay, state_at, reopened, opened, last_state, last_state_of_store};
ghost use Rattle.wk_examples.specs.Pages.{viewed, viewed_reads};
ghost use Rattle.wk_examples.specs.Stores.{main, special, title_a, title_b, title_t, link, redirect};
ghost use Rattle.wk_examples.specs.Wikis.{jobs, title_p, title_q, title_u, title_n, test, includes_t, members_text, race, race_1, race_2, race_3, race_4, race_5, race_6, race_7, race_8, race_9, race_10, race_11, race_12, tested_1, tested_2, tested_3, tested_4, tested_5, tested_6, users_1, users_2, users_3, users_4, users_5, users_6, users_7, users_8, users_9, users_10, users_11, users_12, users_13, users_14, restart_1, restart_2, restart_3, members_1, members_2, members_3, edit_of_a, small, old_tables, opened_0, opened_1, opened_2};

/// A page is refreshed while a template of it is saved: the refresh is given back, and done in its turn.
pub fn a_race()
    ensures page_saved { step no_state 0 (Save title_p (Some (codes "{{T}}{{U}}")) 11) ≡ Some race_1 }
    ensures template_saved { step race_1 1 (Save title_t (Some (codes "t1")) 12) ≡ Some race_2 }
    ensures other_template_saved { step race_2 2 (Save title_u (Some (codes "u1")) 13) ≡ Some race_3 }
    ensures page_claimed { step race_3 3 Claim ≡ Some race_4 }
    ensures template_saved_again { step race_4 4 (Save title_t (Some (codes "t2")) 14) ≡ Some race_5 }
    ensures page_given_back { step race_5 5 (Back 4) ≡ Some race_6 }
    ensures template_claimed { step race_6 6 Claim ≡ Some race_7 }
    ensures template_done { step race_7 7 (Done 7) ≡ Some race_8 }
    ensures other_template_claimed { step race_8 8 Claim ≡ Some race_9 }
    ensures other_template_done { step race_9 9 (Done 9) ≡ Some race_10 }
    ensures page_claimed_again { step race_10 10 Claim ≡ Some race_11 }
    ensures page_done { step race_11 11 (Done 11) ≡ Some race_12 }
    ensures no_fan_job { step race_12 12 Fan ≡ None }
    ensures no_refresh_job { step race_12 12 Claim ≡ None }
    ensures whole_journal { replay no_state race ≡ Some race_12 }
    ensures first_five { state_at no_state race 5 ≡ Some race_5 }
    ensures reads_at_first { viewed_reads (world_of race_4) title_p
        ≡ (View, codes "P", 1) ∷ (Include, codes "Template:T", 2) ∷ (Include, codes "Template:U", 3) ∷ [] }
    ensures reads_at_last { viewed_reads (world_of race_11) title_p
        ≡ (View, codes "P", 1) ∷ (Include, codes "Template:T", 4) ∷ (Include, codes "Template:U", 3) ∷ [] }
    ensures spent_ticket { step race_6 6 (Done 4) ≡ None }
{}

/// A page tests whether another exists, which is created and deleted: both times a fan job is added.
pub fn a_test_of_existence()
    ensures page_saved { step no_state 0 (Save title_p (Some test) 11) ≡ Some tested_1 }
    ensures page_claimed { step tested_1 1 Claim ≡ Some tested_2 }
    ensures page_done { step tested_2 2 (Done 2) ≡ Some tested_3 }
    ensures other_created { step tested_3 3 (Save title_q (Some (codes "q")) 12) ≡ Some tested_4 }
    ensures fanned { step tested_4 4 Fan ≡ Some tested_5 }
    ensures other_deleted { step tested_5 5 (Save title_q None 13) ≡ Some tested_6 }
    ensures nothing_to_delete { step tested_6 6 (Save title_q None 14) ≡ None }
    ensures read_as_missing { viewed_reads (world_of tested_2) title_p
        ≡ (View, codes "P", 1) ∷ (Exists, codes "Q", 0) ∷ [] }
    ensures shown_while_there { viewed (world_of tested_5) title_p ≡ codes "y" }
    ensures shown_while_missing { viewed (world_of tested_6) title_p ≡ codes "n" }
    ensures covered_at_once { is_covered tested_4.jobs 1 (stored_at tested_4 1) ≡ true }
{}

/// Three pages include a template that is created and then changed, and one fan serves two pages.
pub fn fans_in_parts()
    ensures first_saved { step_by 2 no_state 0 (Save (title_n (codes "1")) (Some includes_t) 11) ≡ Some users_1 }
    ensures second_saved { step_by 2 users_1 1 (Save (title_n (codes "2")) (Some includes_t) 11) ≡ Some users_2 }
    ensures third_saved { step_by 2 users_2 2 (Save (title_n (codes "3")) (Some includes_t) 11) ≡ Some users_3 }
    ensures first_claimed { step_by 2 users_3 3 Claim ≡ Some users_4 }
    ensures first_done { step_by 2 users_4 4 (Done 4) ≡ Some users_5 }
    ensures second_claimed { step_by 2 users_5 5 Claim ≡ Some users_6 }
    ensures second_done { step_by 2 users_6 6 (Done 6) ≡ Some users_7 }
    ensures third_claimed { step_by 2 users_7 7 Claim ≡ Some users_8 }
    ensures third_done { step_by 2 users_8 8 (Done 8) ≡ Some users_9 }
    ensures template_created { step_by 2 users_9 9 (Save title_t (Some (codes "x")) 12) ≡ Some users_10 }
    ensures two_served { step_by 2 users_10 10 Fan ≡ Some users_11 }
    ensures template_changed { step_by 2 users_11 11 (Save title_t (Some (codes "y")) 13) ≡ Some users_12 }
    ensures two_served_again { step_by 2 users_12 12 Fan ≡ Some users_13 }
    ensures last_served { step_by 2 users_13 13 Fan ≡ Some users_14 }
    ensures no_fan_job { step_by 2 users_14 14 Fan ≡ None }
    ensures jobs_left { left users_14.jobs ≡ record { queued = 4; claimed = 0; fans = 0 } }
    ensures all_at_once { step users_12 12 Fan ≡ Some users_14 }
    ensures rows_at_last { rows (world_of users_14) (title_n (codes "3")) ≡ record no_rows { templates = title_t ∷ [] } }
{}

/// A restart queues a job that was claimed, its ticket is out no more, and tickets begin anew.
pub fn a_restart()
    ensures page_saved { step no_state 0 (Save title_a (Some (codes "x")) 11) ≡ Some restart_1 }
    ensures page_claimed { step restart_1 1 Claim ≡ Some restart_2 }
    ensures restarted { reopened restart_2 ≡ restart_1 }
    ensures no_such_ticket { step (reopened restart_2) 0 (Done 2) ≡ None }
    ensures claimed_again { step (reopened restart_2) 0 Claim ≡ Some restart_3 }
    ensures claim_is_not_stored { tables_of restart_2 ≡ tables_of restart_1 }
    ensures from_the_tables { opened (tables_of restart_2) ≡ restart_1 }
    ensures lives { last_state no_state ((Save title_a (Some (codes "x")) 11 ∷ Claim ∷ []) ∷ (Claim ∷ []) ∷ []) ≡ Some restart_3 }
    ensures lives_from_a_store { last_state_of_store no_tables ((Save title_a (Some (codes "x")) 11 ∷ Claim ∷ []) ∷ (Claim ∷ []) ∷ [])
        ≡ Some restart_3 }
{}

/// A refresh stores the links and the members of a page, which had none before it.
pub fn links_and_members()
    ensures page_saved { step no_state 0 (Save title_p (Some members_text) 11) ≡ Some members_1 }
    ensures page_claimed { step members_1 1 Claim ≡ Some members_2 }
    ensures page_done { step members_2 2 (Done 2) ≡ Some members_3 }
    ensures rows_before { (tables_of members_2).pagelinks ≡ [] }
    ensures rows_after { (tables_of members_3).pagelinks ≡ link 1 title_b ∷ link 1 (category_title (codes "X")) ∷ [] }
    ensures tables_stand_for_the_state { state_of (tables_of members_3) ≡ record members_3 { jobs = jobs [] [] 1 } }
{}

/// A store of version 1 is opened: each page is refreshed, since redirect rows may be wanting.
pub fn a_new_version()
    ensures good { first_broken old_tables ≡ None }
    ensures opened { opened old_tables ≡ opened_0 }
    ensures jobs_left { left opened_0.jobs ≡ record { queued = 1; claimed = 0; fans = 0 } }
    ensures tables { tables_of opened_0 ≡ record old_tables { jobs = refresh_row 1 title_a ∷ []; version = 2 } }
    ensures rows_from_scratch { rows (world_of opened_0) title_a
        ≡ record no_rows { links = title_b ∷ []; redirect = Some title_b } }
    ensures rows_that_are_stored { stored_at opened_0 1 ≡ record no_rows { links = title_b ∷ [] } }
    ensures covered { is_covered opened_0.jobs 1 (stored_at opened_0 1) ≡ true }
    ensures not_covered_before { is_covered (state_of old_tables).jobs 1 (stored_at opened_0 1) ≡ false }
    ensures page_claimed { step opened_0 0 Claim ≡ Some opened_1 }
    ensures page_done { step opened_1 1 (Done 1) ≡ Some opened_2 }
    ensures redirect_row { (tables_of opened_2).redirects ≡ redirect 1 title_b ∷ [] }
    ensures version_2_adds_no_job { opened (record old_tables { version = 2 }) ≡ record opened_0 { jobs = jobs [] [] 1 } }
    ensures no_state { opened no_tables ≡ no_state }
{}

/// Events that aren't possible: a title that no text names, a virtual namespace, a deletion of nothing, and jobs and
/// tickets that aren't there.
pub fn impossible_events()
    ensures not_normal { step no_state 0 (Save (main (codes "a")) (Some (codes "x")) 11) ≡ None }
    ensures virtual_namespace { step no_state 0 (Save (special (codes "A")) (Some (codes "x")) 11) ≡ None }
    ensures deletion_of_a_new_title { step no_state 0 (Save title_a None 11) ≡ None }
    ensures no_job { step no_state 0 Claim ≡ None }
    ensures no_fan_job { step no_state 0 Fan ≡ None }
    ensures done_while_queued { step restart_1 1 (Done 1) ≡ None }
    ensures back_of_another_ticket { step restart_2 2 (Back 1) ≡ None }
    ensures journal_with_such_an_event { replay no_state (Save title_a (Some (codes "x")) 11 ∷ Fan ∷ Claim ∷ []) ≡ None }
{}

/// An edit in a state: an accepted one is a save of its kept text, and a ticket that is out takes room in the journal.
pub fn edits()
    ensures accepted { verdict_in (small 3) restart_1 1 (edit_of_a (Some 1) (codes "y\r\n")) ≡ accept title_a (Some (codes "y")) }
    ensures event { event_of (verdict_in (small 3) restart_1 1 (edit_of_a (Some 1) (codes "y\r\n"))) 12
        ≡ Some (Save title_a (Some (codes "y")) 12) }
    ensures other_base { verdict_in (small 3) restart_1 1 (edit_of_a (Some 0) (codes "y")) ≡ refuse (edit_conflict 1) }
    ensures no_change { event_of (verdict_in (small 3) restart_1 1 (edit_of_a None (codes "x"))) 12 ≡ None }
    ensures room_for_the_ticket { verdict_in (small 3) restart_2 2 (edit_of_a None (codes "y")) ≡ refuse journal_full }
    ensures room_for_one_more { verdict_in (small 4) restart_2 2 (edit_of_a None (codes "y")) ≡ accept title_a (Some (codes "y")) }
{}

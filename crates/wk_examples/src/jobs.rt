//! The lists of jobs: what each call, a save, a fan and a restart do to them.
ghost use Rattle.std.specs.Prelude.{◌≡◌, true, false, codes, List, ◌∷◌, [], Some, None};
ghost use Rattle.wk_page_rules.specs.declared.Reach.TheVariants.{Text, Both};
ghost use Rattle.wk_table_rules.specs.Rows.{no_tables};
ghost use Rattle.wk_page_rules.specs.PageRows.{no_rows};
ghost use Rattle.wk_table_rules.specs.JobTable.{refresh_row};
ghost use Rattle.wk_wiki_rules.specs.Users.{users};
ghost use Rattle.wk_wiki_rules.specs.Jobs.{IsNumbered, no_jobs, first_queued, page_held_by, first_fan, left, refresh_queued, claimed_by, given_back, refresh_dropped, fan_set, fan_moved, fan_dropped};
ghost use Rattle.wk_wiki_rules.specs.Steps.{after_save, after_fan, reach_of_save, reopened_jobs, rows_of_jobs, jobs_of_tables};
ghost use Rattle.wk_wiki_rules.specs.Covers.{is_covered};
ghost use Rattle.wk_table_laws.specs.InOrder.{CanStand, IsInOrder};
ghost use Rattle.wk_examples.specs.Stores.{good, title_a, title_b, title_t, fan_job};
ghost use Rattle.wk_examples.specs.Queues.{waiting, held, fan, mixed, three, title_of_page, two_fans, stored, users_of_t, includes, tests};

/// A page has one refresh job; the first that is queued is claimed; one that is given back stands last.
pub fn refreshes()
    ensures queued { refresh_queued (refresh_queued (refresh_queued no_jobs 7) 3) 7
        ≡ record { refreshes = waiting 1 7 ∷ waiting 2 3 ∷ []; fans = []; next = 3 } }
    ensures claimed { claimed_by three 9
        ≡ record three { refreshes = held 1 7 9 ∷ waiting 2 3 ∷ waiting 3 5 ∷ [] } }
    ensures claimed_again { claimed_by (claimed_by three 9) 12
        ≡ record three { refreshes = held 1 7 9 ∷ held 2 3 12 ∷ waiting 3 5 ∷ [] } }
    ensures first_queued { first_queued (claimed_by three 9) ≡ Some 3 }
    ensures none_queued { first_queued (claimed_by (refresh_queued no_jobs 7) 9) ≡ None }
    ensures page_of_a_ticket { page_held_by (claimed_by (claimed_by three 9) 12) 12 ≡ Some 3 }
    ensures no_such_ticket { page_held_by (claimed_by three 9) 12 ≡ None }
    ensures given_back { given_back (claimed_by three 9) 7
        ≡ record three { refreshes = waiting 2 3 ∷ waiting 3 5 ∷ waiting 1 7 ∷ [] } }
    ensures dropped { refresh_dropped (claimed_by three 9) 7
        ≡ record three { refreshes = waiting 2 3 ∷ waiting 3 5 ∷ [] } }
    ensures queued_while_claimed { refresh_queued (claimed_by three 9) 7 ≡ claimed_by three 9 }
    ensures counted { left (claimed_by (fan_set three title_t Text) 9)
        ≡ record { queued = 2; claimed = 1; fans = 1 } }
{}

/// A title has one fan job, which keeps its place, begins anew and reaches as far as any save asked.
pub fn fans()
    ensures added { fan_set three title_t Text
        ≡ record three { fans = fan 4 title_t Text 0 ∷ []; next = 5 } }
    ensures widened { fan_set two_fans title_t Both
        ≡ record two_fans { fans = fan 4 title_t Both 0 ∷ fan 5 title_a Both 2 ∷ [] } }
    ensures not_narrowed { fan_set two_fans title_a Text
        ≡ record two_fans { fans = fan 4 title_t Text 3 ∷ fan 5 title_a Both 0 ∷ [] } }
    ensures first { first_fan two_fans ≡ Some (fan 4 title_t Text 3) }
    ensures none { first_fan three ≡ None }
    ensures moved { fan_moved two_fans 8
        ≡ record two_fans { fans = fan 4 title_t Text 8 ∷ fan 5 title_a Both 2 ∷ [] } }
    ensures dropped { fan_dropped two_fans ≡ record two_fans { fans = fan 5 title_a Both 2 ∷ [] } }
{}

/// The pages that name a title, rising, above a number, at most so many.
pub fn users_of_a_title()
    ensures by_templates { users stored title_t Text 0 9 ≡ 1 ∷ 3 ∷ 4 ∷ [] }
    ensures by_either { users stored title_t Both 0 9 ≡ 1 ∷ 2 ∷ 3 ∷ 4 ∷ [] }
    ensures above { users stored title_t Both 2 9 ≡ 3 ∷ 4 ∷ [] }
    ensures at_most { users stored title_t Both 1 2 ≡ 2 ∷ 3 ∷ [] }
    ensures linked_only { users stored title_b Both 0 9 ≡ [] }
{}

/// A save queues a refresh of its page, and a fan of its title where some page names it.
pub fn saves()
    ensures nobody_names_it { after_save stored no_jobs 2 title_b Both
        ≡ record { refreshes = waiting 1 2 ∷ []; fans = []; next = 2 } }
    ensures somebody_names_it { after_save stored no_jobs 5 title_t Text
        ≡ record { refreshes = waiting 1 5 ∷ []; fans = fan 2 title_t Text 0 ∷ []; next = 3 } }
    ensures it_names_itself { after_save (includes title_a ∷ []) no_jobs 1 title_a Text
        ≡ record { refreshes = waiting 1 1 ∷ []; fans = fan 2 title_a Text 0 ∷ []; next = 3 } }
    ensures existence_changed { after_save (tests title_a ∷ []) no_jobs 2 title_a (reach_of_save false true)
        ≡ record { refreshes = waiting 1 2 ∷ []; fans = fan 2 title_a Both 0 ∷ []; next = 3 } }
    ensures existence_stayed { after_save (tests title_a ∷ []) no_jobs 2 title_a (reach_of_save true true)
        ≡ record { refreshes = waiting 1 2 ∷ []; fans = []; next = 2 } }
    ensures jobs_that_stand { after_save [] two_fans 3 title_a Text
        ≡ record two_fans { fans = fan 4 title_t Text 3 ∷ fan 5 title_a Both 0 ∷ [] } }
{}

/// A fan serves the next pages that name the title. Here one fan serves two pages.
pub fn fanning()
    ensures first_pages { after_fan users_of_t 2 (fan_set no_jobs title_t Text)
        ≡ Some (record { refreshes = waiting 2 1 ∷ waiting 3 2 ∷ []; fans = fan 1 title_t Text 2 ∷ []; next = 4 }) }
    ensures begun_anew { after_fan users_of_t 2 (record { refreshes = waiting 2 1 ∷ waiting 3 2 ∷ []; fans = fan 1 title_t Text 0 ∷ []; next = 4 })
        ≡ Some (record { refreshes = waiting 2 1 ∷ waiting 3 2 ∷ []; fans = fan 1 title_t Text 2 ∷ []; next = 4 }) }
    ensures last_page { after_fan users_of_t 2 (record { refreshes = waiting 2 1 ∷ waiting 3 2 ∷ []; fans = fan 1 title_t Text 2 ∷ []; next = 4 })
        ≡ Some (record { refreshes = waiting 2 1 ∷ waiting 3 2 ∷ waiting 4 3 ∷ []; fans = []; next = 5 }) }
    ensures claimed_page { after_fan users_of_t 2 (record { refreshes = held 2 1 9 ∷ []; fans = fan 3 title_t Text 0 ∷ []; next = 4 })
        ≡ Some (record { refreshes = held 2 1 9 ∷ waiting 4 2 ∷ []; fans = fan 3 title_t Text 2 ∷ []; next = 5 }) }
    ensures nobody_left { after_fan users_of_t 2 (record { refreshes = []; fans = fan 1 title_t Text 3 ∷ fan 2 title_a Text 0 ∷ []; next = 3 })
        ≡ Some (record { refreshes = []; fans = fan 2 title_a Text 0 ∷ []; next = 3 }) }
    ensures no_fan_job { after_fan users_of_t 2 no_jobs ≡ None }
{}

/// A restart queues every job in the order of the numbers, and counts on from the jobs that stand.
pub fn restarts()
    ensures reopened { reopened_jobs (claimed_by (given_back (claimed_by three 9) 7) 12) ≡ three }
    ensures number_given_again { reopened_jobs (refresh_dropped three 5)
        ≡ record { refreshes = waiting 1 7 ∷ waiting 2 3 ∷ []; fans = []; next = 3 } }
    ensures no_job { reopened_jobs (record no_jobs { next = 40 }) ≡ no_jobs }
{}

/// The rows of the job table, in the order of their numbers, and the jobs that they stand for.
pub fn job_rows()
    ensures written { rows_of_jobs (λ page. title_a) (record { refreshes = held 2 1 9 ∷ []; fans = fan 1 title_t Text 3 ∷ fan 4 title_b Both 0 ∷ []; next = 7 })
        ≡ fan_job 1 title_t (codes "text:3") ∷ refresh_row 2 title_a ∷ fan_job 4 title_b (codes "both:0") ∷ [] }
    ensures read { jobs_of_tables (record (good 2) { jobs = fan_job 1 title_t (codes "text:3") ∷ refresh_row 2 title_b ∷ fan_job 4 title_b (codes "both:0") ∷ [] })
        ≡ record { refreshes = waiting 2 2 ∷ []; fans = fan 1 title_t Text 3 ∷ fan 4 title_b Both 0 ∷ []; next = 5 } }
    ensures none { jobs_of_tables no_tables ≡ no_jobs }
{}

/// A job covers a page: its refresh job, or a fan job of a title that the page names, with its cursor below the page.
pub fn covered_pages()
    ensures queued { is_covered three 3 no_rows ≡ true }
    ensures claimed { is_covered (claimed_by three 9) 7 no_rows ≡ true }
    ensures below_the_page { is_covered two_fans 4 (includes title_t) ≡ true }
    ensures cursor_at_the_page { is_covered (fan_moved (fan_set no_jobs title_t Text) 4) 4 (includes title_t)
        ≡ false }
    ensures not_reached { is_covered (fan_moved (fan_set no_jobs title_t Text) 3) 4 (tests title_t)
        ≡ false }
    ensures served_already { is_covered (fan_moved (fan_set no_jobs title_t Text) 4) 3 (includes title_t)
        ≡ false }
{}

/// Lists whose rows stand for them: each page is found by its title, and the fan jobs stand in order.
pub fn lists_that_can_stand()
    ensures found { CanStand (good 2) title_of_page mixed }
    ensures in_order { IsInOrder mixed }
    ensures numbered { IsNumbered mixed }
{}

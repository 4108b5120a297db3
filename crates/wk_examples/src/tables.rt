//! The tables of a store: which rule they break and in which row, and what a change does to them.
ghost use Rattle.std.specs.Prelude.{◌≡◌, ◌+◌, ◌-◌, ◌^◌, pos, true, false, codes, List, ◌∷◌, [], ◌++◌, Some, None};
ghost use Rattle.wk_page_rules.specs.declared.Reach.TheVariants.{Text, Both};
ghost use Rattle.wk_table_rules.specs.Rows.{category_title, no_tables};
ghost use Rattle.wk_page_rules.specs.PageRows.{no_rows};
ghost use Rattle.wk_table_rules.specs.Changes.{add_revision, set_page, set_rows, add_job, set_job, drop_job, set_version, applied, fits, with_rows_of};
ghost use Rattle.wk_table_rules.specs.Stored.{stored_rows};
ghost use Rattle.wk_table_rules.specs.JobTable.{fan_params, fan_row, params_text, refresh_row};
ghost use Rattle.wk_table_rules.specs.GoodStore.{first_broken};
ghost use Rattle.wk_table_laws.specs.Premises.{FitChange};
ghost use Rattle.wk_examples.specs.Stores.{both, broken, good, told, page, main, template, special, title_a, title_b, title_t, page_a, page_b, revision, deletion, revision_1, revision_2, deletion_3, link, category, member, redirect, fan_job, with_pages, with_revisions, with_history, with_pagelinks, with_templatelinks, with_existlinks, with_categorylinks, with_redirects, with_jobs};

/// A store that breaks no rule with either version, and a new store.
pub fn good_stores()
    ensures good { told good ≡ None ∷ None ∷ [] }
    ensures new { first_broken no_tables ≡ None }
{}

/// First rule: page ids are 1, 2, 3 and so on.
pub fn page_ids()
    ensures gap { told (with_pages (page_a ∷ page 3 title_b 0 0 ∷ [])) ≡ both 1 2 }
    ensures zero { told (with_pages (page 0 title_a 1 5 ∷ page_b ∷ [])) ≡ both 1 1 }
    ensures twice { told (with_pages (page_a ∷ page 1 title_b 0 0 ∷ [])) ≡ both 1 2 }
    ensures before_titles { told (with_pages (page 1 (main (codes "a")) 1 5 ∷ page 3 title_b 0 0 ∷ []))
        ≡ both 1 2 }
{}

/// Second rule: titles are normal, not negative, and distinct; of two the later is bad.
pub fn page_titles()
    ensures small_letter { told (with_pages (page 1 (main (codes "a")) 1 5 ∷ page_b ∷ []))
        ≡ both 2 1 }
    ensures other_namespace { told (with_pages (page_a ∷ page 2 (main (codes "Talk:B")) 0 0 ∷ []))
        ≡ both 2 2 }
    ensures no_namespace { told (with_pages (page_a ∷ page 2 (record { ns = pos 16; key = codes "B" }) 0 0 ∷ []))
        ≡ both 2 2 }
    ensures negative { told (with_pages (page 1 (special (codes "A")) 1 5 ∷ page_b ∷ []))
        ≡ both 2 1 }
    ensures twice { told (with_pages (page_a ∷ page 2 title_a 0 0 ∷ [])) ≡ both 2 2 }
{}

/// Third rule: revisions are numbered 1, 2, 3 and so on, each of a page, with the length of its text.
pub fn revisions()
    ensures gap { told (with_revisions (revision_1 ∷ revision 3 2 0 (codes "y") ∷ deletion 4 2 3 ∷ []))
        ≡ both 3 2 }
    ensures no_page { told (with_revisions (revision_1 ∷ revision 2 3 0 (codes "y") ∷ deletion_3 ∷ []))
        ≡ both 3 2 }
    ensures deletion_with_text { told (with_revisions (revision_1 ∷ revision_2 ∷ record (deletion 3 2 2) { rev_text = codes "z"; rev_len = 1 } ∷ []))
        ≡ both 3 3 }
    ensures wrong_length { told (with_revisions (record revision_1 { rev_len = 6 } ∷ revision_2 ∷ deletion_3 ∷ []))
        ≡ both 3 1 }
{}

/// Fourth rule: parents, current revisions and lengths; the row is the least over both tables.
pub fn parents_and_latest()
    ensures wrong_parent { told (with_revisions (revision_1 ∷ revision_2 ∷ deletion 3 2 1 ∷ []))
        ≡ both 4 3 }
    ensures parent_of_a_new_page { told (with_revisions (revision_1 ∷ revision 2 2 1 (codes "y") ∷ deletion_3 ∷ []))
        ≡ both 4 2 }
    ensures parent_after_a_deletion { told (with_history (page_a ∷ page 2 title_b 4 1 ∷ []) (revision_1 ∷ revision_2 ∷ deletion_3 ∷ revision 4 2 3 (codes "z") ∷ []))
        ≡ both 4 4 }
    ensures saved_after_a_deletion { told (with_history (page_a ∷ page 2 title_b 4 1 ∷ []) (revision_1 ∷ revision_2 ∷ deletion_3 ∷ revision 4 2 0 (codes "z") ∷ []))
        ≡ None ∷ None ∷ [] }
    ensures latest_is_a_deletion { told (with_pages (page_a ∷ page 2 title_b 3 0 ∷ []))
        ≡ both 4 2 }
    ensures latest_is_an_older_one { told (with_pages (page_a ∷ page 2 title_b 2 0 ∷ []))
        ≡ both 4 2 }
    ensures wrong_length { told (with_pages (page 1 title_a 1 4 ∷ page_b ∷ [])) ≡ both 4 1 }
    ensures no_revision { told (with_pages (page_a ∷ page_b ∷ page 3 (main (codes "C")) 0 0 ∷ []))
        ≡ both 4 3 }
    ensures least_of_both { told (with_history (page 1 title_a 1 4 ∷ page_b ∷ []) (revision_1 ∷ revision_2 ∷ deletion 3 2 1 ∷ []))
        ≡ both 4 1 }
{}

/// Fifth rule: link rows and redirect rows; the rows of all five tables are counted one after the other.
pub fn link_rows()
    ensures no_page { told (with_pagelinks (link 1 title_b ∷ link 3 title_b ∷ [])) ≡ both 5 2 }
    ensures wrong_namespace { told (with_pagelinks (record (link 1 title_b) { from_namespace = pos 1 } ∷ []))
        ≡ both 5 1 }
    ensures not_normal { told (with_templatelinks (link 1 (template (codes "t")) ∷ []))
        ≡ both 5 3 }
    ensures negative { told (with_existlinks (link 1 (special (codes "X")) ∷ [])) ≡ both 5 4 }
    ensures twice { told (with_existlinks (link 1 title_b ∷ link 1 title_b ∷ [])) ≡ both 5 5 }
    ensures titles_out_of_order { told (with_pagelinks (link 1 title_t ∷ link 1 title_b ∷ []))
        ≡ both 5 2 }
    ensures pages_out_of_order { told (with_existlinks (link 2 title_a ∷ link 1 title_b ∷ []))
        ≡ both 5 5 }
    ensures category_twice { told (with_categorylinks (category 1 (codes "X") ∷ category 1 (codes "X") ∷ []))
        ≡ both 5 7 }
    ensures category_not_normal { told (with_categorylinks (category 1 (codes "X") ∷ category 2 (codes "y") ∷ []))
        ≡ both 5 7 }
    ensures redirects_counted_last { first_broken (record (good 2) { redirects = redirect 3 title_a ∷ [] })
        ≡ broken 5 8 }
    ensures two_redirects { first_broken (record (good 2) { redirects = redirect 1 title_a ∷ redirect 1 title_b ∷ [] })
        ≡ broken 5 9 }
    ensures one_redirect { first_broken (record (good 2) { redirects = redirect 1 title_b ∷ redirect 2 title_a ∷ [] })
        ≡ None }
{}

/// Sixth rule: job numbers rise, and each job is a refresh of a page or a fan of a normal title.
pub fn jobs()
    ensures zero { told (with_jobs (refresh_row 0 title_a ∷ [])) ≡ both 6 1 }
    ensures not_rising { told (with_jobs (fan_job 4 title_t (codes "text:1") ∷ refresh_row 4 title_a ∷ []))
        ≡ both 6 2 }
    ensures too_great { told (with_jobs (refresh_row 1 title_a ∷ fan_job (2 ^ 63) title_t (codes "text:1") ∷ []))
        ≡ both 6 2 }
    ensures too_great_for_version_1 { told (with_jobs (refresh_row 1 title_a ∷ fan_job (2 ^ 63 - 1000000) title_t (codes "text:1") ∷ []))
        ≡ broken 6 2 ∷ None ∷ [] }
    ensures greatest_for_version_1 { told (with_jobs (refresh_row 1 title_a ∷ fan_job (2 ^ 63 - 1000001) title_t (codes "text:1") ∷ []))
        ≡ None ∷ None ∷ [] }
    ensures unknown_cmd { told (with_jobs (record (refresh_row 1 title_a) { job_cmd = codes "refreshlinks" } ∷ []))
        ≡ both 6 1 }
    ensures refresh_of_no_page { told (with_jobs (refresh_row 1 title_a ∷ refresh_row 2 (main (codes "C")) ∷ []))
        ≡ both 6 2 }
    ensures refresh_twice { told (with_jobs (refresh_row 1 title_a ∷ refresh_row 2 title_a ∷ []))
        ≡ both 6 2 }
    ensures refresh_with_params { told (with_jobs (record (refresh_row 1 title_a) { job_params = codes "0" } ∷ []))
        ≡ both 6 1 }
    ensures fan_not_normal { told (with_jobs (refresh_row 1 title_a ∷ fan_job 4 (template (codes "t")) (codes "text:1") ∷ []))
        ≡ both 6 2 }
    ensures fan_twice { told (with_jobs (fan_job 4 title_t (codes "text:1") ∷ fan_job 5 title_t (codes "both:0") ∷ []))
        ≡ both 6 2 }
    ensures fan_of_a_page_with_a_refresh { told (with_jobs (refresh_row 1 title_a ∷ fan_job 2 title_a (codes "both:1000000") ∷ []))
        ≡ None ∷ None ∷ [] }
    ensures negative_title { told (with_jobs (refresh_row 1 title_a ∷ fan_job 2 (special (codes "X")) (codes "both:0") ∷ []))
        ≡ None ∷ None ∷ [] }
    ensures params_without_colon { told (with_jobs (fan_job 4 title_t (codes "text") ∷ []))
        ≡ both 6 1 }
    ensures params_of_no_reach { told (with_jobs (fan_job 4 title_t (codes "all:1") ∷ []))
        ≡ both 6 1 }
    ensures params_with_leading_zero { told (with_jobs (fan_job 4 title_t (codes "text:01") ∷ []))
        ≡ both 6 1 }
    ensures cursor_too_great { told (with_jobs (fan_job 4 title_t (codes "text:1000001") ∷ []))
        ≡ both 6 1 }
{}

/// Seventh rule: the version is 1 or 2, and with version 1 there is no redirect row.
pub fn versions()
    ensures redirect_with_version_1 { told (with_redirects (redirect 1 title_b ∷ redirect 2 title_a ∷ []))
        ≡ broken 7 1 ∷ None ∷ [] }
    ensures unknown { first_broken (good 3) ≡ broken 7 1 }
    ensures unknown_behind_redirects { first_broken (record (good 0) { redirects = redirect 1 title_b ∷ redirect 2 title_a ∷ [] })
        ≡ broken 7 3 }
{}

/// What a change gives: its edits are made in order.
pub fn changes()
    ensures saved { applied (good 2) (add_revision (revision 4 3 0 (codes "c")) ∷ set_page (page 3 (main (codes "C")) 4 1) ∷ add_job (refresh_row 5 (main (codes "C"))) ∷ [])
        ≡ record (good 2) {
          pages = page_a ∷ page_b ∷ page 3 (main (codes "C")) 4 1 ∷ [];
          revisions = (good 2).revisions ++ revision 4 3 0 (codes "c") ∷ [];
          jobs = (good 2).jobs ++ refresh_row 5 (main (codes "C")) ∷ [];
        } }
    ensures page_replaced { applied (good 2) (set_page (page 1 title_a 4 2) ∷ [])
        ≡ record (good 2) { pages = page 1 title_a 4 2 ∷ page_b ∷ [] } }
    ensures job_replaced_and_dropped { applied (good 2) (set_job (fan_job 4 title_t (codes "both:0")) ∷ drop_job 1 ∷ [])
        ≡ record (good 2) { jobs = fan_job 4 title_t (codes "both:0") ∷ [] } }
    ensures version_set { applied (good 1) (set_version 2 ∷ []) ≡ good 2 }
    ensures rows_replaced { applied (good 2) (set_rows 1 no_rows ∷ [])
        ≡ record (good 2) { pagelinks = []; templatelinks = []; existlinks = link 2 title_a ∷ []; categorylinks = [] } }
    ensures rows_of_a_later_page { applied (good 2) (set_rows 2 (record no_rows { links = title_a ∷ []; templates = title_t ∷ []; members = record { category = category_title (codes "Z"); sortkey = codes "B"; prefix = [] } ∷ []; redirect = Some title_a }) ∷ [])
        ≡ record (good 2) {
          pagelinks = (good 2).pagelinks ++ link 2 title_a ∷ [];
          templatelinks = (good 2).templatelinks ++ link 2 title_t ∷ [];
          existlinks = link 1 title_b ∷ [];
          categorylinks = (good 2).categorylinks ++ record { cl_from = 2; cl_to = codes "Z"; cl_sortkey = codes "B"; cl_sortkey_prefix = [] } ∷ [];
          redirects = redirect 2 title_a ∷ [];
        } }
    ensures rows_of_a_list_out_of_order { with_rows_of (λ row. row.from) 2 (link 1 title_a ∷ link 2 title_a ∷ link 4 title_a ∷ link 1 title_b ∷ link 3 title_a ∷ link 2 title_b ∷ []) (link 2 title_b ∷ link 2 title_t ∷ [])
        ≡ link 1 title_a ∷ link 2 title_b ∷ link 2 title_t ∷ link 4 title_a ∷ link 1 title_b ∷ link 3 title_a ∷ [] }
    ensures namespace_of_the_page { (applied (record (good 2) { pages = page 1 title_t 1 5 ∷ page_b ∷ [] }) (set_rows 1 (record no_rows { links = title_a ∷ [] }) ∷ [])).pagelinks
        ≡ record { from = 1; from_namespace = pos 10; target = title_a } ∷ [] }
{}

/// When a change fits: what is appended is above all of its list, and what is changed is there, each at its turn.
pub fn fitting_changes()
    ensures saved { fits (good 2) (add_revision (revision 4 3 0 (codes "c")) ∷ set_page (page 3 (main (codes "C")) 4 1) ∷ add_job (refresh_row 5 (main (codes "C"))) ∷ [])
        ≡ true }
    ensures revision_not_above { fits (good 2) (add_revision (revision 3 3 0 (codes "c")) ∷ [])
        ≡ false }
    ensures job_not_above { fits (good 2) (add_job (refresh_row 4 title_b) ∷ []) ≡ false }
    ensures page_not_above { fits (good 2) (set_page (page 0 (main (codes "C")) 4 1) ∷ [])
        ≡ false }
    ensures page_replaced { fits (good 2) (set_page (page 1 title_a 4 2) ∷ []) ≡ true }
    ensures rows_of_no_page { fits (good 2) (set_rows 3 no_rows ∷ []) ≡ false }
    ensures rows_of_a_page_that_the_change_adds { fits (good 2) (set_page (page 3 (main (codes "C")) 4 1) ∷ set_rows 3 no_rows ∷ [])
        ≡ true }
    ensures job_that_the_change_drops { fits (good 2) (drop_job 4 ∷ set_job (fan_job 4 title_t (codes "both:0")) ∷ [])
        ≡ false }
    ensures job_that_is_there { fits (good 2) (set_job (fan_job 4 title_t (codes "both:0")) ∷ drop_job 4 ∷ [])
        ≡ true }
{}

/// The link rows that the tables have of each page.
pub fn stored_rows()
    ensures { stored_rows (record (good 2) { redirects = redirect 2 title_a ∷ [] })
        ≡ record {
          templates = title_t ∷ [];
          exists = title_b ∷ [];
          links = title_b ∷ title_t ∷ [];
          members = member (codes "X") ∷ member (codes "Y") ∷ [];
          redirect = None;
        } ∷ record no_rows { exists = title_a ∷ []; redirect = Some title_a } ∷ [] }
{}

/// The params of a fan job are written `text:N` or `both:N`, and read back.
pub fn job_params()
    ensures written { params_text (record { reach = Text; cursor = 0 }) ≡ codes "text:0" }
    ensures written_both { params_text (record { reach = Both; cursor = 300 }) ≡ codes "both:300" }
    ensures read { fan_params (codes "both:300") ≡ Some (record { reach = Both; cursor = 300 }) }
    ensures not_read { fan_params (codes "both:") ≡ None }
{}

/// Changes that bring what the rules ask: a save of a new page, a deletion, and a refresh that is done.
pub fn changes_that_keep_tables_good()
    ensures new_page { FitChange (good 2) (
        add_revision (revision 4 3 0 (codes "c")) ∷ set_page (page 3 (main (codes "C")) 4 1)
        ∷ add_job (refresh_row 5 (main (codes "C")))
        ∷ set_job (fan_row 4 title_t (record { reach = Both; cursor = 0 })) ∷ []) }
    ensures deletion { FitChange (good 2) (add_revision (deletion 4 1 1) ∷ set_page (page 1 title_a 0 0) ∷ []) }
    ensures refresh { FitChange (good 2) (
        set_rows 1 (record no_rows { templates = title_a ∷ title_t ∷ []; members = member (codes "Z") ∷ []; redirect = Some title_b })
        ∷ drop_job 1 ∷ []) }
    ensures version { FitChange (good 1) (set_version 2 ∷ add_job (refresh_row 5 title_b) ∷ []) }
{}

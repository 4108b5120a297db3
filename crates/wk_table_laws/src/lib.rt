//! Laws of the tables of a store: what it means that no rule is broken, and which changes keep the rules. And of the job lists
//! and the job table: the rows of the jobs stand for the jobs, as a restart has them. Nothing here runs.
#![tactic(auto)]

mod claims;

ghost use Rattle.std.specs.Prelude.{◌≡◌, ◌+◌, ◌<◌, ◌^◌, true, List, ℕ, Some, slice_get};
ghost use Rattle.wk_table_rules.specs.Rows.{StoreTables, PageColumns, RevisionColumns, no_tables};
ghost use Rattle.wk_table_rules.specs.Changes.{TableEdit, applied, fits};
ghost use Rattle.wk_table_rules.specs.JobTable.{FanParams, fan_params, params_text};
ghost use Rattle.wk_table_rules.specs.GoodStore.{IsGood};
ghost use Rattle.wk_table_laws.specs.EachGood.{KeepsRules};
ghost use Rattle.wk_table_laws.specs.Premises.{FitChange};
ghost use Rattle.wk_text_rules.specs.Titles.{PageTitle};
ghost use Rattle.wk_page_rules.specs.declared.Reach.{Reach};
ghost use Rattle.wk_page_rules.specs.PageRows.{PageRows};
ghost use Rattle.wk_wiki_rules.specs.Jobs.{FanEntry, JobLists, IsNumbered, no_jobs, refresh_queued, claimed_by, given_back, refresh_dropped, fan_set, fan_moved, fan_dropped};
ghost use Rattle.wk_wiki_rules.specs.Steps.{after_save, after_serving, jobs_of_tables, rows_of_jobs, reopened_jobs};
ghost use Rattle.wk_table_laws.specs.InOrder.{CanStand, IsInOrder};

pub use claims::{claimed_jobs_stand_first, claims_stand_in_order};

/// No rule is broken exactly where each row is good, judged with the rows before it.
pub fn good_tables_have_good_rows()
    ensures rows { (tables : StoreTables) → IsGood tables → KeepsRules tables }
    ensures tables { (tables : StoreTables) → KeepsRules tables → IsGood tables }
{}

/// In good tables the number of a page or of a revision is its place, counted from 1.
pub fn numbers_are_places()
    ensures pages { (tables : StoreTables) (place : ℕ) (row : PageColumns)
        → IsGood tables → slice_get tables.pages place ≡ Some row → row.page_id ≡ place + 1 }
    ensures revisions { (tables : StoreTables) (place : ℕ) (row : RevisionColumns)
        → IsGood tables → slice_get tables.revisions place ≡ Some row → row.rev_id ≡ place + 1 }
{}

/// A new store is good. A change that brings what the rules ask fits good tables, and gives good tables.
pub fn good_tables_stay_good()
    ensures new { IsGood no_tables }
    ensures fit { (tables : StoreTables) (change : List TableEdit) → IsGood tables → FitChange tables change → fits tables change ≡ true }
    ensures good { (tables : StoreTables) (change : List TableEdit) → IsGood tables → FitChange tables change → IsGood (applied tables change) }
{}

/// The params of a fan job are read back as they were written.
pub fn fan_params_are_read_back()
    ensures { (params : FanParams) → params.cursor < 2 ^ 64 → fan_params (params_text params) ≡ Some params }
{}

/// The job table that is written of the lists stands for the lists as a restart has them, where the fan jobs stand in
/// the order of their numbers.
pub fn written_jobs_are_read_back()
    ensures { (tables : StoreTables) (title_of : ℕ → PageTitle) (lists : JobLists) → CanStand tables title_of lists → IsInOrder lists
        → jobs_of_tables (record tables { jobs = rows_of_jobs title_of lists }) ≡ reopened_jobs lists }
{}

/// The fan jobs stand in the order of their numbers, and each call keeps that.
pub fn fan_jobs_stand_in_order()
    ensures none { IsInOrder no_jobs }
    ensures queued { (lists : JobLists) (page : ℕ) → IsInOrder lists → IsInOrder (refresh_queued lists page) }
    ensures claimed { (lists : JobLists) (ticket : ℕ) → IsInOrder lists → IsInOrder (claimed_by lists ticket) }
    ensures given_back { (lists : JobLists) (page : ℕ) → IsInOrder lists → IsInOrder (given_back lists page) }
    ensures dropped { (lists : JobLists) (page : ℕ) → IsInOrder lists → IsInOrder (refresh_dropped lists page) }
    ensures fan_set { (lists : JobLists) (title : PageTitle) (reach : Reach)
        → IsNumbered lists → IsInOrder lists → IsInOrder (fan_set lists title reach) }
    ensures fan_moved { (lists : JobLists) (cursor : ℕ) → IsInOrder lists → IsInOrder (fan_moved lists cursor) }
    ensures fan_dropped { (lists : JobLists) → IsInOrder lists → IsInOrder (fan_dropped lists) }
    ensures saved { (stored : List PageRows) (lists : JobLists) (page : ℕ) (title : PageTitle) (reach : Reach)
        → IsNumbered lists → IsInOrder lists → IsInOrder (after_save stored lists page title reach) }
    ensures fanned { (stored : List PageRows) (most : ℕ) (lists : JobLists) (fan : FanEntry)
        → IsInOrder lists → IsInOrder (after_serving stored most lists fan) }
    ensures reopened { (lists : JobLists) → IsInOrder lists → IsInOrder (reopened_jobs lists) }
{}

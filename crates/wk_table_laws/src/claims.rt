//! Laws of the claimed refresh jobs among the others.
ghost use Rattle.std.specs.Prelude.{◌≡◌, ◌++◌, List, ℕ, filter, find, option_map, Some};
ghost use Rattle.std.specs.Option.{option_to_list};
ghost use Rattle.wk_text_rules.specs.Titles.{PageTitle};
ghost use Rattle.wk_page_rules.specs.declared.Reach.{Reach};
ghost use Rattle.wk_page_rules.specs.PageRows.{PageRows};
ghost use Rattle.wk_wiki_rules.specs.Jobs.{FanEntry, RefreshEntry, JobLists, no_jobs, is_claimed, is_queued, jobs_of_others, refresh_queued, claimed_by, given_back, refresh_dropped, fan_set, fan_moved, fan_dropped};
ghost use Rattle.wk_wiki_rules.specs.Steps.{after_save, after_serving, reopened_jobs};
ghost use Rattle.wk_table_laws.specs.ClaimedFirst.{ClaimedStandFirst};

/// The claimed refresh jobs stand before the queued ones, and each call keeps that.
pub fn claimed_jobs_stand_first()
    ensures none { ClaimedStandFirst no_jobs }
    ensures queued { (lists : JobLists) (page : ℕ) → ClaimedStandFirst lists → ClaimedStandFirst (refresh_queued lists page) }
    ensures claimed { (lists : JobLists) (ticket : ℕ) → ClaimedStandFirst lists → ClaimedStandFirst (claimed_by lists ticket) }
    ensures given_back { (lists : JobLists) (page : ℕ) → ClaimedStandFirst lists → ClaimedStandFirst (given_back lists page) }
    ensures dropped { (lists : JobLists) (page : ℕ) → ClaimedStandFirst lists → ClaimedStandFirst (refresh_dropped lists page) }
    ensures fan_set { (lists : JobLists) (title : PageTitle) (reach : Reach) → ClaimedStandFirst lists → ClaimedStandFirst (fan_set lists title reach) }
    ensures fan_moved { (lists : JobLists) (cursor : ℕ) → ClaimedStandFirst lists → ClaimedStandFirst (fan_moved lists cursor) }
    ensures fan_dropped { (lists : JobLists) → ClaimedStandFirst lists → ClaimedStandFirst (fan_dropped lists) }
    ensures saved { (stored : List PageRows) (lists : JobLists) (page : ℕ) (title : PageTitle) (reach : Reach)
        → ClaimedStandFirst lists → ClaimedStandFirst (after_save stored lists page title reach) }
    ensures fanned { (stored : List PageRows) (most : ℕ) (lists : JobLists) (fan : FanEntry)
        → ClaimedStandFirst lists → ClaimedStandFirst (after_serving stored most lists fan) }
    ensures reopened { (lists : JobLists) → ClaimedStandFirst (reopened_jobs lists) }
{}

/// The claimed refresh jobs stand in the order of their claims: a claim puts its job behind those that are claimed, and
/// no other call changes their order.
pub fn claims_stand_in_order()
    ensures claimed { (lists : JobLists) (ticket : ℕ) → ClaimedStandFirst lists
        → filter is_claimed (claimed_by lists ticket).refreshes
        ≡ filter is_claimed lists.refreshes ++ option_to_list (option_map (λ (job : RefreshEntry). record job { ticket = Some ticket }) (find is_queued lists.refreshes)) }
    ensures queued { (lists : JobLists) (page : ℕ) → filter is_claimed (refresh_queued lists page).refreshes ≡ filter is_claimed lists.refreshes }
    ensures given_back { (lists : JobLists) (page : ℕ)
        → filter is_claimed (given_back lists page).refreshes ≡ jobs_of_others page (filter is_claimed lists.refreshes) }
    ensures dropped { (lists : JobLists) (page : ℕ)
        → filter is_claimed (refresh_dropped lists page).refreshes ≡ jobs_of_others page (filter is_claimed lists.refreshes) }
{}

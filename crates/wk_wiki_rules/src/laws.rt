//! What stays true of the job lists, whatever is done to them.
ghost use Rattle.std.specs.Prelude.{◌≡◌, ◌&&◌, ◌||◌, ◌==◌, not, List, ℕ};
ghost use Rattle.wk_text_rules.specs.Titles.{PageTitle};
ghost use Rattle.wk_page_rules.specs.declared.Reach.{Reach};
ghost use Rattle.wk_page_rules.specs.PageRows.{PageRows};
ghost use Rattle.wk_wiki_rules.specs.Jobs.{FanEntry, JobLists, IsOneAPage, IsOneATitle, IsNumbered, no_jobs, has_refresh, refresh_queued, claimed_by, given_back, refresh_dropped, fan_set, fan_moved, fan_dropped};
ghost use Rattle.wk_wiki_rules.specs.Steps.{after_save, after_serving, reopened_jobs};

/// A page has at most one refresh job, queued or claimed, and each call keeps that.
pub fn a_page_has_one_refresh_job()
    ensures none { IsOneAPage no_jobs }
    ensures queued { (lists : JobLists) (page : ℕ) → IsOneAPage lists → IsOneAPage (refresh_queued lists page) }
    ensures claimed { (lists : JobLists) (ticket : ℕ) → IsOneAPage lists → IsOneAPage (claimed_by lists ticket) }
    ensures given_back { (lists : JobLists) (page : ℕ) → IsOneAPage lists → IsOneAPage (given_back lists page) }
    ensures dropped { (lists : JobLists) (page : ℕ) → IsOneAPage lists → IsOneAPage (refresh_dropped lists page) }
    ensures saved { (stored : List PageRows) (lists : JobLists) (page : ℕ) (title : PageTitle) (reach : Reach)
        → IsOneAPage lists → IsOneAPage (after_save stored lists page title reach) }
    ensures fanned { (stored : List PageRows) (most : ℕ) (lists : JobLists) (fan : FanEntry)
        → IsOneAPage lists → IsOneAPage (after_serving stored most lists fan) }
    ensures reopened { (lists : JobLists) → IsOneAPage lists → IsOneAPage (reopened_jobs lists) }
{}

/// A title has at most one fan job, and each call keeps that.
pub fn a_title_has_one_fan_job()
    ensures none { IsOneATitle no_jobs }
    ensures set { (lists : JobLists) (title : PageTitle) (reach : Reach) → IsOneATitle lists → IsOneATitle (fan_set lists title reach) }
    ensures moved { (lists : JobLists) (cursor : ℕ) → IsOneATitle lists → IsOneATitle (fan_moved lists cursor) }
    ensures dropped { (lists : JobLists) → IsOneATitle lists → IsOneATitle (fan_dropped lists) }
    ensures saved { (stored : List PageRows) (lists : JobLists) (page : ℕ) (title : PageTitle) (reach : Reach)
        → IsOneATitle lists → IsOneATitle (after_save stored lists page title reach) }
    ensures fanned { (stored : List PageRows) (most : ℕ) (lists : JobLists) (fan : FanEntry)
        → IsOneATitle lists → IsOneATitle (after_serving stored most lists fan) }
{}

/// Claiming, giving back and a restart keep which pages have a refresh job; queuing adds one page, and dropping takes
/// one away.
pub fn which_pages_have_a_job()
    ensures claimed { (lists : JobLists) (ticket page : ℕ) → has_refresh (claimed_by lists ticket) page ≡ has_refresh lists page }
    ensures given_back { (lists : JobLists) (whose page : ℕ) → has_refresh (given_back lists whose) page ≡ has_refresh lists page }
    ensures reopened { (lists : JobLists) (page : ℕ) → has_refresh (reopened_jobs lists) page ≡ has_refresh lists page }
    ensures queued { (lists : JobLists) (whose page : ℕ)
        → has_refresh (refresh_queued lists whose) page ≡ (has_refresh lists page || whose == page) }
    ensures dropped { (lists : JobLists) (whose page : ℕ)
        → has_refresh (refresh_dropped lists whose) page ≡ (has_refresh lists page && not (page == whose)) }
{}

/// Every job has a number of its own, from 1 on, and the next number is above them all; each call keeps that.
pub fn a_job_has_a_number_of_its_own()
    ensures none { IsNumbered no_jobs }
    ensures queued { (lists : JobLists) (page : ℕ) → IsNumbered lists → IsNumbered (refresh_queued lists page) }
    ensures claimed { (lists : JobLists) (ticket : ℕ) → IsNumbered lists → IsNumbered (claimed_by lists ticket) }
    ensures given_back { (lists : JobLists) (page : ℕ) → IsNumbered lists → IsNumbered (given_back lists page) }
    ensures dropped { (lists : JobLists) (page : ℕ) → IsNumbered lists → IsNumbered (refresh_dropped lists page) }
    ensures fan_set { (lists : JobLists) (title : PageTitle) (reach : Reach) → IsNumbered lists → IsNumbered (fan_set lists title reach) }
    ensures fan_moved { (lists : JobLists) (cursor : ℕ) → IsNumbered lists → IsNumbered (fan_moved lists cursor) }
    ensures fan_dropped { (lists : JobLists) → IsNumbered lists → IsNumbered (fan_dropped lists) }
    ensures saved { (stored : List PageRows) (lists : JobLists) (page : ℕ) (title : PageTitle) (reach : Reach)
        → IsNumbered lists → IsNumbered (after_save stored lists page title reach) }
    ensures fanned { (stored : List PageRows) (most : ℕ) (lists : JobLists) (fan : FanEntry)
        → IsNumbered lists → IsNumbered (after_serving stored most lists fan) }
    ensures reopened { (lists : JobLists) → IsNumbered lists → IsNumbered (reopened_jobs lists) }
{}

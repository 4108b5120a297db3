//! Laws of reports. Each is the contract of a function with an empty body.
#![tactic(auto)]

ghost use Rattle.std.specs.Prelude.{◌≡◌, ℕ, []};
ghost use Rattle.wk_wiki_rules.specs.States.{State, world_of};
ghost use Rattle.wk_wiki_rules.specs.Soundness.{IsSound};
ghost use Rattle.wk_report_rules.specs.declared.Report.{Report};
ghost use Rattle.wk_report_rules.specs.Pages.{expanded_pages, stored_pages};
ghost use Rattle.wk_report_rules.specs.Reports.{report_lines};

/// Where no job is left in a sound wiki, the lines of each report over the stored rows are those over the rows of a new expansion of
/// each page.
pub fn reports_are_those_of_new_expansions()
    ensures { (state : State) (which : Report) (most : ℕ)
        → IsSound state → state.jobs.refreshes ≡ [] → state.jobs.fans ≡ []
        → report_lines which (world_of state) (stored_pages state) most
        ≡ report_lines which (world_of state) (expanded_pages state) most }
{}

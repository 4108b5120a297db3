//! Laws of tickets, for whoever holds one over other calls, and of the fan jobs of saves. Each is the contract of a function that
//! does nothing.
ghost use Rattle.std.specs.Prelude.{◌≡◌, ◌≢◌, ◌||◌, ℕ, List, Option, None, Some, is_some, length, if◌then◌else◌};
ghost use Rattle.wk_text_rules.specs.Titles.{PageTitle};
ghost use Rattle.wk_page_rules.specs.History.{page_exists, page_to_save};
ghost use Rattle.wk_page_rules.specs.PageRows.{PageRows};
ghost use Rattle.wk_page_rules.specs.declared.Reach.{Reach};
ghost use Rattle.wk_view_rules.specs.Worlds.{Agrees, of_world};
ghost use Rattle.wk_wiki_rules.specs.States.{State, world_of};
ghost use Rattle.wk_wiki_rules.specs.Jobs.{JobLists, has_fan, refresh_queued};
ghost use Rattle.wk_wiki_rules.specs.Steps.{after_save, reach_of_save};
ghost use Rattle.wk_wiki_rules.specs.Users.{some_page_names};
ghost use Rattle.wk_wiki_rules.specs.TableChanges.{fan_edits};
ghost use Rattle.wk_wiki_rules.specs.Events.{Event, Done, Back, jobs_after_save, step, stored_with};
ghost use Rattle.wk_wiki_rules.specs.Claims.{ClaimOutcome};
ghost use Rattle.wk_wiki_rules.specs.Starts.{Start};
ghost use Rattle.wk_life_laws.specs.Runs.{IsRun};
ghost use Rattle.wk_expand.specs.Drafts.{DraftShown};
ghost use Rattle.wk_changes.specs.Parts.{is_fan_wanted};
ghost use Rattle.wk_live.specs.Wanted.{fan_of_save, queued_with, wants_fan};
ghost use Rattle.wk_core.specs.Tickets.{IsDraftFor, IsOut};

/// A ticket that is out stays out, with its title, over each event that doesn't bring it in.
pub fn a_ticket_stays_out()
    ensures { (start : Start) (journal : List Event) (state next : State) (event : Event) (ticket : ClaimOutcome)
        → IsRun start journal state → step state (length journal) event ≡ Some next → IsOut state ticket
        → event ≢ Done ticket.ticket → event ≢ Back ticket.ticket → IsOut next ticket }
{}

/// A draft of the ticket's page that agrees with the present world is fit for the ticket, and stays so over each event.
pub fn a_draft_stays_fit()
    ensures present { (state : State) (ticket : ClaimOutcome) (draft : DraftShown)
        → draft.page ≡ ticket.title → draft.given ≡ None → Agrees (of_world (world_of state)) draft.reads
        → IsDraftFor state ticket draft }
    ensures stepped { (state next : State) (journal : ℕ) (event : Event) (ticket : ClaimOutcome) (draft : DraftShown)
        → step state journal event ≡ Some next → IsDraftFor state ticket draft → IsDraftFor next ticket draft }
{}

/// Whether a save makes a fan job has one definition: what stands behind it, `after_save`. What is asked before the save, what
/// the save does to the lists, and what it writes to the job table follow from it.
pub fn a_save_makes_a_fan_job_where_one_is_wanted()
    // Behind a save a fan job of the title stands exactly where one stood, or some page's rows name the title.
    ensures stands { (stored : List PageRows) (lists : JobLists) (page : ℕ) (title : PageTitle) (reach : Reach)
        → has_fan (after_save stored lists page title reach) title ≡ (has_fan lists title || some_page_names stored title reach) }
    // One is wanted exactly where it stands behind the save.
    ensures wanted { (state : State) (title : PageTitle) (text : Option (List ℕ))
        → is_fan_wanted state title text ≡ has_fan (jobs_after_save state title text) title }
    ensures asked { (state : State) (title : PageTitle) (text : Option (List ℕ))
        → wants_fan state title (reach_of_save (page_exists state.history title) (is_some text)) ≡ has_fan (jobs_after_save state title text) title }
    // Its title is given to the save exactly there.
    ensures given { (state : State) (title : PageTitle) (text : Option (List ℕ))
        → fan_of_save state title text ≡ (if has_fan (jobs_after_save state title text) title then Some title else None) }
    // The lists that are made with that title are those behind the save.
    ensures made { (state : State) (title : PageTitle) (text : Option (List ℕ))
        → queued_with state.jobs (page_to_save state.history title) (reach_of_save (page_exists state.history title) (is_some text)) (fan_of_save state title text)
        ≡ jobs_after_save state title text }
    // The job table gets one edit for it exactly there, and else none.
    ensures written { (state : State) (title : PageTitle) (text : Option (List ℕ))
        → length (fan_edits (stored_with state title) (refresh_queued state.jobs (page_to_save state.history title)) title (reach_of_save (page_exists state.history title) (is_some text)))
        ≡ (if has_fan (jobs_after_save state title text) title then 1 else 0) }
{}

//! The numbers of pages.
ghost use Rattle.std.specs.Prelude.{◌≡◌, ℕ, List, Some};
ghost use Rattle.wk_text_rules.specs.Titles.{PageTitle};
ghost use Rattle.wk_page_rules.specs.History.{page_number};
ghost use Rattle.wk_wiki_rules.specs.States.{State};
ghost use Rattle.wk_wiki_rules.specs.Events.{Event, step_by};
ghost use Rattle.wk_wiki_rules.specs.Lives.{replay_from, reopened};

/// A title keeps its page for good: behind each event, each journal and each restart it has the number that it had.
pub fn a_title_keeps_its_page()
    ensures stepped { (most : ℕ) (state next : State) (journal : ℕ) (event : Event) (title : PageTitle) (page : ℕ)
        → step_by most state journal event ≡ Some next → page_number state.history title ≡ Some page
        → page_number next.history title ≡ Some page }
    ensures replayed { (most : ℕ) (start last : State) (journal : ℕ) (events : List Event) (title : PageTitle) (page : ℕ)
        → replay_from most start journal events ≡ Some last → page_number start.history title ≡ Some page
        → page_number last.history title ≡ Some page }
    ensures reopened { (state : State) (title : PageTitle) → page_number (reopened state).history title ≡ page_number state.history title }
{}

//! The numbers that a save and a fan come to.
ghost use Rattle.std.specs.Prelude.{◌≡◌, ℕ, ◌+◌, ◌≤◌, ◌<◌, ◌^◌, false, true, length, List, None, Option};
ghost use Rattle.wk_text_rules.specs.Titles.{PageTitle};
ghost use Rattle.wk_page_rules.specs.History.{can_save, page_number};
ghost use Rattle.wk_page_rules.specs.Verdict.{EditAsked, MostHeld, accept, max_pages};
ghost use Rattle.wk_page_rules.specs.PageRows.{PageRows};
ghost use Rattle.wk_wiki_rules.specs.Jobs.{FanEntry};
ghost use Rattle.wk_wiki_rules.specs.Steps.{fan_pages, next_served};
ghost use Rattle.wk_wiki_rules.specs.States.{State};
ghost use Rattle.wk_wiki_rules.specs.Verdicts.{verdict_in};
ghost use Rattle.wk_wiki_laws.specs.Reached.{IsWithinFull};
ghost use Rattle.wk_wiki_rules.specs.Room.{is_fan_refused};

/// A save that is accepted is possible, has room for a page where its title is new, and numbers for its jobs.
pub fn an_accepted_save_fits()
    ensures possible { (most : MostHeld) (state : State) (point : ℕ) (edit : EditAsked) (title : PageTitle) (text : Option (List ℕ))
        → verdict_in most state point edit ≡ accept title text → can_save state.history title text ≡ true }
    ensures pages { (most : MostHeld) (state : State) (point : ℕ) (edit : EditAsked) (title : PageTitle) (text : Option (List ℕ))
        → IsWithinFull most → verdict_in most state point edit ≡ accept title text
        → page_number state.history title ≡ None → length state.history.pages < max_pages }
    ensures numbers { (most : MostHeld) (state : State) (point : ℕ) (edit : EditAsked) (title : PageTitle) (text : Option (List ℕ))
        → verdict_in most state point edit ≡ accept title text → state.jobs.next + 1 < 2 ^ 63 }
{}

/// A fan serves at most as many pages as it may, and has numbers for their jobs.
pub fn a_fan_fits()
    ensures served { (stored : List PageRows) (most : ℕ) (fan : FanEntry) → length (next_served stored most fan) ≤ most }
    ensures numbers { (most : MostHeld) (state : State) (point served : ℕ)
        → is_fan_refused most state point ≡ false → served ≤ fan_pages → state.jobs.next + served ≤ 2 ^ 63 }
{}

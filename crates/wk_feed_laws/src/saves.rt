//! Events as their lines have them.
ghost use Rattle.std.specs.Prelude.{◌≡◌, ℕ, List, Option, Some};
ghost use Rattle.wk_text_rules.specs.Titles.{PageTitle, shown};
ghost use Rattle.wk_page_rules.specs.Verdict.{EditAsked, MostHeld, accept, full_limits};
ghost use Rattle.wk_wiki_rules.specs.Calls.{IsMade};
ghost use Rattle.wk_wiki_rules.specs.Events.{Event};
ghost use Rattle.wk_wiki_rules.specs.States.{State};
ghost use Rattle.wk_wiki_rules.specs.Verdicts.{verdict_in};
ghost use Rattle.wk_feed_rules.specs.Feeds.{event_line};
ghost use Rattle.wk_feed_rules.specs.Taking.{event_of_line, plain_save};

/// What was accepted is accepted again, in the same state, as a plain save of the title as it is shown and of the text as it is kept. So
/// each event that a call makes is that of its line.
pub fn saved_again()
    ensures accepted { (most : MostHeld) (state : State) (journal : ℕ) (edit : EditAsked) (title : PageTitle) (text : Option (List ℕ))
        → verdict_in most state journal edit ≡ accept title text
        → verdict_in most state journal (plain_save (shown title) text) ≡ accept title text }
    ensures line { (state : State) (journal : ℕ) (event : Event)
        → IsMade full_limits state journal event → event_of_line state journal (event_line event) ≡ Some event }
{}

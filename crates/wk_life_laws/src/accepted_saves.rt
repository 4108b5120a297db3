//! The saves that are accepted, and the text that is kept of them.
ghost use Rattle.std.specs.Prelude.{◌≡◌, ℕ, List, Option, Some, option_map, true};
ghost use Rattle.wk_text_rules.specs.Titles.{PageTitle};
ghost use Rattle.wk_page_rules.specs.History.{History, can_save};
ghost use Rattle.wk_page_rules.specs.Kept.{kept};
ghost use Rattle.wk_page_rules.specs.Verdict.{EditAsked, JournalUse, MostHeld, accept, judged, real_title, verdict};
ghost use Rattle.wk_wiki_rules.specs.States.{State};
ghost use Rattle.wk_wiki_rules.specs.Events.{Save, step_by, with_saved};
ghost use Rattle.wk_wiki_rules.specs.Verdicts.{verdict_in};

/// What a verdict accepts is possible: the title is normal and not virtual, and there is a text or the page exists. It is
/// the title that the edit names, and the text is the edit's as it is kept.
pub fn what_is_accepted_is_possible()
    ensures judged { (h : History) (most : MostHeld) (edit : EditAsked) (title : PageTitle) (text : Option (List ℕ))
        → judged h most edit ≡ accept title text → can_save h title text ≡ true }
    ensures verdict { (h : History) (most : MostHeld) (used : JournalUse) (edit : EditAsked) (title : PageTitle) (text : Option (List ℕ))
        → verdict h most used edit ≡ accept title text → can_save h title text ≡ true }
    ensures stepped { (served : ℕ) (most : MostHeld) (state : State) (journal moment : ℕ) (edit : EditAsked) (title : PageTitle) (text : Option (List ℕ))
        → verdict_in most state journal edit ≡ accept title text
        → step_by served state journal (Save title text moment) ≡ Some (with_saved state title text moment) }
    ensures named { (h : History) (most : MostHeld) (edit : EditAsked) (title : PageTitle) (text : Option (List ℕ))
        → judged h most edit ≡ accept title text → real_title edit.title ≡ Some title }
    ensures kept { (h : History) (most : MostHeld) (edit : EditAsked) (title : PageTitle) (text : Option (List ℕ))
        → judged h most edit ≡ accept title text → text ≡ option_map kept edit.body }
{}

/// What is kept of a text is kept again unchanged.
pub fn kept_text_is_kept_unchanged()
    ensures { (text : List ℕ) → kept (kept text) ≡ kept text }
{}

//! Journals that keep a seal.
ghost use Rattle.std.specs.Prelude.{◌≡◌, ℕ, false, List, ◌++◌, length, take, Some, Option};
ghost use Rattle.wk_wiki_rules.specs.States.{State};
ghost use Rattle.wk_wiki_rules.specs.Events.{Event};
ghost use Rattle.wk_wiki_rules.specs.Lives.{replay_by};
ghost use Rattle.wk_wiki_rules.specs.Entries.{is_save, KeepsSeal};
ghost use Rattle.std.specs.List.{list_any};

/// A journal keeps a seal at its end. A wiki that was sealed has at the end of its journal the revisions and the pages that it had at the seal.
pub fn a_sealed_wiki_keeps_its_history()
    ensures sealed { (journal : List Event) → KeepsSeal (Some (length journal)) journal }
    ensures history { (served : ℕ) (start middle last : State) (point : ℕ) (events : List Event)
        → KeepsSeal (Some point) events → replay_by served start (take point events) ≡ Some middle
        → replay_by served start events ≡ Some last → last.history ≡ middle.history }
    ensures longer { (sealed : Option ℕ) (before more : List Event)
        → KeepsSeal sealed before → list_any is_save more ≡ false → KeepsSeal sealed (before ++ more) }
{}

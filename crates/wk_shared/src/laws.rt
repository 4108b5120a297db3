//! Laws of what a pass has read, for whoever holds it over other calls. Each is the contract of a function that does nothing.
ghost use Rattle.std.specs.Prelude.{◌≡◌, ℕ, List, Some, length};
ghost use Rattle.wk_page_rules.specs.History.{text_of_revision};
ghost use Rattle.wk_view_rules.specs.Worlds.{IsHonest, Read};
ghost use Rattle.wk_wiki_rules.specs.States.{State};
ghost use Rattle.wk_wiki_rules.specs.Events.{Event};
ghost use Rattle.wk_wiki_rules.specs.Claims.{ClaimOutcome};
ghost use Rattle.wk_wiki_rules.specs.Starts.{Start};
ghost use Rattle.wk_expand.specs.Drafts.{DraftShown};
ghost use Rattle.wk_turn.specs.Told.{Begun, Story};
ghost use Rattle.wk_shared.specs.Calls.{HasSeen, HoldsDraft, state_by};

/// What was read at a point that the pass had seen is honest still in the state that it has seen last.
pub fn reads_stay_honest()
    ensures { (shared : Begun Start) (old new : Story Start Event) (told at : ℕ) (middle last : State) (reads : List Read)
        → HasSeen shared old new told → state_by shared.start new at ≡ Some middle
        → state_by shared.start new (length new.seen) ≡ Some last
        → IsHonest (text_of_revision middle.history) reads → IsHonest (text_of_revision last.history) reads }
{}

/// A draft that is fit for its ticket stays so over each call.
pub fn held_drafts_stay_fit()
    ensures { (shared : Begun Start) (old new : Story Start Event) (told : ℕ) (ticket : ClaimOutcome) (draft : DraftShown)
        → HasSeen shared old new told → HoldsDraft shared.start old ticket draft → HoldsDraft shared.start new ticket draft }
{}

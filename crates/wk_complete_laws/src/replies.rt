//! Replies of sessions.
ghost use Rattle.std.specs.Prelude.{◌≡◌, ◌≤◌, ◌⊎◌, ℕ, List, Some, false, true};
ghost use Rattle.wk_text_rules.specs.Titles.{PageTitle};
ghost use Rattle.wk_page_rules.specs.History.{page_exists};
ghost use Rattle.wk_page_rules.specs.Verdict.{real_title};
ghost use Rattle.wk_wiki_rules.specs.States.{State};
ghost use Rattle.wk_wiki_rules.specs.Passes.{PassSeen, state_seen};
ghost use Rattle.wk_wiki_rules.specs.Starts.{Start};
ghost use Rattle.wk_shared.specs.Calls.{MayFail};
ghost use Rattle.wk_request_rules.specs.Requests.{ParsedRequest, parse, valid};
ghost use Rattle.wk_answer_rules.specs.Values.{ApiReply};
ghost use Rattle.wk_session_rules.specs.Replies.{IsAnswered};
ghost use Rattle.wk_complete_laws.specs.Answered.{IsByTheRules, IsStarved, ShowsPage};
ghost use Rattle.wk_complete_laws.specs.Complete.{BeganOverAWholeStore};

/// A request of a session over a wiki that began over a whole store is answered by the rules, in a state no older than what
/// the pass had seen, with the event that they make; or memory ran out, and nothing was made. So an edit that is accepted is
/// saved, and told so.
pub fn replies_are_by_the_rules()
    ensures { (start : Start) (old new : PassSeen) (parsed : ParsedRequest) (moments : List ℕ) (reply : ApiReply) (made : List ℕ)
        → BeganOverAWholeStore start
        → IsAnswered (MayFail start) old new parsed moments reply made
        → IsByTheRules old new parsed moments reply made ⊎ IsStarved old new reply made }
{}

/// Where a page exists at the point of the reply, and the least point that is asked for is reached there, the page is shown;
/// or memory ran out. No store is in the way of it.
pub fn a_page_that_exists_is_shown()
    ensures { (start : Start) (old new : PassSeen) (least : ℕ) (page : List ℕ) (title : PageTitle) (moments : List ℕ) (reply : ApiReply) (made : List ℕ)
        → real_title page ≡ Some title → least ≤ reply.point
        → ((state : State) → state_seen new reply.point ≡ Some state → page_exists state.history title ≡ true)
        → IsAnswered (MayFail start) old new (valid (record { least = least; ask = parse page; subst = false })) moments reply made
        → ShowsPage old new title reply ⊎ IsStarved old new reply made }
{}

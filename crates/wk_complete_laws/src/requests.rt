//! Answers of a wiki to requests.
ghost use Rattle.std.specs.Prelude.{◌≡◌, ◌≤◌, ℕ, List, Some, None, false, true, length, IfOk, OnErr};
ghost use Rattle.serde_json.specs.View.{view};
ghost use Rattle.wk_text_rules.specs.Titles.{PageTitle};
ghost use Rattle.wk_page_rules.specs.History.{page_exists};
ghost use Rattle.wk_page_rules.specs.Verdict.{real_title};
ghost use Rattle.wk_core.specs.Steps.{HasMadeAtMost, HasMadeNothing};
ghost use Rattle.wk_request_rules.specs.Requests.{parse};
ghost use Rattle.wk_request.specs.Asked.{ask_of, request_asked};
ghost use Rattle.wk_answer_rules.specs.Answers.{answer_to_request, asks_to_save};
ghost use Rattle.wk_answer_rules.specs.Pages.{page_shown, parse_entries};
ghost use Rattle.wk_answer_rules.specs.Saves.{shown_at};
ghost use Rattle.wk_complete_laws.specs.Complete.{IsOverAWholeStore};

use serde_json::Value;
use wk_answer::{act, answer};
use wk_core::{Keeper, Wiki};
use wk_expand::Trees;
use wk_memory::Memory;
use wk_request::Request;

/// Does what a request asks over a whole store. What is answered is the value of the rules, and the event that they make has
/// happened, if they make one; or it is `Memory`, and nothing happened. So an edit that is accepted is saved, and told so.
pub fn requests_are_told_by_the_rules<K: Keeper>(
    wiki: &mut Wiki<K>,
    request: &Request,
    now: u64,
    trees: &mut Trees,
) -> Result<Value, Memory>
    requires unsealed { asks_to_save (ask_of request.now.ask) ≡ true → wiki.old.start.sealed ≡ None }
    requires whole { IsOverAWholeStore K.faults wiki.old }
    ensures told { IfOk result (λ v. view v
        ≡ (answer_to_request wiki.old.start.limits wiki.old.state (length wiki.old.journal) now (request_asked request.now)).reply.value) }
    ensures event { IfOk result (λ _. HasMadeAtMost K.told wiki.old wiki.new
        (answer_to_request wiki.old.start.limits wiki.old.state (length wiki.old.journal) now (request_asked request.now)).event) }
    ensures memory { OnErr result (HasMadeNothing K.told wiki.old wiki.new) }
    ensures whole { IsOverAWholeStore K.faults wiki.new }
{
    act(wiki, request, now, trees)
}

/// What is told of a page. Where it exists, and the least point that is asked for is reached, it is shown as it is now; or
/// memory runs out.
pub fn a_page_is_told<K: Keeper>(
    wiki: &Wiki<K>,
    request: &Request,
    trees: &mut Trees,
) -> Result<Value, Memory>
    requires { asks_to_save (ask_of request.now.ask) ≡ false }
    ensures { (page : List ℕ) (title : PageTitle)
        → ask_of request.now.ask ≡ parse page → real_title page ≡ Some title → page_exists wiki.now.state.history title ≡ true
        → request.now.least ≤ length wiki.now.journal
        → IfOk result (λ v. view v ≡ (shown_at (length wiki.now.journal) (parse_entries (page_shown wiki.now.state title))).reply.value) }
{
    answer(wiki, request, trees)
}

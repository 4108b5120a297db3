//! Runs that meet the premises of the laws: a page is saved, refreshed and deleted, alone and under the turn, and told of; and the
//! replies of a session to an edit that is saved and to a request for the page.
ghost use Rattle.std.specs.Prelude.{◌≡◌, ◌≤◌, ◌∷◌, [], true, false, codes, length, Some, None};
ghost use Rattle.serde_json.specs.Written.{compact_text};
ghost use Rattle.atomic_table.specs.Seated.{TableId};
ghost use Rattle.wk_page_rules.specs.History.{page_exists};
ghost use Rattle.wk_page_rules.specs.Verdict.{accept, real_title};
ghost use Rattle.wk_wiki_rules.specs.States.{State, world_of};
ghost use Rattle.wk_wiki_rules.specs.Events.{Claim, Done};
ghost use Rattle.wk_wiki_rules.specs.Passes.{state_seen};
ghost use Rattle.wk_wiki_rules.specs.SaveOutcomes.{deletion};
ghost use Rattle.wk_request_rules.specs.Requests.{edit, parse};
ghost use Rattle.wk_answer_rules.specs.Answers.{answer_to_request, asks_to_save};
ghost use Rattle.wk_life_laws.specs.Lives.{IsLife};
ghost use Rattle.wk_life_laws.specs.Runs.{IsRun};
ghost use Rattle.wk_core.specs.Seen.{verdict_now};
ghost use Rattle.wk_core.specs.Steps.{HasMade};
ghost use Rattle.wk_core.specs.Tickets.{IsDraftFor, IsOut};
ghost use Rattle.wk_shared.specs.Calls.{HoldsDraft, HoldsTicket, IsFree, MayFail};
ghost use Rattle.wk_session_rules.specs.Replies.{IsAnswered};
ghost use Rattle.wk_complete_laws.specs.Complete.{AreCurrent, BeganOverAWholeStore, IsOverAWholeStore};
ghost use Rattle.wk_complete_laws.specs.Example.{claimed_a, claimed_life, delete_a, deleted_life, draft_a, edit_asked_of_a, edit_of_a, empty_life, never_failed, parse_of_a, pass_before, pass_claimed, pass_refreshed, refreshed_a, refreshed_life, reply_to_edit, reply_to_parse, save_a, saved_life, seen_before, seen_behind, shared_by, ticket_a, title_a, whole_start, wiki_of};

// ---- calls of a wiki

/// A page is saved in an empty wiki, whose journal isn't sealed: what `granted_edits_are_saved` asks, and the edit is accepted.
pub fn an_edit_that_is_granted()
    ensures kept { IsLife empty_life }
    ensures unsealed { (wiki_of empty_life).start.sealed ≡ None }
    ensures whole { IsOverAWholeStore never_failed (wiki_of empty_life) }
    ensures granted { verdict_now (wiki_of empty_life) edit_asked_of_a ≡ accept title_a (Some (codes "x")) }
    ensures made { HasMade (wiki_of empty_life) (wiki_of saved_life) save_a }
{}

/// The ticket of its refresh is out, and the draft is fit for it: what `current_reads_are_finished` asks, and each read is current.
pub fn a_refresh_that_is_current()
    ensures kept { IsLife claimed_life }
    ensures claimed { HasMade (wiki_of saved_life) (wiki_of claimed_life) Claim }
    ensures out { IsOut (wiki_of claimed_life).state ticket_a }
    ensures draft { IsDraftFor (wiki_of claimed_life).state ticket_a draft_a }
    ensures whole { IsOverAWholeStore never_failed (wiki_of claimed_life) }
    ensures current { AreCurrent (world_of (wiki_of claimed_life).state) draft_a.reads }
    ensures made { HasMade (wiki_of claimed_life) (wiki_of refreshed_life) (Done 2) }
{}

/// The page is deleted behind it: what `granted_deletions_are_made` asks, and the deletion is accepted.
pub fn a_deletion_that_is_granted()
    ensures kept { IsLife refreshed_life }
    ensures unsealed { (wiki_of refreshed_life).start.sealed ≡ None }
    ensures whole { IsOverAWholeStore never_failed (wiki_of refreshed_life) }
    ensures granted { verdict_now (wiki_of refreshed_life) (deletion (codes "A") (Some 1)) ≡ accept title_a None }
    ensures made { HasMade (wiki_of refreshed_life) (wiki_of deleted_life) delete_a }
    ensures kept_behind { IsLife deleted_life }
{}

// ---- requests

/// The same edit as a request: what `requests_are_told_by_the_rules` asks, and the rules make the save of it.
pub fn a_request_that_saves()
    ensures unsealed { asks_to_save (edit edit_asked_of_a) ≡ true → (wiki_of empty_life).start.sealed ≡ None }
    ensures whole { IsOverAWholeStore never_failed (wiki_of empty_life) }
    ensures event { (answer_to_request (wiki_of empty_life).start.limits (wiki_of empty_life).state 0 11 (record { least = 0; ask = edit edit_asked_of_a; subst = false })).event ≡ Some save_a }
{}

/// A request for the page behind the save: what `a_page_is_told` asks.
pub fn a_request_that_reads()
    ensures kept { IsLife saved_life }
    ensures reads { asks_to_save (parse (codes "A")) ≡ false }
    ensures named { real_title (codes "A") ≡ Some title_a }
    ensures there { page_exists (wiki_of saved_life).state.history title_a ≡ true }
    ensures reached { 1 ≤ length (wiki_of saved_life).journal }
{}

// ---- calls under the turn, by one pass

/// The edit under the turn: what `granted_edits_are_saved_in_turn` asks.
pub fn an_edit_that_is_granted_in_turn()
    ensures run { IsRun whole_start [] (wiki_of empty_life).state }
    ensures free { (turn : TableId) → IsFree (shared_by turn) (pass_before turn) }
    ensures unsealed { whole_start.sealed ≡ None }
    ensures whole { BeganOverAWholeStore whole_start }
{}

/// The refresh under the turn: what `current_reads_are_finished_in_turn` asks.
pub fn a_refresh_that_is_current_in_turn()
    ensures run { IsRun whole_start (save_a ∷ Claim ∷ []) claimed_a }
    ensures free { (turn : TableId) → IsFree (shared_by turn) (pass_claimed turn) }
    ensures ticket { (turn : TableId) → HoldsTicket whole_start (pass_claimed turn) ticket_a }
    ensures draft { (turn : TableId) → HoldsDraft whole_start (pass_claimed turn) ticket_a draft_a }
    ensures whole { BeganOverAWholeStore whole_start }
{}

/// The deletion under the turn: what `granted_deletions_are_made_in_turn` asks.
pub fn a_deletion_that_is_granted_in_turn()
    ensures run { IsRun whole_start (save_a ∷ Claim ∷ Done 2 ∷ []) refreshed_a }
    ensures free { (turn : TableId) → IsFree (shared_by turn) (pass_refreshed turn) }
    ensures unsealed { whole_start.sealed ≡ None }
    ensures whole { BeganOverAWholeStore whole_start }
{}

// ---- replies of a session

/// A page is saved, in a wiki that began over a store that never fails.
pub fn an_edit_that_is_answered()
    ensures began { BeganOverAWholeStore whole_start }
    ensures answered { IsAnswered (MayFail whole_start) seen_before seen_behind edit_of_a (11 ∷ []) reply_to_edit (0 ∷ []) }
    ensures told { compact_text reply_to_edit.value ≡ codes "{\"edit\":{\"new\":true,\"newrevid\":1,\"oldrevid\":0,\"pageid\":1,\"result\":\"Success\",\"title\":\"A\"},\"point\":1}" }
{}

/// It is shown to a request with the least point 1.
pub fn a_parse_that_is_answered()
    ensures named { real_title (codes "A") ≡ Some title_a }
    ensures reached { 1 ≤ reply_to_parse.point }
    ensures there { (state : State) → state_seen seen_behind reply_to_parse.point ≡ Some state → page_exists state.history title_a ≡ true }
    ensures answered { IsAnswered (MayFail whole_start) seen_behind seen_behind parse_of_a [] reply_to_parse [] }
    ensures told { compact_text reply_to_parse.value ≡ codes "{\"parse\":{\"categories\":[],\"expanded\":\"x\",\"links\":[],\"pageid\":1,\"revid\":1,\"templates\":[],\"title\":\"A\"},\"point\":1}" }
{}

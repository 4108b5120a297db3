//! Laws of answers, and of the replies to requests and to the lines of a script: what is known of each, whatever it tells.
//! Each is the contract of a function with an empty body.
#![tactic(auto)]

ghost use Rattle.std.specs.Prelude.{◌≡◌, ℕ, ◌+◌, nat_lt, true, false, List, length, IsSome, Option, Some, None, option_map};
ghost use Rattle.std.specs.Option.{option_to_list};
ghost use Rattle.wk_text_rules.specs.Titles.{PageTitle};
ghost use Rattle.wk_page_rules.specs.History.{current_text};
ghost use Rattle.wk_page_rules.specs.Kept.{kept};
ghost use Rattle.wk_page_rules.specs.Verdict.{EditAsked, MostHeld, body_bytes, max_text, real_title, is_same_text};
ghost use Rattle.wk_wiki_rules.specs.States.{State};
ghost use Rattle.wk_wiki_rules.specs.Events.{Event, Save, step};
ghost use Rattle.wk_wiki_rules.specs.Soundness.{IsSound};
ghost use Rattle.wk_wiki_rules.specs.Verdicts.{verdict_in};
ghost use Rattle.wk_wiki_laws.specs.WellFormed.{IsWellFormed};
ghost use Rattle.wk_wiki_rules.specs.Calls.{IsMade};
ghost use Rattle.wk_wiki_rules.specs.SaveOutcomes.{SaveOutcome};
ghost use Rattle.wk_request_rules.specs.Requests.{Request, ParsedRequest, text_to_transform};
ghost use Rattle.wk_answer_rules.specs.Values.{Entries, ApiReply};
ghost use Rattle.wk_answer_rules.specs.ApiErrors.{ApiError, contenttoobig, futurepoint, invalidtitle};
ghost use Rattle.wk_answer_rules.specs.Saves.{edit_answer, failed_at, save_answer, subst_answer};
ghost use Rattle.wk_answer_rules.specs.Transforms.{transformed_edit};
ghost use Rattle.wk_answer_rules.specs.Answers.{asks_to_save, answer_to_parsed, answer_to_request};
ghost use Rattle.wk_answer_laws.specs.Orders.{first_error, errors_of_an_edit, errors_of_a_change};
ghost use Rattle.wk_answer_laws.specs.Substituted.{IsSubstitutedSave};
ghost use Rattle.serde_json.specs.Written.{has_float};
ghost use Rattle.wk_script_rules.specs.ScriptLines.{ScriptLine};
ghost use Rattle.wk_script_rules.specs.WikiScripts.{WikiScript, point_of};
ghost use Rattle.wk_script_rules.specs.Runs.{HasNoFailure, LineRun};
ghost use Rattle.wk_script_rules.specs.Steps.{line_step};

/// A request that asks for no save makes no event.
pub fn reads_make_no_event()
    ensures { (most : MostHeld) (state : State) (journal moment : ℕ) (request : Request)
        → asks_to_save request.ask ≡ false → (answer_to_request most state journal moment request).event ≡ None }
{}

/// The point of a reply is the journal's length, and one more where the request makes an event.
pub fn points_count_the_event()
    ensures { (most : MostHeld) (state : State) (journal moment : ℕ) (read : ParsedRequest)
        → (answer_to_parsed most state journal moment read).reply.point
        ≡ journal + length (option_to_list (answer_to_parsed most state journal moment read).event) }
{}

/// The event that a request makes is possible, and the state behind it is sound where the state before it was. It is one
/// that a call makes.
pub fn events_are_possible()
    ensures possible { (most : MostHeld) (state : State) (journal moment : ℕ) (read : ParsedRequest) (event : Event)
        → (answer_to_parsed most state journal moment read).event ≡ Some event → IsSome (step state journal event) }
    ensures sound { (most : MostHeld) (state next : State) (journal moment : ℕ) (read : ParsedRequest) (event : Event)
        → (answer_to_parsed most state journal moment read).event ≡ Some event → step state journal event ≡ Some next
        → IsWellFormed state → IsSound state → IsSound next }
    ensures made { (most : MostHeld) (state : State) (journal moment : ℕ) (read : ParsedRequest) (event : Event)
        → (answer_to_parsed most state journal moment read).event ≡ Some event → IsMade most state journal event }
{}

/// A least point that isn't reached comes before all else that is asked. Of a save, an edit or a deletion, a bad title
/// comes next; then the errors up to that of a base that isn't current, in the order of the table; then that nothing
/// changes; then the limits and the journal's room; and a save that none of them refuses is an event. Of an edit whose text is
/// transformed, a bad title and a text that is too long as it is given come before all that is said of what the text becomes.
pub fn refusals_come_in_order()
    ensures point { (most : MostHeld) (state : State) (journal moment : ℕ) (request : Request)
        → nat_lt journal request.least ≡ true
        → answer_to_request most state journal moment request ≡ failed_at journal (futurepoint journal) }
    ensures title { (entries_of : SaveOutcome → Entries) (most : MostHeld) (state : State) (journal moment : ℕ) (edit : EditAsked)
        → real_title edit.title ≡ None
        → save_answer entries_of state journal moment (verdict_in most state journal edit) ≡ failed_at journal invalidtitle }
    ensures edit { (entries_of : SaveOutcome → Entries) (most : MostHeld) (state : State) (journal moment : ℕ) (edit : EditAsked) (title : PageTitle) (error : ApiError)
        → real_title edit.title ≡ Some title → first_error (errors_of_an_edit state.history edit title) ≡ Some error
        → save_answer entries_of state journal moment (verdict_in most state journal edit) ≡ failed_at journal error }
    ensures change { (entries_of : SaveOutcome → Entries) (most : MostHeld) (state : State) (journal moment : ℕ) (edit : EditAsked) (title : PageTitle) (error : ApiError)
        → real_title edit.title ≡ Some title → first_error (errors_of_an_edit state.history edit title) ≡ None
        → is_same_text (current_text state.history title) (option_map kept edit.body) ≡ false
        → first_error (errors_of_a_change most state journal edit title) ≡ Some error
        → save_answer entries_of state journal moment (verdict_in most state journal edit) ≡ failed_at journal error }
    ensures same { (entries_of : SaveOutcome → Entries) (most : MostHeld) (state : State) (journal moment : ℕ) (edit : EditAsked) (title : PageTitle)
        → real_title edit.title ≡ Some title → first_error (errors_of_an_edit state.history edit title) ≡ None
        → is_same_text (current_text state.history title) (option_map kept edit.body) ≡ true
        → (save_answer entries_of state journal moment (verdict_in most state journal edit)).event ≡ None }
    ensures saved { (entries_of : SaveOutcome → Entries) (most : MostHeld) (state : State) (journal moment : ℕ) (edit : EditAsked) (title : PageTitle)
        → real_title edit.title ≡ Some title → first_error (errors_of_an_edit state.history edit title) ≡ None
        → is_same_text (current_text state.history title) (option_map kept edit.body) ≡ false
        → first_error (errors_of_a_change most state journal edit title) ≡ None
        → (save_answer entries_of state journal moment (verdict_in most state journal edit)).event
        ≡ Some (Save title (option_map kept edit.body) moment) }
    ensures subst_title { (most : MostHeld) (state : State) (journal moment : ℕ) (edit : EditAsked)
        → real_title edit.title ≡ None
        → subst_answer most state journal moment edit ≡ failed_at journal invalidtitle }
    ensures subst_size { (most : MostHeld) (state : State) (journal moment : ℕ) (edit : EditAsked) (title : PageTitle)
        → real_title edit.title ≡ Some title → nat_lt max_text (body_bytes edit.body) ≡ true
        → subst_answer most state journal moment edit ≡ failed_at journal contenttoobig }
    ensures subst_judged { (most : MostHeld) (state : State) (journal moment : ℕ) (edit : EditAsked) (title : PageTitle)
        → real_title edit.title ≡ Some title → nat_lt max_text (body_bytes edit.body) ≡ false
        → subst_answer most state journal moment edit ≡ edit_answer most state journal moment (transformed_edit state edit) }
{}

/// The event of an edit whose text is transformed is the save of the page that it names, of what its text becomes in the state
/// in which the edit is judged, as a page keeps it (MediaWiki's Help:Substitution).
pub fn a_substituted_save_has_the_transform()
    ensures { (most : MostHeld) (state : State) (journal moment : ℕ) (request : Request) (text : List ℕ) (event : Event)
        → text_to_transform request ≡ Some text
        → (answer_to_request most state journal moment request).event ≡ Some event
        → IsSubstitutedSave request.ask state text moment event }
{}

/// A request that gives no text to be transformed, as a read, a deletion or an edit without the flag, is answered as without
/// the flag `subst` (own).
pub fn nothing_else_heeds_subst()
    ensures { (most : MostHeld) (state : State) (journal moment : ℕ) (request : Request)
        → text_to_transform request ≡ None
        → answer_to_request most state journal moment request
        ≡ answer_to_request most state journal moment (record request { subst = false }) }
{}

/// No reply holds a float: so it is written as its compact text.
pub fn replies_have_no_float()
    ensures request { (most : MostHeld) (state : State) (journal moment : ℕ) (read : ParsedRequest)
        → has_float (answer_to_parsed most state journal moment read).reply.value ≡ false }
    ensures line { (most : MostHeld) (s t : WikiScript) (moment : ℕ) (line : ScriptLine) (reply : ApiReply)
        → LineRun most s moment line (Some reply) t → has_float reply.value ≡ false }
{}

/// The reply to a line shows the journal's length behind the line.
pub fn replies_show_the_point_behind_the_line()
    ensures { (most : MostHeld) (s t : WikiScript) (moment : ℕ) (line : ScriptLine) (reply : ApiReply)
        → LineRun most s moment line (Some reply) t → reply.point ≡ point_of t }
{}

/// Where nothing fails, the reply to a line tells neither of want of memory nor of a fault of the store.
pub fn steps_tell_of_no_failure()
    ensures { (most : MostHeld) (s : WikiScript) (moment : ℕ) (line : ScriptLine) (reply : ApiReply)
        → (line_step most s moment line).reply ≡ Some reply → HasNoFailure reply }
{}

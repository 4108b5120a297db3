//! Laws of sessions: what follows of the points that are shown, the entries that are made and the replies. Each is the
//! contract of a function with an empty body.
#![tactic(auto)]

ghost use Rattle.std.specs.Prelude.{◌≡◌, ℕ, ◌≤◌, ◌++◌, true, false, List, IfSome, Some, length, map};
ghost use mathlib.Core.List.{IsPrefix};
ghost use Rattle.wk_base.specs.Clock.{first_moment};
ghost use Rattle.wk_wire_rules.specs.Heads.{Message};
ghost use Rattle.wk_wire_rules.specs.Messages.{Messages, closed, bad};
ghost use Rattle.wk_wiki_rules.specs.Passes.{PassSeen};
ghost use Rattle.wk_wiki_rules.specs.Starts.{Start};
ghost use Rattle.wk_shared.specs.Calls.{MayFail};
ghost use Rattle.wk_request_rules.specs.Requests.{Request, parse, text_to_transform, valid};
ghost use Rattle.wk_answer_rules.specs.Values.{ApiReply};
ghost use Rattle.wk_http.specs.declared.report.Refresh.{Refresh};
ghost use Rattle.wk_http.specs.declared.report.SessionEnd.{SessionEnd};
ghost use Rattle.wk_session_rules.specs.Points.{GoesOn};
ghost use Rattle.wk_session_rules.specs.Replies.{IsAnswered, IsReplyTo, Reply, asked};
ghost use Rattle.wk_session_rules.specs.Steps.{IsStep};
ghost use Rattle.wk_session_rules.specs.Exchanges.{Exchange, Exchanges, IsExchange, made_by};
ghost use Rattle.wk_session_rules.specs.Sessions.{IsSession, Outside};
ghost use Rattle.wk_session_laws.specs.Told.{AreEntries, AreTransformed, IsParsedOrStarved, NeverFall};

/// The points of the replies don't fall, and the first is no less than what the pass had seen; so with the points behind the
/// refresh steps, none of which is below the point of its reply.
pub fn points_never_fall()
    ensures replies { (start : Start) (old new : PassSeen) (before after : Outside) (end : SessionEnd) (points : List ℕ) (jobs : ℕ) (refreshes : List (ℕ × Refresh))
        → IsSession (MayFail start) old new before after end points jobs refreshes → NeverFall (length old.journal) points }
    ensures steps { (start : Start) (old new : PassSeen) (before after : Outside) (end : SessionEnd) (points : List ℕ) (jobs : ℕ) (refreshes : List (ℕ × Refresh))
        → IsSession (MayFail start) old new before after end points jobs refreshes → NeverFall (length old.journal) (map (λ r. r.0) refreshes) }
    ensures behind { (start : Start) (old new : PassSeen) (exchange : Exchange)
        → IsExchange (MayFail start) old new exchange → IfSome exchange.reply.point (λ point. point ≤ exchange.point) }
{}

/// What is answered at a point stays right, whatever else the pass sees.
pub fn answers_stay_right()
    ensures { (start : Start) (old new later : PassSeen) (message : Message) (moments : List ℕ) (reply : Reply) (made : List ℕ)
        → later.start ≡ new.start → IsPrefix new.journal later.journal
        → IsReplyTo (MayFail start) old new message moments reply made → IsReplyTo (MayFail start) old later message moments reply made }
{}

/// The pass's own entries are those of the messages and of their refresh steps, in order. With a message one save is made at
/// most, and nothing else; with a refresh step no save.
pub fn entries_are_of_messages_and_steps()
    ensures own { (start : Start) (old new : PassSeen) (exchanges : List Exchange)
        → Exchanges (MayFail start) old exchanges new → GoesOn old new (made_by exchanges) }
    ensures one { (start : Start) (old new : PassSeen) (message : Message) (moments : List ℕ) (reply : Reply) (made : List ℕ)
        → IsReplyTo (MayFail start) old new message moments reply made → length made ≤ 1 }
    ensures saves { (start : Start) (old new : PassSeen) (message : Message) (moments : List ℕ) (reply : Reply) (made : List ℕ)
        → IsReplyTo (MayFail start) old new message moments reply made → AreEntries new true made }
    ensures steps { (start : Start) (old new : PassSeen) (refresh : Refresh) (made : List ℕ)
        → IsStep (MayFail start) old new refresh made → AreEntries new false made }
{}

/// A page is parsed in the state at the point that is shown, no older than what the pass had seen, or memory was wanting, where
/// the pass had seen the least point, and wherever the point that is shown isn't below it: so a page that exists there is
/// answered.
pub fn a_parse_is_answered()
    ensures seen { (start : Start) (old new : PassSeen) (least : ℕ) (page : List ℕ) (moments : List ℕ) (reply : ApiReply) (made : List ℕ)
        → least ≤ length old.journal
        → IsAnswered (MayFail start) old new (valid (record { least = least; ask = parse page; subst = false })) moments reply made
        → IsParsedOrStarved new (length old.journal) page reply }
    ensures reached { (start : Start) (old new : PassSeen) (least : ℕ) (page : List ℕ) (moments : List ℕ) (reply : ApiReply) (made : List ℕ)
        → least ≤ reply.point
        → IsAnswered (MayFail start) old new (valid (record { least = least; ask = parse page; subst = false })) moments reply made
        → IsParsedOrStarved new (length old.journal) page reply }
{}

/// The text that a session stores for an edit with the flag `subst` is what the edit's text becomes in the state at the point
/// before its event (MediaWiki's Help:Substitution), as a page keeps it: also where it was transformed without the turn, while
/// others saved. The entry that was made with the reply is the save of that text, on the page that the edit names.
pub fn a_substituted_save_on_a_connection()
    ensures answered { (start : Start) (old new : PassSeen) (request : Request) (text : List ℕ) (moments : List ℕ) (reply : ApiReply) (made : List ℕ)
        → text_to_transform request ≡ Some text
        → IsAnswered (MayFail start) old new (valid request) moments reply made
        → AreTransformed new request.ask text (first_moment moments) made }
    ensures replied { (start : Start) (old new : PassSeen) (message : Message) (request : Request) (text : List ℕ) (moments : List ℕ) (reply : Reply) (made : List ℕ)
        → asked message ≡ valid request → text_to_transform request ≡ Some text
        → IsReplyTo (MayFail start) old new message moments reply made
        → AreTransformed new request.ask text (first_moment moments) made }
{}

/// What ends a session of itself, a message that is the last or a bad place, ends the whole stream, whatever comes behind it.
pub fn ends_are_those_of_the_stream()
    ensures closed { (read more : List ℕ) (messages : List Message) → Messages read messages closed → Messages (read ++ more) messages closed }
    ensures bad { (read more : List ℕ) (messages : List Message) (status : ℕ) → Messages read messages (bad status) → Messages (read ++ more) messages (bad status) }
{}

//! Laws of replicas. Each is the contract of a function with an empty body.
ghost use Rattle.std.specs.Prelude.{◌≡◌, ℕ, ◌+◌, ◌≤◌, false, List, [], ◌∷◌, ◌++◌, length, take, None, Some};
ghost use Rattle.std.specs.List.{AllByRecursion};
ghost use Rattle.wk_page_rules.specs.Verdict.{full_limits};
ghost use Rattle.wk_wiki_rules.specs.Calls.{CallsMake};
ghost use Rattle.wk_wiki_rules.specs.Events.{Event};
ghost use Rattle.wk_wiki_rules.specs.Lives.{state_at};
ghost use Rattle.wk_wiki_rules.specs.States.{State};
ghost use Rattle.wk_wiki_rules.specs.Steps.{fan_pages};
ghost use Rattle.wk_request_rules.specs.Requests.{Request, asks_to_save};
ghost use Rattle.wk_answer_rules.specs.Answers.{answer_to_request};
ghost use Rattle.wk_feed_rules.specs.Feeds.{feed_of, start_lines};
ghost use Rattle.wk_feed_rules.specs.Taking.{FeedSoFar, bad_line, fed, taken, told};
ghost use Rattle.wk_feed_laws.specs.Fits.{CanStart, MomentFits};
ghost use Rattle.wk_replica.specs.Answers.{replica_reply};
ghost use Rattle.wk_replica.specs.Points.{HasTakenLines, IsAt};
ghost use Rattle.wk_replica.specs.Replicas.{ReplicaSeen, so_far};

/// What lines tell is told by one after the other: a line that is taken is one more, and behind the first that isn't taken the rest
/// counts for nothing. So a replica tells what the lines tell that it has taken.
pub fn lines_are_taken_in_order()
    ensures more { (lines : List (List ℕ)) (line : List ℕ) (told_so_far next : FeedSoFar)
        → fed lines ≡ told told_so_far → taken told_so_far line ≡ Some next → fed (lines ++ line ∷ []) ≡ told next }
    ensures bad { (lines more : List (List ℕ)) (line : List ℕ) (told_so_far : FeedSoFar)
        → fed lines ≡ told told_so_far → taken told_so_far line ≡ None → fed (lines ++ line ∷ more) ≡ bad_line (length lines + 1) }
    ensures replica { (lines : List (List ℕ)) (replica : ReplicaSeen) → HasTakenLines lines replica → fed lines ≡ told (so_far replica) }
{}

/// A replica that has taken the first lines of the feed of a start and of events, those of the start and so many events, is what the
/// wiki was behind so many events.
pub fn a_replica_is_at_a_point_of_its_feed()
    ensures { (from last : State) (events : List Event) (point : ℕ) (replica : ReplicaSeen)
        → CanStart from → CallsMake fan_pages full_limits from events last → AllByRecursion MomentFits events
        → HasTakenLines (take (length (start_lines from) + point) (feed_of from events)) replica
        → IsAt from events point replica }
{}

/// There it answers what is read as the wiki did at that point.
pub fn a_replica_answers_as_its_wiki()
    ensures { (from state : State) (events : List Event) (point moment : ℕ) (replica : ReplicaSeen) (request : Request)
        → IsAt from events point replica → point ≤ length events → state_at from events point ≡ Some state
        → asks_to_save request.ask ≡ false
        → replica_reply replica.state (length replica.journal) moment request ≡ (answer_to_request full_limits state point moment request).reply }
{}

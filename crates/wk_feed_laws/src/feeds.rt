//! What the lines of a feed tell.
ghost use Rattle.std.specs.Prelude.{◌≡◌, ℕ, ◌+◌, ◌≤◌, List, length, take, Some};
ghost use Rattle.std.specs.List.{AllByRecursion};
ghost use Rattle.wk_page_rules.specs.Verdict.{full_limits};
ghost use Rattle.wk_table_rules.specs.Rows.{StoreTables};
ghost use Rattle.wk_table_rules.specs.GoodStore.{IsGood};
ghost use Rattle.wk_wiki_rules.specs.Calls.{CallsMake};
ghost use Rattle.wk_wiki_rules.specs.Events.{Event};
ghost use Rattle.wk_wiki_rules.specs.Lives.{opened, reopened, state_at};
ghost use Rattle.wk_wiki_rules.specs.States.{State, no_state};
ghost use Rattle.wk_wiki_rules.specs.Steps.{fan_pages};
ghost use Rattle.wk_wiki_rules.specs.Tables.{tables_of};
ghost use Rattle.wk_wiki_laws.specs.Kept.{IsKept};
ghost use Rattle.wk_feed_rules.specs.Feeds.{feed_of, rows_of_tables, start_lines};
ghost use Rattle.wk_feed_rules.specs.Lines.{bytes_of_lines, lines_in};
ghost use Rattle.wk_feed_rules.specs.Taking.{FeedRun, fed, loading, running, told};
ghost use Rattle.wk_feed_laws.specs.Fits.{CanStart, HasNumbers, MomentFits, WasMade};

/// A feed can begin with an empty wiki, with one that is opened over good tables, and with one that a restart has opened anew, where the
/// moments and the number of its revisions have 64 bits.
pub fn starts_of_feeds()
    ensures none { CanStart no_state }
    ensures opened { (tables : StoreTables) → IsGood tables → HasNumbers (opened tables) → CanStart (opened tables) }
    ensures reopened { (state : State) → IsKept state → HasNumbers (reopened state) → CanStart (reopened state) }
{}

/// The lines of a feed tell the start, the events and the state behind them, for all events that calls with full limits make from the
/// start.
pub fn a_feed_tells_what_it_is_made_of()
    ensures { (from last : State) (events : List Event)
        → CanStart from → CallsMake fan_pages full_limits from events last → AllByRecursion MomentFits events
        → fed (feed_of from events) ≡ told (running (record { from = from; events = events; state = last })) }
{}

/// The first so many lines of a feed tell the first rows; and those behind the start tell the first events, and the state at this point
/// of the journal.
pub fn first_lines_tell_first_events()
    ensures rows { (from : State) (events : List Event) (count : ℕ)
        → CanStart from → count ≤ length (rows_of_tables (tables_of from))
        → fed (take count (feed_of from events)) ≡ told (loading (take count (rows_of_tables (tables_of from)))) }
    ensures events { (from last : State) (events : List Event) (count : ℕ)
        → CanStart from → CallsMake fan_pages full_limits from events last → AllByRecursion MomentFits events
        → (state : State) × (state_at from events count ≡ Some state)
        × (fed (take (length (start_lines from) + count) (feed_of from events)) ≡ told (running (record { from = from; events = take count events; state = state }))) }
{}

/// What lines tell, whichever they are, is a wiki that was opened over good tables of the newest version, and events that calls with full
/// limits make from there.
pub fn what_is_told_can_be_made()
    ensures { (lines : List (List ℕ)) (run : FeedRun) → fed lines ≡ told (running run) → WasMade run }
{}

/// The lines of a feed are cut again from its bytes; and where the bytes are cut anywhere, the first so many lines are left.
pub fn cut_bytes_have_first_lines()
    ensures whole { (from last : State) (events : List Event)
        → CanStart from → CallsMake fan_pages full_limits from events last → AllByRecursion MomentFits events
        → lines_in (bytes_of_lines (feed_of from events)) ≡ feed_of from events }
    ensures cut { (from last : State) (events : List Event) (bytes : ℕ)
        → CanStart from → CallsMake fan_pages full_limits from events last → AllByRecursion MomentFits events
        → (count : ℕ) × (lines_in (take bytes (bytes_of_lines (feed_of from events))) ≡ take count (feed_of from events)) }
{}

//! Worked examples of feeds, as theorems: each is computed from the definition.
//! Nothing stands on this crate, and nothing here runs.
#![tactic(auto)]

ghost use Rattle.std.specs.Prelude.{◌≡◌, pos, true, codes, [], ◌∷◌, ◌++◌, None, Some};
ghost use Rattle.wk_page_rules.specs.Verdict.{full_limits};
ghost use Rattle.wk_wiki_rules.specs.Steps.{fan_pages};
ghost use Rattle.wk_wiki_rules.specs.Calls.{CallsMake};
ghost use Rattle.wk_wiki_rules.specs.Events.{Claim, Fan, Save};
ghost use Rattle.wk_wiki_rules.specs.States.{no_state};
ghost use Rattle.wk_feed_rules.specs.Lines.{bytes_of_lines, claim, done, fan, line_text, lines_in, of_revision, of_site, row, save};
ghost use Rattle.wk_feed_rules.specs.Reading.{said};
ghost use Rattle.wk_feed_rules.specs.Feeds.{event_line, feed_of};
ghost use Rattle.wk_feed_rules.specs.Taking.{bad_line, event_of_line, fed, loading, running, told};
ghost use Rattle.wk_feed_examples.specs.Wikis.{claimed, claimed_events, deleted, deleted_events, empty_run, page_a, refreshed, refreshed_events, stored, stored_claimed};

/// A is saved in an empty wiki at moment 7 and refreshed: the feed has the version, the start, and a line for each event; and these
/// lines tell the start, the events and the state.
pub fn a_save_and_its_refresh()
    ensures lines { feed_of no_state refreshed_events ≡ codes "[\"site\",\"version\",\"2\"]" ∷ codes "[\"start\"]" ∷ codes "[\"save\",\"A\",\"x\",7]" ∷ codes "[\"claim\"]" ∷ codes "[\"done\",2]" ∷ [] }
    ensures bytes { bytes_of_lines (feed_of no_state refreshed_events) ≡ codes "[\"site\",\"version\",\"2\"]\n[\"start\"]\n[\"save\",\"A\",\"x\",7]\n[\"claim\"]\n[\"done\",2]\n" }
    ensures cut_again { lines_in (codes "[\"site\",\"version\",\"2\"]\n[\"start\"]\n[\"save\",\"A\",\"x\",7]\n[\"claim\"]\n[\"done\",2]\n") ≡ feed_of no_state refreshed_events }
    ensures told { fed (feed_of no_state refreshed_events) ≡ told (running (record { from = no_state; events = refreshed_events; state = refreshed })) }
    ensures calls { CallsMake fan_pages full_limits no_state refreshed_events refreshed }
{}

/// The same feed, cut within its last line, tells the first two events: a rest without a newline is no line.
pub fn a_cut_feed()
    ensures newline { fed (lines_in (codes "[\"site\",\"version\",\"2\"]\n[\"start\"]\n[\"save\",\"A\",\"x\",7]\n[\"claim\"]\n[\"done\",2]")) ≡ told (running (record { from = no_state; events = claimed_events; state = claimed })) }
    ensures within { fed (lines_in (codes "[\"site\",\"version\",\"2\"]\n[\"start\"]\n[\"save\",\"A\",\"x\",7]\n[\"claim\"]\n[\"done\"")) ≡ told (running (record { from = no_state; events = claimed_events; state = claimed })) }
    ensures start { fed (lines_in (codes "[\"site\",\"version\",\"2\"]\n[\"start\"]")) ≡ told (loading (of_site (codes "2") ∷ [])) }
    ensures nothing { fed [] ≡ told (loading []) }
{}

/// Where no job is queued, a claim is a bad line: here the third.
pub fn a_claim_without_a_job()
    ensures empty { fed (lines_in (codes "[\"site\",\"version\",\"2\"]\n[\"start\"]\n[\"claim\"]\n")) ≡ bad_line 3 }
    ensures taken { fed (lines_in (codes "[\"site\",\"version\",\"2\"]\n[\"start\"]\n[\"save\",\"A\",\"x\",7]\n[\"claim\"]\n[\"claim\"]\n")) ≡ bad_line 5 }
{}

/// A page that links to B, with a job of number 4: its rows come table by table, and are read as the same tables. Behind the start
/// the job is claimed.
pub fn a_start_with_rows()
    ensures lines { feed_of stored [] ≡ codes "[\"page\",1,0,\"A\",1,1]" ∷ codes "[\"revision\",1,1,0,7,1,0,\"x\"]" ∷ codes "[\"pagelinks\",1,0,0,\"B\"]" ∷ codes "[\"job\",4,\"refreshLinks\",0,\"A\",\"\"]" ∷ codes "[\"site\",\"version\",\"2\"]" ∷ codes "[\"start\"]" ∷ [] }
    ensures told { fed (feed_of stored []) ≡ told (running (record { from = stored; events = []; state = stored })) }
    ensures claim { fed (lines_in (codes "[\"page\",1,0,\"A\",1,1]\n[\"revision\",1,1,0,7,1,0,\"x\"]\n[\"pagelinks\",1,0,0,\"B\"]\n[\"job\",4,\"refreshLinks\",0,\"A\",\"\"]\n[\"site\",\"version\",\"2\"]\n[\"start\"]\n") ++ codes "[\"claim\"]" ∷ []) ≡ told (running (record { from = stored; events = Claim ∷ []; state = stored_claimed })) }
{}

/// A deletion has null in the place of a text, a page with an empty text has an empty text.
pub fn deletions_and_empty_texts()
    ensures deletion { event_line (Save page_a None 8) ≡ save (codes "A") None 8 }
    ensures null { line_text (save (codes "A") None 8) ≡ codes "[\"save\",\"A\",null,8]" }
    ensures empty { line_text (save (codes "A") (Some []) 8) ≡ codes "[\"save\",\"A\",\"\",8]" }
    ensures null_said { said (codes "[\"save\",\"A\",null,8]") ≡ Some (save (codes "A") None 8) }
    ensures told { fed (feed_of no_state deleted_events) ≡ told (running (record { from = no_state; events = deleted_events; state = deleted })) }
    ensures gone_row { line_text (row (of_revision (record { rev_id = 2; rev_page = 1; rev_parent_id = 1; rev_timestamp = 8; rev_len = 0; rev_gone = true; rev_text = [] }))) ≡ codes "[\"revision\",2,1,1,8,0,1,\"\"]" }
{}

/// Titles are shown, with their namespace and with spaces, and texts have the escapes of compact JSON.
pub fn shown_titles_and_escapes()
    ensures template { line_text (event_line (Save (record { ns = pos 10; key = codes "A_b" }) (Some (codes "x\ny")) 7)) ≡ codes "[\"save\",\"Template:A b\",\"x\\ny\",7]" }
    ensures quoted { line_text (save (codes "A") (Some (codes "\"\\")) 7) ≡ codes "[\"save\",\"A\",\"\\\"\\\\\",7]" }
    ensures said_again { said (codes "[\"save\",\"A\",\"\\\"\\\\\\t\",7]") ≡ Some (save (codes "A") (Some (codes "\"\\\t")) 7) }
{}

/// A line is bad that is no JSON, no array or of no form that is known.
pub fn unknown_lines()
    ensures empty { said (codes "") ≡ None }
    ensures cut { said (codes "[") ≡ None }
    ensures an_object { said (codes "{\"start\":1}") ≡ None }
    ensures a_text { said (codes "\"start\"") ≡ None }
    ensures no_value { said (codes "[]") ≡ None }
    ensures no_name { said (codes "[7]") ≡ None }
    ensures unknown { said (codes "[\"stop\"]") ≡ None }
    ensures too_many { said (codes "[\"start\",1]") ≡ None }
    ensures too_few { said (codes "[\"done\"]") ≡ None }
    ensures first_line { fed (lines_in (codes "\n[\"site\",\"version\",\"2\"]\n[\"start\"]\n")) ≡ bad_line 1 }
{}

/// A line is bad that isn't byte for byte compact JSON.
pub fn lines_that_are_not_compact()
    ensures before { said (codes " [\"start\"]") ≡ None }
    ensures behind { said (codes "[\"start\"] ") ≡ None }
    ensures between { said (codes "[\"done\", 2]") ≡ None }
    ensures carriage_return { said (codes "[\"start\"]\r") ≡ None }
    ensures escaped { said (codes "[\"\\u0073tart\"]") ≡ None }
    ensures whole_float { said (codes "[\"done\",2.0]") ≡ None }
    ensures power { said (codes "[\"done\",2e0]") ≡ None }
{}

/// A line is bad whose values are of other kinds than its columns.
pub fn values_of_other_kinds()
    ensures version { said (codes "[\"site\",\"version\",2]") ≡ None }
    ensures other_key { said (codes "[\"site\",\"other\",\"2\"]") ≡ None }
    ensures text { said (codes "[\"done\",\"2\"]") ≡ None }
    ensures negative { said (codes "[\"done\",-2]") ≡ None }
    ensures too_great { said (codes "[\"done\",18446744073709551616]") ≡ None }
    ensures two { said (codes "[\"revision\",1,1,0,7,1,2,\"x\"]") ≡ None }
    ensures boolean { said (codes "[\"revision\",1,1,0,7,1,false,\"x\"]") ≡ None }
    ensures no_title { said (codes "[\"save\",null,\"x\",7]") ≡ None }
    ensures greatest { said (codes "[\"done\",18446744073709551615]") ≡ Some (done 18446744073709551615) }
{}

/// One carriage return before a newline goes, and a second one is bad.
pub fn carriage_returns()
    ensures one { fed (lines_in (codes "[\"site\",\"version\",\"2\"]\r\n[\"start\"]\r\n")) ≡ told (running empty_run) }
    ensures two { fed (lines_in (codes "[\"site\",\"version\",\"2\"]\r\r\n[\"start\"]\r\r\n")) ≡ bad_line 1 }
{}

/// A row is bad that is of an earlier table than the one before it, or doesn't rise in its own.
pub fn rows_out_of_order()
    ensures earlier_table { fed (lines_in (codes "[\"revision\",1,1,0,7,1,0,\"x\"]\n[\"page\",1,0,\"A\",1,1]\n")) ≡ bad_line 2 }
    ensures falls { fed (lines_in (codes "[\"page\",2,0,\"B\",1,1]\n[\"page\",1,0,\"A\",1,1]\n")) ≡ bad_line 2 }
    ensures twice { fed (lines_in (codes "[\"page\",1,0,\"A\",1,1]\n[\"page\",1,0,\"A\",1,1]\n")) ≡ bad_line 2 }
    ensures links { fed (lines_in (codes "[\"pagelinks\",1,0,0,\"C\"]\n[\"pagelinks\",1,0,0,\"B\"]\n")) ≡ bad_line 2 }
    ensures second_site { fed (lines_in (codes "[\"site\",\"version\",\"2\"]\n[\"site\",\"version\",\"2\"]\n")) ≡ bad_line 2 }
    ensures behind_site { fed (lines_in (codes "[\"site\",\"version\",\"2\"]\n[\"page\",1,0,\"A\",1,1]\n")) ≡ bad_line 2 }
{}

/// The start is bad where a table breaks a rule of a good store, or isn't of version 2; and each row and start behind it is bad.
pub fn bad_starts()
    ensures no_version { fed (lines_in (codes "[\"start\"]\n")) ≡ bad_line 1 }
    ensures first_version { fed (lines_in (codes "[\"site\",\"version\",\"1\"]\n[\"start\"]\n")) ≡ bad_line 2 }
    ensures third_version { fed (lines_in (codes "[\"site\",\"version\",\"3\"]\n[\"start\"]\n")) ≡ bad_line 2 }
    ensures leading_zero { fed (lines_in (codes "[\"site\",\"version\",\"02\"]\n[\"start\"]\n")) ≡ bad_line 2 }
    ensures broken_rule { fed (lines_in (codes "[\"page\",1,0,\"A\",1,1]\n[\"site\",\"version\",\"2\"]\n[\"start\"]\n")) ≡ bad_line 3 }
    ensures row_behind { fed (lines_in (codes "[\"site\",\"version\",\"2\"]\n[\"start\"]\n[\"page\",1,0,\"A\",1,1]\n")) ≡ bad_line 3 }
    ensures second { fed (lines_in (codes "[\"site\",\"version\",\"2\"]\n[\"start\"]\n[\"start\"]\n")) ≡ bad_line 3 }
    ensures save_before { fed (lines_in (codes "[\"save\",\"A\",\"x\",7]\n")) ≡ bad_line 1 }
    ensures event_before { fed (lines_in (codes "[\"site\",\"version\",\"2\"]\n[\"claim\"]\n")) ≡ bad_line 2 }
{}

/// A save is bad where the title isn't shown so, the text isn't kept so, or a plain save isn't accepted.
pub fn bad_saves()
    ensures not_capital { fed (lines_in (codes "[\"site\",\"version\",\"2\"]\n[\"start\"]\n[\"save\",\"a\",\"x\",7]\n")) ≡ bad_line 3 }
    ensures underscore { fed (lines_in (codes "[\"site\",\"version\",\"2\"]\n[\"start\"]\n[\"save\",\"A_b\",\"x\",7]\n")) ≡ bad_line 3 }
    ensures special { fed (lines_in (codes "[\"site\",\"version\",\"2\"]\n[\"start\"]\n[\"save\",\"Special:A\",\"x\",7]\n")) ≡ bad_line 3 }
    ensures no_title { fed (lines_in (codes "[\"site\",\"version\",\"2\"]\n[\"start\"]\n[\"save\",\"{\",\"x\",7]\n")) ≡ bad_line 3 }
    ensures blank_end { fed (lines_in (codes "[\"site\",\"version\",\"2\"]\n[\"start\"]\n[\"save\",\"A\",\"x \",7]\n")) ≡ bad_line 3 }
    ensures carriage_return { fed (lines_in (codes "[\"site\",\"version\",\"2\"]\n[\"start\"]\n[\"save\",\"A\",\"x\\ry\",7]\n")) ≡ bad_line 3 }
    ensures no_change { fed (lines_in (codes "[\"site\",\"version\",\"2\"]\n[\"start\"]\n[\"save\",\"A\",\"x\",7]\n[\"save\",\"A\",\"x\",8]\n")) ≡ bad_line 4 }
    ensures no_page { fed (lines_in (codes "[\"site\",\"version\",\"2\"]\n[\"start\"]\n[\"save\",\"A\",null,7]\n")) ≡ bad_line 3 }
{}

/// A ticket is bad that isn't out, and a fan where no fan job stands. The first bad line is told.
pub fn bad_tickets_and_fans()
    ensures done { fed (lines_in (codes "[\"site\",\"version\",\"2\"]\n[\"start\"]\n[\"save\",\"A\",\"x\",7]\n[\"done\",1]\n")) ≡ bad_line 4 }
    ensures twice { fed (lines_in (codes "[\"site\",\"version\",\"2\"]\n[\"start\"]\n[\"save\",\"A\",\"x\",7]\n[\"claim\"]\n[\"back\",2]\n[\"back\",2]\n")) ≡ bad_line 6 }
    ensures done_twice { fed (lines_in (codes "[\"site\",\"version\",\"2\"]\n[\"start\"]\n[\"save\",\"A\",\"x\",7]\n[\"claim\"]\n[\"done\",2]\n[\"done\",2]\n")) ≡ bad_line 6 }
    ensures fan { fed (lines_in (codes "[\"site\",\"version\",\"2\"]\n[\"start\"]\n[\"fan\"]\n")) ≡ bad_line 3 }
    ensures first { fed (lines_in (codes "[\"site\",\"version\",\"2\"]\n[\"start\"]\n[\"fan\"]\n[\n")) ≡ bad_line 3 }
{}

/// A claim wants room for two events in a journal, a save and a step of a fan job for one. Where the full limits leave less, each is a
/// bad line.
pub fn full_journals()
    ensures claim { event_of_line stored 33554431 claim ≡ None }
    ensures last_claim { event_of_line stored 33554430 claim ≡ Some Claim }
    ensures fan { event_of_line no_state 33554432 fan ≡ None }
    ensures last_fan { event_of_line no_state 33554431 fan ≡ Some Fan }
    ensures save { event_of_line no_state 33554432 (save (codes "A") (Some (codes "x")) 7) ≡ None }
    ensures last_save { event_of_line no_state 33554431 (save (codes "A") (Some (codes "x")) 7) ≡ Some (Save page_a (Some (codes "x")) 7) }
{}

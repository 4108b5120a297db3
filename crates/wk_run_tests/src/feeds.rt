//! Runs that write the feed of a wiki, and runs that take one, in which calls of the outside fail.

use crate::at_once::{PARSE_BOTH, SAVE_AND_PARSE, is_answered};
use crate::failing::told_and_heard;
use crate::given::{Given, NOTHING, case_of, parts};
use crate::stores::run_on;
use std::alloc::Global;
use std::sync::Wait;
use std::test::Fail;
use std::thread::Threads;
use wk_memory::Memory;
use wk_tables::Tables;

/// Runs of `serve --feed` over an empty store, of whose two links the first saves a page and the second asks for it. Behind the output
/// stands what their peers heard: behind a write that fails no further link is taken.
const FEEDS: &str =
    r#"wiki serve --feed --workers 1 => 0 2 1 0 "[\"site\",\"version\",\"2\"]\n[\"start\"]\n[\"save\",\"A\",\"x\",5]\n[\"claim\"]\n[\"done\",2]\n" SAVED PARSED
wiki serve --feed --workers 1 --max-connections 1 => 0 2 1 0 "[\"site\",\"version\",\"2\"]\n[\"start\"]\n[\"save\",\"A\",\"x\",5]\n[\"claim\"]\n[\"done\",2]\n" SAVED nothing
wiki serve --feed --workers 1 | vault 1 => 5 none "" nothing nothing
wiki serve --feed --workers 1 | door 1 => 6 2 0 0 "" nothing nothing
wiki serve --feed --workers 1 | door 2 => 6 2 0 0 "[\"site\",\"version\",\"2\"]\n[\"start\"]\n" nothing nothing
wiki serve --feed --workers 1 | door 3 => 6 2 1 0 "[\"site\",\"version\",\"2\"]\n[\"start\"]\n[\"save\",\"A\",\"x\",5]\n[\"claim\"]\n[\"done\",2]\n" SAVED nothing
wiki serve --feed --workers 1 | write 1 => 4 2 0 0 "" nothing nothing
wiki serve --feed --workers 1 | write 2 => 4 2 1 0 "[\"site\",\"version\",\"2\"]\n[\"start\"]\n" SAVED nothing
wiki serve --feed --workers 1 | room 10 => 4 2 0 0 "[\"site\",\"v" nothing nothing
wiki serve --feed --workers 1 | room 40 => 4 2 1 0 "[\"site\",\"version\",\"2\"]\n[\"start\"]\n[\"save\"" SAVED nothing"#;

#[test]
fn a_feed_is_written_beside_sessions(rt: HostRuntime) -> Result<(), Fail> {
    for line in FEEDS.lines() {
        let (case, want) = parts(line);
        let told = told_and_heard(&rt, rt.alloc(), case)?;
        assert_eq!(rt; told.as_str(), want, "{case}");
    }
    Ok(())
}

/// A feed of a page that is saved and refreshed.
const FEED: &str = r#"["site","version","2"]
["start"]
["save","A","x",7]
["claim"]
["done",2]
"#;

/// Runs of `replica` over that feed, to whose door nobody comes. No store is opened.
const TAKEN: &str = r#"wiki replica => 0 none "replica 3\n"
wiki replica | vault 1 | store 1 => 0 none "replica 3\n"
wiki replica | read 1 => 3 none ""
wiki replica | read 2 => 3 none ""
wiki replica | read 3 => 0 none "replica 3\n"
wiki replica | write 1 => 4 none ""
wiki replica | room 9 => 4 none "replica 3"
wiki replica | door 1 => 6 none ""
wiki replica | door 2 => 6 none ""
wiki replica | door 3 => 0 none "replica 3\n""#;

/// What comes of a case over an input.
fn told<R: Threads + Wait + Sync>(
    rt: &R,
    alloc: Global,
    case: &str,
    input: &str,
) -> Result<String, Memory> {
    let ran = run_on(rt, alloc, Tables::new(alloc), &case_of(case, input))?;
    ran.told(alloc)
}

#[test]
fn a_call_that_fails_ends_a_replica(rt: HostRuntime) -> Result<(), Fail> {
    for line in TAKEN.lines() {
        let (case, want) = parts(line);
        let told = told(&rt, rt.alloc(), case, FEED)?;
        assert_eq!(rt; told.as_str(), want, "{case}");
    }
    Ok(())
}

/// Feeds that are bad or cut, with a bar in the place of each newline, and what comes of `replica` over them.
const LINES: &str = r#" => 11 rule 8 row 1 none ""
["site","version","2"]| => 11 rule 8 row 2 none ""
["site","version","2"]|["start"] => 11 rule 8 row 2 none ""
["start"]| => 11 rule 8 row 1 none ""
["site","version","2"]|["start"]| => 0 none "replica 0\n"
["site","version","2"]|["start"]|["claim"]| => 11 rule 8 row 3 none ""
["site","version","2"]|["start"]|["claim"] => 0 none "replica 0\n"
["site","version","2"]|["start"]|["save","A","x",7]|["start"]| => 11 rule 8 row 4 none ""
["site","version","2"]|["start"]|["save","A","x",7]|["claim"]|["done",2 => 0 none "replica 2\n"
["site","version","2"]|["start"]|["save","A","x",7]|["claim"]|["done",1]|["claim"]| => 11 rule 8 row 5 none """#;

/// The text with a newline in the place of each bar.
fn lines_of(alloc: Global, text: &str) -> Result<String, Memory> {
    let mut lines = String::new(alloc);
    'characters: for c in text.chars() {
        let next = if c == '|' { '\n' } else { c };
        lines.push(next)?;
    }
    Ok(lines)
}

/// What comes of `replica` over a feed with bars.
fn told_of<R: Threads + Wait + Sync>(rt: &R, alloc: Global, feed: &str) -> Result<String, Memory> {
    let lines = lines_of(alloc, feed)?;
    told(rt, alloc, "wiki replica", &lines)
}

#[test]
fn a_bad_line_ends_a_replica(rt: HostRuntime) -> Result<(), Fail> {
    for line in LINES.lines() {
        let (feed, want) = parts(line);
        let told = told_of(&rt, rt.alloc(), feed)?;
        assert_eq!(rt; told.as_str(), want, "{feed}");
    }
    Ok(())
}

/// A feed of a wiki with a page, that ends with its start.
const START: &str = r#"["page",1,0,"A",1,1]
["revision",1,1,0,7,1,0,"x"]
["site","version","2"]
["start"]
"#;

/// What who asks for that page hears, and who edits it.
const HEARD: [&str; 2] = [
    "{\"parse\":{\"categories\":[],\"expanded\":\"x\",\"links\":[],\"pageid\":1,\"revid\":1,\"templates\":[],\"title\":\"A\"},\"point\":0}",
    "{\"error\":{\"code\":\"readonly\",\"info\":\"This wiki is read only.\"},\"point\":0}",
];

/// What comes of a replica of that wiki, where both peers heard this.
fn told_heard<R: Threads + Wait + Sync>(rt: &R, alloc: Global) -> Result<String, Memory> {
    let given = Given {
        words: "wiki replica --workers 2",
        input: START,
        asked: [PARSE_BOTH[0], SAVE_AND_PARSE[0]],
        ..NOTHING
    };
    let ran = run_on(rt, alloc, Tables::new(alloc), &given)?;
    if is_answered(&ran.first, HEARD[0]) && is_answered(&ran.second, HEARD[1]) {
        ran.told(alloc)
    } else {
        Ok(String::from_str(alloc, "they heard otherwise")?)
    }
}

#[test]
fn a_replica_answers_its_links(rt: HostRuntime) -> Result<(), Fail> {
    let told = told_heard(&rt, rt.alloc())?;
    assert_eq!(rt; told.as_str(), "0 none \"replica 0\\n\"");
    Ok(())
}

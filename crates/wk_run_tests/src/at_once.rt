//! Runs whose workers wait for each other, and what the peers of the links hear.

use crate::gates::Meeting;
use crate::given::{Given, NOTHING};
use crate::runs::text_of;
use crate::stores::{left_behind, run_behind, run_on};
use std::alloc::Global;
use std::sync::Wait;
use std::test::Fail;
use std::thread::Threads;
use wk_memory::Memory;
use wk_tables::{RevisionRow, Tables};

/// A script that saves two pages, each of which includes a page that is missing. Each has a job then.
const TWO_PAGES: &str = "api action=edit&title=A&text=%7B%7BT%7D%7D&token=%2B%5C
api action=edit&title=B&text=%7B%7BT%7D%7D&token=%2B%5C
";

/// A script that does both jobs behind that.
const TWO_DONE: &str = "api action=edit&title=A&text=%7B%7BT%7D%7D&token=%2B%5C
api action=edit&title=B&text=%7B%7BT%7D%7D&token=%2B%5C
claim
read 3
read 3
finish 3
claim
read 5
read 5
finish 5
";

/// A message that asks for the first of them, and one that asks for the second.
pub const PARSE_BOTH: [&str; 2] = [
    "GET /api.php?action=parse&page=A HTTP/1.1\r\nHost: localhost\r\n\r\n",
    "GET /api.php?action=parse&page=B HTTP/1.1\r\nHost: localhost\r\n\r\n",
];

/// Two messages that ask what a text expands to.
const EXPAND_BOTH: [&str; 2] = [
    "GET /api.php?action=expandtemplates&text={{T}}{{U}}a HTTP/1.1\r\nHost: localhost\r\n\r\n",
    "GET /api.php?action=expandtemplates&text={{T}}{{U}}b HTTP/1.1\r\nHost: localhost\r\n\r\n",
];

/// What the answers to each pair show.
const PARSED_BOTH: [&str; 2] = [
    "\"expanded\":\"[[:Template:T]]\",\"links\":[{\"ns\":10,\"title\":\"Template:T\"}],\"pageid\":1,",
    "\"expanded\":\"[[:Template:T]]\",\"links\":[{\"ns\":10,\"title\":\"Template:T\"}],\"pageid\":2,",
];

const EXPANDED_BOTH: [&str; 2] = [
    "{\"expandtemplates\":{\"wikitext\":\"[[:Template:T]][[:Template:U]]a\"},\"point\":0}",
    "{\"expandtemplates\":{\"wikitext\":\"[[:Template:T]][[:Template:U]]b\"},\"point\":0}",
];

/// A message that saves a page, and one that asks for it once that is done.
pub const SAVE_AND_PARSE: [&str; 2] = [
    "POST /api.php HTTP/1.1\r\nHost: localhost\r\nContent-Length: 39\r\n\r\naction=edit&title=A&text=x&token=%2B%5C",
    "GET /api.php?action=parse&page=A&minpoint=1 HTTP/1.1\r\nHost: localhost\r\n\r\n",
];

/// The answer to the message that saves the page.
pub const SAVED: &str =
    "HTTP/1.1 200 OK\r\nContent-Type: application/json; charset=utf-8\r\nContent-Length: 99\r\n\r\n\
{\"edit\":{\"new\":true,\"newrevid\":1,\"oldrevid\":0,\"pageid\":1,\"result\":\"Success\",\"title\":\"A\"},\"point\":1}";

/// The answer to the one that asks for it: its job was done in between, which took two points.
pub const PARSED: &str =
    "HTTP/1.1 200 OK\r\nContent-Type: application/json; charset=utf-8\r\nContent-Length: 111\r\n\r\n\
{\"parse\":{\"categories\":[],\"expanded\":\"x\",\"links\":[],\"pageid\":1,\"revid\":1,\"templates\":[],\"title\":\"A\"},\"point\":3}";

/// What comes of a run over the store that a script leaves, where so many of its workers met at their gates.
fn told_met<R: Threads + Wait + Sync>(
    rt: &R,
    alloc: Global,
    script: &str,
    words: &str,
    workers: u64,
) -> Result<String, Memory> {
    let given = Given { words, ..NOTHING };
    let meeting = Meeting::new(workers);
    let ran = run_behind(rt, alloc, script, &given, &meeting)?;
    if meeting.took_place() {
        ran.told(alloc)
    } else {
        Ok(String::from_str(alloc, "they didn't meet")?)
    }
}

#[test]
fn jobs_at_once(rt: HostRuntime) -> Result<(), Fail> {
    for words in ["wiki jobs --procs 2", "wiki jobs --procs 4"] {
        let told = told_met(&rt, rt.alloc(), TWO_PAGES, words, 2)?;
        assert_eq!(rt; told.as_str(), "0 2 2 0 \"jobs 0\\n\"", "{words}");
    }
    Ok(())
}

#[test]
fn gen_at_once(rt: HostRuntime) -> Result<(), Fail> {
    for (words, workers) in [
        ("wiki gen --procs 2", 2),
        ("wiki gen --pages 50 --number 1 --procs 4", 4),
    ] {
        let told = told_met(&rt, rt.alloc(), "", words, workers)?;
        let want = "0 2 52 0 \"pages 52 revisions 52 jobs 0 differ 0\\n\"";
        assert_eq!(rt; told.as_str(), want, "{words}");
    }
    Ok(())
}

/// Whether one who asked was answered so.
pub fn is_answered(heard: &[u8], shown: &str) -> bool {
    let text = text_of(heard);
    text.starts_with("HTTP/1.1 200 OK\r\n") && text.contains(shown)
}

/// What comes of a run of `serve` by two workers over the store that a script leaves, where they met and both peers heard this.
fn served_at_once<R: Threads + Wait + Sync>(
    rt: &R,
    alloc: Global,
    script: &str,
    asked: [&str; 2],
    shown: [&str; 2],
) -> Result<String, Memory> {
    let given = Given {
        words: "wiki serve --workers 2",
        asked,
        ..NOTHING
    };
    let meeting = Meeting::new(2);
    let ran = run_behind(rt, alloc, script, &given, &meeting)?;
    let heard = is_answered(&ran.first, shown[0]) && is_answered(&ran.second, shown[1]);
    if heard && meeting.took_place() {
        ran.told(alloc)
    } else {
        Ok(String::from_str(alloc, "they didn't meet, or heard otherwise")?)
    }
}

/// The output of `serve` behind two links, and what is left in the store of two pages.
const SERVED: &str = "0 2 2 0 \"listening on 127.0.0.1:8080\\nserved 2\\n\"";

/// Two workers meet at their gates, each in a read or in the step behind its reply.
#[test]
fn serve_at_once(rt: HostRuntime) -> Result<(), Fail> {
    let told = served_at_once(&rt, rt.alloc(), TWO_PAGES, PARSE_BOTH, PARSED_BOTH)?;
    assert_eq!(rt; told.as_str(), SERVED);
    Ok(())
}

/// Where no job is left they can meet in reads alone, so none of them has the turn while it reads.
#[test]
fn pages_are_read_at_once(rt: HostRuntime) -> Result<(), Fail> {
    let told = served_at_once(&rt, rt.alloc(), TWO_DONE, PARSE_BOTH, PARSED_BOTH)?;
    assert_eq!(rt; told.as_str(), SERVED);
    Ok(())
}

#[test]
fn texts_are_read_at_once(rt: HostRuntime) -> Result<(), Fail> {
    let told = served_at_once(&rt, rt.alloc(), TWO_DONE, EXPAND_BOTH, EXPANDED_BOTH)?;
    assert_eq!(rt; told.as_str(), SERVED);
    Ok(())
}

/// A run of `serve` by one worker, of whose two links the first saves a page, and the second asks for it.
const SERVE: Given<'static> = Given {
    words: "wiki serve --workers 1",
    asked: SAVE_AND_PARSE,
    ..NOTHING
};

#[test]
fn serve_answers_its_links(rt: HostRuntime) -> Result<(), Fail> {
    let ran = run_on(&rt, rt.alloc(), Tables::new(rt.alloc()), &SERVE)?;
    assert_eq!(rt;
        text_of(&ran.written),
        "listening on 127.0.0.1:8080\nserved 2\n"
    );
    assert_eq!(rt; (ran.status, ran.left.as_str()), (0, "2 1 0"));
    assert_eq!(rt;
        (text_of(&ran.first), text_of(&ran.second)),
        (SAVED, PARSED)
    );
    Ok(())
}

/// Whether this is one revision, the first, with this text and the first moment of the clock.
fn has_one_revision(revisions: &[RevisionRow], text: &str) -> bool {
    match revisions {
        [row] => row.rev_id == 1 && row.rev_timestamp == 5 && row.rev_text.as_str() == text,
        _ => false,
    }
}

/// Whether that run leaves one revision with this text.
fn leaves<R: Threads + Wait + Sync>(rt: &R, alloc: Global, text: &str) -> Result<bool, Memory> {
    match left_behind(rt, alloc, Tables::new(alloc), &SERVE)? {
        Some(tables) => Ok(has_one_revision(tables.revisions(), text)),
        None => Ok(false),
    }
}

#[test]
fn serve_leaves_what_was_saved(rt: HostRuntime) -> Result<(), Fail> {
    assert!(rt; leaves(&rt, rt.alloc(), "x")?);
    Ok(())
}

/// What the first peer of that run hears where its link takes a byte at each write.
fn heard_in_pieces<R: Threads + Wait + Sync>(rt: &R, alloc: Global) -> Result<String, Memory> {
    let given = Given { most: 1, ..SERVE };
    let ran = run_on(rt, alloc, Tables::new(alloc), &given)?;
    Ok(String::from_str(alloc, text_of(&ran.first))?)
}

#[test]
fn a_reply_is_sent_in_pieces(rt: HostRuntime) -> Result<(), Fail> {
    let heard = heard_in_pieces(&rt, rt.alloc())?;
    assert_eq!(rt; heard.as_str(), SAVED);
    Ok(())
}

//! Runs in which calls of the outside fail.

use crate::at_once::{PARSED, SAVE_AND_PARSE, SAVED};
use crate::gates::Meeting;
use crate::given::{Given, NOTHING, case_of, parts};
use crate::runs::{Ran, text_of};
use crate::stores::{left_by, run_behind, run_on};
use std::alloc::Global;
use std::sync::Wait;
use std::test::Fail;
use std::thread::Threads;
use wk_memory::Memory;
use wk_tables::Tables;

/// A script that saves two pages, each of which has a job then.
const TWO_PAGES: &str =
    "api action=edit&title=A&text=a&token=%2B%5C\napi action=edit&title=B&text=b&token=%2B%5C\n";

/// Commands over a store with two jobs. Behind the status stand the store's version, its revisions and jobs. What a worker
/// leaves where the store fails is done once more, by one thread.
const COMMANDS: &str = r#"wiki check | vault 1 => 5 none ""
wiki check | store 1 => 5 2 2 2 ""
wiki serve | store 1 | door 1 => 5 2 2 2 ""
wiki serve --workers 1 => 0 2 2 2 "listening on 127.0.0.1:8080\nserved 0\n"
wiki serve | write 1 => 4 2 2 2 ""
wiki serve | write 2 => 4 2 2 2 "listening on 127.0.0.1:8080\n"
wiki serve | door 2 => 6 2 2 2 "listening on 127.0.0.1:8080\n"
wiki jobs | door 1 => 0 2 2 0 "jobs 0\n"
wiki jobs | write 1 => 4 2 2 0 ""
wiki jobs | store 2 => 0 2 2 0 "jobs 0\n"
wiki jobs | store 3 => 0 2 2 0 "jobs 0\n"
wiki jobs | store 2 3 => 5 2 2 2 ""
wiki jobs | store 3 4 => 5 2 2 1 ""
wiki jobs --procs 4 | store 2 => 0 2 2 0 "jobs 0\n"
wiki jobs --procs 4 | store 2 3 4 5 6 7 8 9 => 5 none ""
wiki report | vault 1 => 5 none ""
wiki report | store 1 => 5 2 2 2 ""
wiki report | write 1 => 4 2 2 2 ""
wiki report | room 4 => 4 2 2 2 "line"
wiki report | read 1 | door 1 => 0 2 2 2 "lines 0\n"
wiki gen --pages 1 | store 3 => 5 2 3 3 ""
wiki gen --pages 1 --procs 4 | store 5 => 0 2 5 0 "pages 5 revisions 5 jobs 0 differ 0\n"
wiki gen --pages 1 | store 5 6 => 5 2 5 5 """#;

/// What comes of a case over the store that a script leaves.
fn told<R: Threads + Wait + Sync>(
    rt: &R,
    alloc: Global,
    script: &str,
    case: &str,
) -> Result<String, Memory> {
    let ran = run_behind(rt, alloc, script, &case_of(case, ""), &Meeting::new(0))?;
    ran.told(alloc)
}

#[test]
fn a_call_that_fails_ends_a_command(rt: HostRuntime) -> Result<(), Fail> {
    for line in COMMANDS.lines() {
        let (case, want) = parts(line);
        let told = told(&rt, rt.alloc(), TWO_PAGES, case)?;
        assert_eq!(rt; told.as_str(), want, "{case}");
    }
    Ok(())
}

/// Accepts that fail: the first one, and the one behind a link that was served.
const ACCEPTS: &str =
    r#"wiki serve --workers 1 | door 2 => 6 2 0 0 "listening on 127.0.0.1:8080\n" nothing nothing
wiki serve --workers 1 | door 3 => 6 2 1 0 "listening on 127.0.0.1:8080\n" SAVED nothing"#;

/// What a peer heard.
fn heard_as(heard: &[u8]) -> &'static str {
    let heard = text_of(heard);
    if heard.is_empty() {
        return "nothing";
    }
    if heard == SAVED {
        return "SAVED";
    }
    if heard == PARSED {
        "PARSED"
    } else {
        "another answer"
    }
}

/// What comes of a case over an empty store, of whose two links the first saves a page and the second asks for it; and what their
/// peers heard.
pub fn told_and_heard<R: Threads + Wait + Sync>(
    rt: &R,
    alloc: Global,
    case: &str,
) -> Result<String, Memory> {
    let given = Given {
        asked: SAVE_AND_PARSE,
        ..case_of(case, "")
    };
    let ran = run_on(rt, alloc, Tables::new(alloc), &given)?;
    let told = ran.told(alloc)?;
    let (first, second) = (heard_as(&ran.first), heard_as(&ran.second));
    Ok(format!(in alloc; "{told} {first} {second}")?)
}

#[test]
fn an_accept_that_fails_ends_serve(rt: HostRuntime) -> Result<(), Fail> {
    for line in ACCEPTS.lines() {
        let (case, want) = parts(line);
        let told = told_and_heard(&rt, rt.alloc(), case)?;
        assert_eq!(rt; told.as_str(), want, "{case}");
    }
    Ok(())
}

/// How the output of a script goes on beside the whole one, `sound`: how many bytes it has where it is the beginning of that;
/// else how many lines are the same, the first other one, and the last one.
fn beside(alloc: Global, written: &str, sound: &str) -> Result<String, Memory> {
    if sound.starts_with(written) {
        let len = written.len();
        return Ok(format!(in alloc; "{len} bytes")?);
    }
    let (same, other) = first_other(written, sound);
    let last = written.lines().last().unwrap_or("");
    Ok(format!(in alloc; "{same} lines, {other}, {last}")?)
}

/// How many lines of the two are the same, and the first other one.
fn first_other<'a>(written: &'a str, sound: &str) -> (u64, &'a str) {
    let mut same: u64 = 0;
    'lines: for (line, other) in written.lines().zip(sound.lines()) {
        if line != other {
            return (same, line);
        }
        same = same.saturating_add(1);
    }
    (same, "no line")
}

/// A run of `script` over an empty store.
fn scripted<R: Threads + Wait + Sync>(
    rt: &R,
    alloc: Global,
    input: &str,
    case: &str,
) -> Result<Ran, Memory> {
    run_on(rt, alloc, Tables::new(alloc), &case_of(case, input))
}

/// What comes of a script in which calls fail: the status, and how its output goes on beside that where none does.
fn told_beside<R: Threads + Wait + Sync>(
    rt: &R,
    alloc: Global,
    input: &str,
    case: &str,
) -> Result<String, Memory> {
    let sound = scripted(rt, alloc, input, "wiki script")?;
    let ran = scripted(rt, alloc, input, case)?;
    let (status, told) = (
        ran.status,
        beside(alloc, text_of(&ran.written), text_of(&sound.written))?,
    );
    Ok(format!(in alloc; "{status} {told}")?)
}

/// Whether each of the cases comes to what it is to come to.
fn check_cases<R: Threads + Wait + Sync>(
    rt: &R,
    alloc: Global,
    input: &str,
    cases: &str,
) -> Result<Option<String>, Memory> {
    'cases: for line in cases.lines() {
        let (case, want) = parts(line);
        let told = told_beside(rt, alloc, input, case)?;
        if told.as_str() != want {
            return Ok(Some(format!(in alloc; "{case} => {told}")?));
        }
    }
    Ok(None)
}

/// A save, a refresh, a fan, a deletion and a restart. What changes the store is asked for twice.
const CHANGES: &str = "api action=edit&title=P&text={{T}}&token=%2B%5C
api action=edit&title=P&text={{T}}&token=%2B%5C
claim
read 2
read 2
finish 2
claim
read 4
read 4
finish 4
api action=edit&title=Template:T&text=t&token=%2B%5C
api action=edit&title=Template:T&text=t&token=%2B%5C
fan
fan
api action=delete&title=Template:T&token=%2B%5C
api action=delete&title=Template:T&token=%2B%5C
restart
";

/// Each call of the store fails in turn. The first one loads it, as does the last one, at the restart.
const STORE: &str = r#"wiki script | store 1 => 5 0 bytes
wiki script | store 2 => 0 0 lines, {"error":{"code":"storefault","info":"The store failed."},"point":0}, {"point":0,"restart":{"jobs":3,"pages":1}}
wiki script | store 3 => 0 5 lines, {"error":{"code":"storefault","info":"The store failed."},"point":3}, {"point":0,"restart":{"jobs":3,"pages":1}}
wiki script | store 4 => 0 10 lines, {"error":{"code":"storefault","info":"The store failed."},"point":3}, {"point":0,"restart":{"jobs":3,"pages":1}}
wiki script | store 5 => 0 12 lines, {"error":{"code":"storefault","info":"The store failed."},"point":4}, {"point":0,"restart":{"jobs":3,"pages":1}}
wiki script | store 6 => 0 14 lines, {"error":{"code":"storefault","info":"The store failed."},"point":5}, {"point":0,"restart":{"jobs":3,"pages":1}}
wiki script | store 7 => 5 1027 bytes
wiki script | store 8 => 0 1070 bytes"#;

#[test]
fn each_call_of_the_store_fails_in_turn(rt: HostRuntime) -> Result<(), Fail> {
    let other = check_cases(&rt, rt.alloc(), CHANGES, STORE)?;
    assert!(rt; other.is_none(), "{other:?}");
    Ok(())
}

/// Three lines of 5,000 bytes each, so that a read of 8,192 bytes ends within the second, and the next read behind all. The
/// reply to each has 100 bytes.
fn three_lines(alloc: Global) -> Result<String, Memory> {
    let text = "x".repeat(alloc, 4_957)?;
    let (front, behind) = ("api action=edit&title=", "&token=%2B%5C");
    Ok(format!(in alloc;
        "{front}A&text={text}{behind}\n{front}B&text={text}{behind}\n{front}C&text={text}{behind}\n"
    )?)
}

/// Each read and each write fails in turn, and outputs are full.
const STREAMS: &str = r#"wiki script | read 1 => 3 0 bytes
wiki script | read 2 => 3 100 bytes
wiki script | read 3 => 3 300 bytes
wiki script | read 4 => 0 300 bytes
wiki script | write 1 => 4 0 bytes
wiki script | write 2 => 4 100 bytes
wiki script | write 3 => 4 200 bytes
wiki script | write 4 => 0 300 bytes
wiki script | room 0 => 4 0 bytes
wiki script | room 1 => 4 1 bytes
wiki script | room 99 => 4 99 bytes
wiki script | room 100 => 4 100 bytes
wiki script | room 101 => 4 101 bytes
wiki script | room 299 => 4 299 bytes
wiki script | room 300 => 0 300 bytes"#;

#[test]
fn each_read_and_each_write_fails_in_turn(rt: HostRuntime) -> Result<(), Fail> {
    let lines = three_lines(rt.alloc())?;
    let other = check_cases(&rt, rt.alloc(), &lines, STREAMS)?;
    assert!(rt; other.is_none(), "{other:?}");
    Ok(())
}

/// Tables of version 1 with one page, and no job.
fn old_tables<R: Threads + Wait + Sync>(rt: &R, alloc: Global) -> Result<Tables, Memory> {
    let mut rows = left_by(rt, alloc, ONE_PAGE)?.rows()?;
    rows.version = 1;
    rows.jobs = Vec::new(alloc);
    Tables::from_rows(alloc, rows)
}

/// A script that saves a page.
const ONE_PAGE: &str = "api action=edit&title=A&text=x&token=%2B%5C\n";

/// A store of version 1 is brought up when it is opened, by its second call.
const OLD: &str = r#"wiki script => 0 2 1 1 "{\"point\":0,\"restart\":{\"jobs\":1,\"pages\":1}}\n"
wiki script | store 2 => 5 1 1 0 """#;

/// What comes of a restart over a store of version 1.
fn told_old<R: Threads + Wait + Sync>(rt: &R, alloc: Global, case: &str) -> Result<String, Memory> {
    let tables = old_tables(rt, alloc)?;
    let ran = run_on(rt, alloc, tables, &case_of(case, "restart\n"))?;
    ran.told(alloc)
}

#[test]
fn a_migration_that_fails_changes_nothing(rt: HostRuntime) -> Result<(), Fail> {
    for line in OLD.lines() {
        let (case, want) = parts(line);
        let told = told_old(&rt, rt.alloc(), case)?;
        assert_eq!(rt; told.as_str(), want, "{case}");
    }
    Ok(())
}

#[test]
fn no_words_touch_nothing(rt: HostRuntime) -> Result<(), Fail> {
    let given = Given {
        input: "claim\n",
        ..NOTHING
    };
    let ran = run_on(&rt, rt.alloc(), Tables::new(rt.alloc()), &given)?;
    let told = ran.told(rt.alloc())?;
    assert_eq!(rt; told.as_str(), "2 none \"\"");
    Ok(())
}

/// Moments are taken by edits and deletions, the refused ones too.
const MOMENTS: &str = "api action=edit&title=A&text=1&token=%2B%5C
api action=edit&title=A&text=2&baserevid=9&token=%2B%5C
api action=parse&page=A
api action=delete&title=A&token=%2B%5C

restart
api action=query&prop=revisions&titles=A
";

/// The last reply, of a clock that gives 5, 6 and 7.
const TAKEN: &str =
    r#"{"point":0,"query":{"revisions":[{"deleted":true,"parentid":1,"revid":2,"size":0,"timestamp":7},{"parentid":0,"revid":1,"size":1,"timestamp":5}]}}"#;

#[test]
fn moments_and_points_stand_in_order(rt: HostRuntime) -> Result<(), Fail> {
    let ran = scripted(&rt, rt.alloc(), MOMENTS, "wiki script")?;
    assert_eq!(rt; text_of(&ran.written).lines().last(), Some(TAKEN));
    assert_eq!(rt; ran.points.as_slice(), [1, 1, 1, 2, 0, 0].as_slice());
    Ok(())
}

//! Scripts over a wiki whose tables are in a database in memory: each line is answered as it is over tables in memory, and behind
//! each the keeper, given up, gives the tables of the wiki. What runs is generic in the keeper, so that nothing is proved of a
//! script over one.
ghost use Rattle.wk_revs.specs.Edit.{most_held};
ghost use Rattle.wk_core.specs.Limits.{AreWithinFull};

use crate::told::{is_given, new_store, older_store};
use std::alloc::Global;
use std::test::Fail;
use wk_base::{ListClock, MemSink, MemSource};
use wk_core::{Keeper, Limits, Wiki};
use wk_memory::Memory;
use wk_script::{ScriptReport, run_script};

/// A template is saved while a page that includes it is refreshed: the refresh is stale, and the page is refreshed again.
const RACE: &str = r#"api action=edit&title=P&text={{T}}{{U}}&token=%2B%5C
api action=edit&title=Template:T&text=t1&token=%2B%5C
api action=edit&title=Template:U&text=u1&token=%2B%5C
claim
read 4
read 4
api action=edit&title=Template:T&text=t2&token=%2B%5C
read 4
finish 4
claim
read 7
finish 7
claim
read 9
finish 9
claim
read 11
read 11
read 11
finish 11
fan
claim
restart
"#;

/// The reply to each of these lines.
const RACE_REPLIES: &str =
    r#"{"edit":{"new":true,"newrevid":1,"oldrevid":0,"pageid":1,"result":"Success","title":"P"},"point":1}
{"edit":{"new":true,"newrevid":2,"oldrevid":0,"pageid":2,"result":"Success","title":"Template:T"},"point":2}
{"edit":{"new":true,"newrevid":3,"oldrevid":0,"pageid":3,"result":"Success","title":"Template:U"},"point":3}
{"claim":{"ticket":4,"title":"P"},"point":4}
{"point":4,"read":{"kind":"view","mark":1,"title":"P"}}
{"point":4,"read":{"kind":"include","mark":2,"title":"Template:T"}}
{"edit":{"newrevid":4,"oldrevid":2,"pageid":2,"result":"Success","title":"Template:T"},"point":5}
{"point":5,"read":{"kind":"include","mark":3,"title":"Template:U"}}
{"finish":"stale","kind":"include","now":4,"point":6,"read":2,"title":"Template:T"}
{"claim":{"ticket":7,"title":"Template:T"},"point":7}
{"point":7,"read":{"kind":"view","mark":4,"title":"Template:T"}}
{"finish":"done","point":8}
{"claim":{"ticket":9,"title":"Template:U"},"point":9}
{"point":9,"read":{"kind":"view","mark":3,"title":"Template:U"}}
{"finish":"done","point":10}
{"claim":{"ticket":11,"title":"P"},"point":11}
{"point":11,"read":{"kind":"view","mark":1,"title":"P"}}
{"point":11,"read":{"kind":"include","mark":4,"title":"Template:T"}}
{"point":11,"read":{"kind":"include","mark":3,"title":"Template:U"}}
{"finish":"done","point":12}
{"fan":null,"point":12}
{"claim":null,"point":12}
{"point":0,"restart":{"jobs":0,"pages":3}}
"#;

/// A page asks whether another exists, which is then saved, and deleted.
const EXISTENCE: &str = r#"api action=edit&title=P&text={{#ifexist:Q|y|n}}&token=%2B%5C
claim
read 2
read 2
finish 2
api action=edit&title=Q&text=x&token=%2B%5C
fan
api action=parse&page=P
api action=delete&title=Q&token=%2B%5C
api action=parse&page=P
"#;

/// The reply to each of these lines.
const EXISTENCE_REPLIES: &str =
    r#"{"edit":{"new":true,"newrevid":1,"oldrevid":0,"pageid":1,"result":"Success","title":"P"},"point":1}
{"claim":{"ticket":2,"title":"P"},"point":2}
{"point":2,"read":{"kind":"view","mark":1,"title":"P"}}
{"point":2,"read":{"kind":"exists","mark":0,"title":"Q"}}
{"finish":"done","point":3}
{"edit":{"new":true,"newrevid":2,"oldrevid":0,"pageid":2,"result":"Success","title":"Q"},"point":4}
{"fan":{"queued":1,"served":1,"title":"Q"},"point":5}
{"parse":{"categories":[],"expanded":"y","links":[{"ns":0,"title":"Q"}],"pageid":1,"revid":1,"templates":[],"title":"P"},"point":5}
{"delete":{"oldrevid":2,"revid":3,"title":"Q"},"point":6}
{"parse":{"categories":[],"expanded":"n","links":[{"ns":0,"title":"Q"}],"pageid":1,"revid":1,"templates":[],"title":"P"},"point":6}
"#;

/// The reply to a restart over a store of version 1 with one page and no job.
const OLDER_REPLY: &str = r#"{"point":0,"restart":{"jobs":1,"pages":1}}
"#;

/// So many lines of the text, from its first on.
fn first_lines(alloc: Global, text: &str, count: usize) -> Result<String, Memory> {
    let mut first = String::new(alloc);
    'lines: for line in text.lines().take(count) {
        first.push_str(line)?;
        first.push('\n')?;
    }
    Ok(first)
}

/// Whether the keeper of the wiki that a script leaves, given up, gives the tables of the wiki.
fn is_left<K: Keeper>(wiki: Result<Wiki<K>, K>) -> Result<bool, Memory> {
    match wiki {
        Ok(wiki) => is_given(wiki),
        Err(_) => Ok(false),
    }
}

/// Whether the lines of a script over a wiki with these limits are answered so, and the keeper, given up behind them, gives the
/// tables of the wiki.
fn is_answered<K: Keeper>(
    alloc: Global,
    keeper: K,
    limits: Limits,
    script: &str,
    replies: &str,
) -> Result<bool, Fail>
    requires { AreWithinFull (most_held limits) }
{
    let mut source = MemSource::new(script.as_bytes().to_vec(alloc)?, Vec::new(alloc));
    let mut sink = MemSink::new(alloc, 4_096, Vec::new(alloc))?;
    let mut clock = ListClock::new(Vec::new(alloc));
    match Wiki::load(alloc, keeper, limits) {
        Ok(wiki) => {
            let ScriptReport {
                wiki,
                end: _,
                points: _,
            } = run_script(wiki, &mut source, &mut sink, &mut clock);
            let left = is_left(wiki)?;
            Ok(left && sink.bytes() == replies.as_bytes())
        }
        Err(refusal) => Err(Fail::from(refusal.cause)),
    }
}

/// The same of so many lines of a script, and of as many replies.
fn is_begun<K: Keeper>(
    alloc: Global,
    keeper: K,
    script: &str,
    replies: &str,
    count: usize,
) -> Result<bool, Fail> {
    let script = first_lines(alloc, script, count)?;
    let replies = first_lines(alloc, replies, count)?;
    is_answered(
        alloc,
        keeper,
        Limits::FULL,
        script.as_str(),
        replies.as_str(),
    )
}

#[test]
fn a_race_over_a_database_in_memory(rt: HostRuntime) -> Result<(), Fail> {
    let alloc = rt.alloc();
    for count in 0..24usize {
        let keeper = new_store(alloc)?;
        assert!(rt;
            is_begun(alloc, keeper, RACE, RACE_REPLIES, count)?,
            "behind {count} lines"
        );
    }
    Ok(())
}

#[test]
fn a_test_of_existence_over_a_database_in_memory(rt: HostRuntime) -> Result<(), Fail> {
    let alloc = rt.alloc();
    for count in 0..11usize {
        let keeper = new_store(alloc)?;
        assert!(rt;
            is_begun(alloc, keeper, EXISTENCE, EXISTENCE_REPLIES, count)?,
            "behind {count} lines"
        );
    }
    Ok(())
}

#[test]
fn a_restart_over_an_older_database_in_memory(rt: HostRuntime) -> Result<(), Fail> {
    let alloc = rt.alloc();
    let keeper = older_store(alloc)?;
    assert!(rt; is_begun(alloc, keeper, "restart", OLDER_REPLY, 1)?);
    Ok(())
}

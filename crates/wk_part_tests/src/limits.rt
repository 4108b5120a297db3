//! A script over a wiki of which a limit is lowered, which the program has no word for.
ghost use Rattle.wk_revs.specs.Edit.{most_held};
ghost use Rattle.wk_core.specs.Limits.{AreWithinFull};

use std::alloc::Global;
use std::test::Fail;
use wk_base::{ListClock, MemSink, MemSource};
use wk_core::{Keeper, Limits, Wiki};
use wk_keeper::MemKeeper;
use wk_script::{ScriptReport, run_script};
use wk_tables::Tables;

/// The keeper that a script leaves.
fn keeper_of<K: Keeper>(wiki: Result<Wiki<K>, K>) -> K {
    match wiki {
        Ok(wiki) => wiki.release(),
        Err(keeper) => keeper,
    }
}

/// What is written for a script over a wiki with these limits.
fn written<K: Keeper>(
    alloc: Global,
    keeper: K,
    limits: Limits,
    script: &str,
) -> Result<String, Fail>
    requires { AreWithinFull (most_held limits) }
{
    let mut source = MemSource::new(script.as_bytes().to_vec(alloc)?, Vec::new(alloc));
    let mut sink = MemSink::new(alloc, 4_096, Vec::new(alloc))?;
    let mut clock = ListClock::new(Vec::new(alloc));
    match Wiki::load(alloc, keeper, limits) {
        Ok(wiki) => {
            let ScriptReport {
                wiki,
                end,
                points: _,
            } = run_script(wiki, &mut source, &mut sink, &mut clock);
            let _keeper = keeper_of(wiki);
            let written = str::from_utf8(sink.bytes()).unwrap_or("no text");
            Ok(format!(in alloc; "{end:?} {written}")?)
        }
        Err(refusal) => Err(Fail::from(refusal.cause)),
    }
}

/// Edits of a wiki that is full behind the first one, each of which would be refused for what stands in front of that too.
const SCRIPT: &str = "api action=edit&title=A&text=x&token=%2B%5C
api action=edit&title={&text=y&createonly&token=%2B%5C
api action=edit&title=A&text=y&createonly&baserevid=9&token=%2B%5C
api action=edit&title=B&text=y&nocreate&baserevid=9&token=%2B%5C
api action=edit&title=A&text=y&baserevid=9&token=%2B%5C
api action=edit&title=A&text=x&baserevid=1&token=%2B%5C
api action=edit&title=B&text=y&token=%2B%5C
api action=edit&title=A&text=y&token=%2B%5C
";

/// What is written for all but the last line.
const REPLIES: &str =
    r#"Done {"edit":{"new":true,"newrevid":1,"oldrevid":0,"pageid":1,"result":"Success","title":"A"},"point":1}
{"error":{"code":"invalidtitle","info":"Bad title."},"point":1}
{"error":{"code":"articleexists","info":"The page exists already."},"point":1}
{"error":{"code":"missingtitle","info":"The page does not exist."},"point":1}
{"error":{"code":"editconflict","current":1,"info":"Edit conflict."},"point":1}
{"edit":{"nochange":true,"pageid":1,"result":"Success","title":"A"},"point":1}
{"error":{"code":"wikifull","info":"A limit of the wiki is reached.","limit":"pages"},"point":1}
"#;

/// What is written for the last line, where the wiki takes no further revision, no further byte of text, and one of each.
const ENDS: [&str; 3] = [
    r#"{"error":{"code":"wikifull","info":"A limit of the wiki is reached.","limit":"revisions"},"point":1}"#,
    r#"{"error":{"code":"wikifull","info":"A limit of the wiki is reached.","limit":"text"},"point":1}"#,
    r#"{"edit":{"newrevid":2,"oldrevid":1,"pageid":1,"result":"Success","title":"A"},"point":2}"#,
];

/// What is written over a wiki with these limits behind what is expected.
fn last(alloc: Global, limits: Limits) -> Result<String, Fail>
    requires { AreWithinFull (most_held limits) }
{
    let keeper = MemKeeper::new(Tables::new(alloc));
    let written = written(alloc, keeper, limits, SCRIPT)?;
    let last = written.as_str().strip_prefix(REPLIES).unwrap_or("others");
    Ok(String::from_str(alloc, last.trim_end())?)
}

#[test]
fn a_full_wiki_is_told(rt: HostRuntime) -> Result<(), Fail> {
    let one = Limits {
        pages: 1,
        revisions: 1,
        text: 1,
        ..Limits::FULL
    };
    let (two, more) = (
        Limits {
            revisions: 2,
            ..one
        },
        Limits {
            revisions: 2,
            text: 2,
            ..one
        },
    );
    assert_eq!(rt; last(rt.alloc(), one)?.as_str(), ENDS[0]);
    assert_eq!(rt; last(rt.alloc(), two)?.as_str(), ENDS[1]);
    assert_eq!(rt; last(rt.alloc(), more)?.as_str(), ENDS[2]);
    Ok(())
}

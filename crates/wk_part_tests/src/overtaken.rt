//! A session that saves a text which is transformed before, while another caller saves a template that the text calls.
ghost use Rattle.wk_part_tests.specs.Ready.{IsReady};

use crate::shared::{begun, served_by};
use std::alloc::Global;
use std::marker::Model;
use std::sync::Wait;
use std::sync::atomic::{AtomicU64, Ordering};
use std::test::Fail;
use wk_base::{MemSink, MemSource};
use wk_core::Keeper;
use wk_keeper::MemKeeper;
use wk_link::MemLink;
use wk_memory::Memory;
use wk_readers::Gate;
use wk_session::SessionReport;
use wk_shared::{Edit, Pass, Shared, Wiki};
use wk_tables::Tables;

/// An edit that gives a page this text.
fn edit(alloc: Global, title: &str, text: &str) -> Result<Edit, Memory> {
    Ok(Edit {
        title: String::from_str(alloc, title)?,
        body: Some(String::from_str(alloc, text)?),
        base: None,
        create_only: false,
        no_create: false,
    })
}

/// Gives a page this text. Where memory runs out nothing is saved.
fn save<K: Keeper, R: Wait>(
    rt: &R,
    alloc: Global,
    shared: &Shared<K>,
    pass: &mut Pass<Wiki<K>>,
    title: &str,
    text: &str,
)
    requires { IsReady shared.now pass.old }
    ensures { IsReady shared.now pass.new }
{
    if let Ok(edit) = edit(alloc, title, text) {
        let (_answer, _point) = shared.save(rt, pass, &edit, 0);
    }
}

/// The text that the template has behind so many saves at the gate.
fn template_text(alloc: Global, saves: u64) -> Result<String, Memory> {
    Ok(format!(in alloc; "t{saves}")?)
}

/// A gate at which another caller saves the template, by a pass of its own, at each of the first passes.
#[derive(Drop)]
struct Saving<'a, K: Keeper, R: Wait> {
    rt: &'a R,
    alloc: Global,
    shared: &'a Shared<K>,
    /// The other caller's pass.
    other: Pass<Wiki<K>>,
    /// At how many passes the template is saved.
    times: u64,
    /// How often the gate was passed.
    passed: &'a AtomicU64,
}

impl<'a, K: Keeper, R: Wait> Model for Saving<'a, K, R> {
    ghost use Rattle.wk_wiki_rules.specs.Events.{Event};
    ghost use Rattle.wk_wiki_rules.specs.Starts.{Start};
    ghost use Rattle.wk_turn.specs.Told.{Story};
    ghost use Rattle.wk_part_tests.specs.Ready.{IsReady};

    ghost Value = { Story Start Event };

    ghost view = { λ g. g.other };

    ghost invariant = { λ g. IsReady g.shared.now g.other };
}

impl<'a, K: Keeper, R: Wait> Saving<'a, K, R> {
    /// A gate that wasn't passed yet.
    fn new(
        rt: &'a R,
        alloc: Global,
        shared: &'a Shared<K>,
        other: Pass<Wiki<K>>,
        times: u64,
        passed: &'a AtomicU64,
    ) -> Saving<'a, K, R>
        requires { IsReady shared.now other }
    {
        Saving {
            rt,
            alloc,
            shared,
            other,
            times,
            passed,
        }
    }

    /// Saves the template, behind so many saves.
    fn save_next(&mut self, saves: u64) {
        if let Ok(text) = template_text(self.alloc, saves.saturating_add(1)) {
            save(
                self.rt,
                self.alloc,
                self.shared,
                &mut self.other,
                "Template:T",
                text.as_str(),
            );
        }
    }
}

impl<K: Keeper, R: Wait> Gate for Saving<'_, K, R> {
    fn pass(&mut self) {
        let passed = self.passed.fetch_add(1, Ordering::SeqCst);
        if passed < self.times {
            self.save_next(passed);
        }
    }
}

/// A message that saves a page by two calls, so that a transform of its text passes the gate once.
const MESSAGE: &str = "POST /api.php HTTP/1.1\r\nContent-Length: 66\r\n\r\n\
action=edit&title=P&text={{subst:T}}{{subst:U}}&subst&token=%2B%5C";

/// A connection by which that message comes.
fn linked(alloc: Global) -> Result<MemLink, Memory> {
    let source = MemSource::new(MESSAGE.as_bytes().to_vec(alloc)?, Vec::new(alloc));
    Ok(MemLink::new(source, MemSink::new(alloc, 8_192, Vec::new(alloc))?))
}

/// A session by one pass, at whose gate the other one saves so many times. The first pass comes back, with how often the gate
/// was passed.
fn served_beside<K: Keeper, R: Wait>(
    rt: &R,
    alloc: Global,
    shared: &Shared<K>,
    pass: Pass<Wiki<K>>,
    other: Pass<Wiki<K>>,
    times: u64,
    link: &mut MemLink,
) -> (Pass<Wiki<K>>, u64, Option<SessionReport>)
    requires pass { IsReady shared.now pass }
    requires other { IsReady shared.now other }
    ensures { IsReady shared.now result.0 }
{
    let passed = AtomicU64::new(0);
    let gate = Saving::new(rt, alloc, shared, other, times, &passed);
    let (pass, report) = served_by(rt, alloc, shared, pass, gate, link);
    (pass, passed.load(Ordering::SeqCst), report)
}

/// What came of a session: how often its gate was passed, the points of its replies, and the text of the last revision.
fn told<K: Keeper>(
    alloc: Global,
    wiki: &Wiki<K>,
    passed: u64,
    report: Option<SessionReport>,
) -> Result<String, Memory> {
    let Some(report) = report else {
        return Err(Memory);
    };
    let (tables, points) = (wiki.tables()?, &report.points);
    let text = match tables.revisions().last() {
        Some(row) => row.rev_text.as_str(),
        None => "",
    };
    Ok(format!(in alloc; "{passed} {points:?} {text}")?)
}

/// What came of a session on a wiki over this keeper, at whose gate another caller saves the template so many times.
fn told_beside<K: Keeper, R: Wait>(
    rt: &R,
    alloc: Global,
    keeper: K,
    times: u64,
) -> Result<String, Memory> {
    let mut link = linked(alloc)?;
    let (shared, mut pass) = begun(alloc, keeper)?;
    save(rt, alloc, &shared, &mut pass, "Template:T", "t0");
    save(rt, alloc, &shared, &mut pass, "Template:U", "u");
    let (pass, passed, report) = match shared.split(&mut pass) {
        Ok(other) => served_beside(rt, alloc, &shared, pass, other, times, &mut link),
        Err(_) => (pass, 0, None),
    };
    let wiki = shared.finish(rt, pass);
    let told = told(alloc, &wiki, passed, report);
    let _keeper = wiki.release();
    told
}

/// How often the template is saved at most, and what comes of it: nobody else saves; the template is saved between the first
/// transform and the save, so the save has what it is then; it is saved at each try, so that the fourth transform is made with
/// the turn held, at no gate.
const SAVES: [(u64, &str); 4] = [
    (0, "1 [3] t0u"),
    (1, "2 [4] t1u"),
    (2, "3 [5] t2u"),
    (9, "3 [6] t3u"),
];

#[test]
fn a_transform_that_is_overtaken_is_made_again(rt: HostRuntime) -> Result<(), Fail> {
    for (times, want) in SAVES {
        let keeper = MemKeeper::new(Tables::new(rt.alloc()));
        let told = told_beside(&rt, rt.alloc(), keeper, times)?;
        assert_eq!(rt; told.as_str(), want, "{times}");
    }
    Ok(())
}

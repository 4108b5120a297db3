//! A session beside which another caller saves a page.
ghost use Rattle.std.specs.Prelude.{◌<◌, ◌≤◌, length, None};
ghost use Rattle.wk_part_tests.specs.Ready.{IsReady};

use crate::shared::{begun, served_by};
use std::alloc::Global;
use std::marker::Model;
use std::sync::Wait;
use std::sync::atomic::{AtomicU64, Ordering};
use std::test::Fail;
use wk_base::{Failed, Sink, Source};
use wk_core::Keeper;
use wk_keeper::MemKeeper;
use wk_link::Link;
use wk_memory::Memory;
use wk_readers::Gate;
use wk_session::SessionReport;
use wk_shared::{Edit, Pass, Shared, Wiki};
use wk_tables::Tables;

/// A gate that counts, where others see it, how often it is passed.
#[derive(Drop)]
struct Counting<'a> {
    passed: &'a AtomicU64,
}

impl Gate for Counting<'_> {
    fn pass(&mut self) {
        self.passed.fetch_add(1, Ordering::SeqCst);
    }
}

/// A message that saves a page which includes another one, one that asks for it, and one that asks for it at the point of what
/// the other caller saves in between.
const MESSAGES: [&str; 3] = [
    "POST /api.php HTTP/1.1\r\nContent-Length: 43\r\n\r\naction=edit&title=A&text={{T}}&token=%2B%5C",
    "GET /api.php?action=parse&page=A HTTP/1.1\r\nHost: localhost\r\n\r\n",
    "GET /api.php?action=parse&page=A&minpoint=4 HTTP/1.1\r\nHost: localhost\r\n\r\n",
];

/// The edit that the other caller makes: of the page that the first one includes.
fn edit(alloc: Global) -> Result<Edit, Memory> {
    Ok(Edit {
        title: String::from_str(alloc, "Template:T")?,
        body: Some(String::from_str(alloc, "x")?),
        base: None,
        create_only: false,
        no_create: false,
    })
}

/// Makes that edit. Where memory runs out nothing is saved.
fn save<K: Keeper, R: Wait>(rt: &R, alloc: Global, shared: &Shared<K>, pass: &mut Pass<Wiki<K>>)
    requires { IsReady shared.now pass.old }
    ensures { IsReady shared.now pass.new }
{
    if let Ok(edit) = edit(alloc) {
        let (_answer, _point) = shared.save(rt, pass, &edit, 0);
    }
}

/// A connection by which the messages come, one at each read. When the last one is read another caller has just saved a page,
/// by a pass of its own. It tells nothing.
#[derive(Drop)]
struct SavingLink<'a, K: Keeper, R: Wait> {
    rt: &'a R,
    alloc: Global,
    shared: &'a Shared<K>,
    /// The other caller's pass.
    pass: Pass<Wiki<K>>,
    /// How many reads were made.
    reads: u8,
    passed: &'a AtomicU64,
    /// How often the gate was passed when each of the last three replies was sent.
    counts: [u64; 3],
    /// The last reply; where memory ran out, its beginning.
    last: Vec<u8>,
}

impl<'a, K: Keeper, R: Wait> Model for SavingLink<'a, K, R> {
    ghost use Rattle.wk_wiki_rules.specs.Events.{Event};
    ghost use Rattle.wk_wiki_rules.specs.Starts.{Start};
    ghost use Rattle.wk_turn.specs.Told.{Story};
    ghost use Rattle.wk_part_tests.specs.Ready.{IsReady};

    ghost Value = { Story Start Event };

    ghost view = { λ l. l.pass };

    ghost invariant = { λ l. IsReady l.shared.now l.pass };
}

/// Puts as much of a message into the room as it takes; how many bytes that is.
fn put(message: &[u8], room: &mut [u8]) -> usize
    ensures { result ≤ length room.old }
{
    let n = message.len().min(room.len());
    room[..n].copy_from_slice(&message[..n]);
    n
}

impl<'a, K: Keeper, R: Wait> SavingLink<'a, K, R> {
    /// A connection of which nothing was read yet.
    fn new(
        rt: &'a R,
        alloc: Global,
        shared: &'a Shared<K>,
        pass: Pass<Wiki<K>>,
        passed: &'a AtomicU64,
    ) -> SavingLink<'a, K, R>
        requires { IsReady shared.now pass }
    {
        SavingLink {
            rt,
            alloc,
            shared,
            pass,
            reads: 0,
            passed,
            counts: [0; 3],
            last: Vec::new(alloc),
        }
    }

    /// The next message. Before the last one a page is saved.
    fn next(&mut self) -> &'static str {
        let read = self.reads;
        self.reads = read.saturating_add(1);
        match read {
            0 => MESSAGES[0],
            1 => MESSAGES[1],
            2 => {
                save(self.rt, self.alloc, self.shared, &mut self.pass);
                MESSAGES[2]
            }
            _ => "",
        }
    }

    /// Takes a reply.
    fn take(&mut self, reply: &[u8]) {
        let [_, second, third] = self.counts;
        self.counts = [second, third, self.passed.load(Ordering::SeqCst)];
        self.last.clear();
        let _lost = self.last.extend_from_slice(reply);
    }
}

impl<K: Keeper, R: Wait> Source for SavingLink<'_, K, R> {
    ghost rest = { λ _. None };

    ghost faults = { λ _. 0 };

    fn read(&mut self, room: &mut [u8]) -> Result<usize, Failed> {
        Ok(put(self.next().as_bytes(), room))
    }
}

impl<K: Keeper, R: Wait> Sink for SavingLink<'_, K, R> {
    ghost taken = { λ _. None };

    ghost faults = { λ _. 0 };

    fn write(&mut self, piece: &[u8]) -> Result<usize, Failed> {
        self.take(piece);
        Ok(piece.len())
    }
}

impl<K: Keeper, R: Wait> Link for SavingLink<'_, K, R> {
    fn receive(&mut self, room: &mut [u8]) -> Result<usize, Failed> {
        Ok(put(self.next().as_bytes(), room))
    }

    fn send(&mut self, piece: &[u8]) -> Result<usize, Failed> {
        self.take(piece);
        Ok(piece.len())
    }
}

/// What is told of a session: how often its gate was passed before each reply, the points of the replies, and the last reply.
fn told<K: Keeper, R: Wait>(
    alloc: Global,
    link: &SavingLink<'_, K, R>,
    report: Option<SessionReport>,
) -> Result<String, Memory> {
    let Some(report) = report else {
        return Err(Memory);
    };
    let (counts, points) = (&link.counts, &report.points);
    let last = str::from_utf8(&link.last).unwrap_or("no text");
    Ok(format!(in alloc; "{counts:?} {points:?} {last}")?)
}

/// A session by one pass, beside which the other one saves. The first one comes back.
fn served_beside<K: Keeper, R: Wait>(
    rt: &R,
    alloc: Global,
    shared: &Shared<K>,
    pass: Pass<Wiki<K>>,
    other: Pass<Wiki<K>>,
) -> (Pass<Wiki<K>>, Result<String, Memory>)
    requires pass { IsReady shared.now pass }
    requires other { IsReady shared.now other }
    ensures { IsReady shared.now result.0 }
{
    let passed = AtomicU64::new(0);
    let mut link = SavingLink::new(rt, alloc, shared, other, &passed);
    let gate = Counting { passed: &passed };
    let (pass, report) = served_by(rt, alloc, shared, pass, gate, &mut link);
    (pass, told(alloc, &link, report))
}

/// What is told of a session on a wiki over this keeper, beside which another caller saves.
fn told_beside<K: Keeper, R: Wait>(rt: &R, alloc: Global, keeper: K) -> Result<String, Memory> {
    let (shared, mut pass) = begun(alloc, keeper)?;
    let (pass, told) = match shared.split(&mut pass) {
        Ok(other) => served_beside(rt, alloc, &shared, pass, other),
        Err(memory) => (pass, Err(memory)),
    };
    let _keeper = shared.finish(rt, pass).release();
    told
}

/// The gate was passed by the step behind the first reply, and by the draft of each read: so that is made without the turn, at
/// first and again behind the other caller's save. The point of that save is reached.
const TOLD: &str =
    "[0, 2, 3] [1, 3, 4] HTTP/1.1 200 OK\r\nContent-Type: application/json; charset=utf-8\r\nContent-Length: 141\r\n\r\n\
{\"parse\":{\"categories\":[],\"expanded\":\"x\",\"links\":[],\"pageid\":1,\"revid\":1,\"templates\":[{\"ns\":10,\"title\":\"Template:T\"}],\"title\":\"A\"},\"point\":4}";

#[test]
fn a_session_reads_what_another_caller_saved(rt: HostRuntime) -> Result<(), Fail> {
    let told = told_beside(&rt, rt.alloc(), MemKeeper::new(Tables::new(rt.alloc())))?;
    assert_eq!(rt; told.as_str(), TOLD);
    Ok(())
}

//! The program `wiki`: a thin `main` over the top call.
#![tactic(auto)]

use std::alloc::Global;
use std::process::ExitCode;
use std::rt::Env;
use std::sync::Wait;
use std::thread::Threads;
use std::{env, io};
use wk_bad_rows::{RowKey, key_in_store, rule_text};
use wk_base::{Clock, NoGate, ReadSource, Sink, Source, SystemClock, WriteSink};
use wk_cli::{Finish, wiki_main};
use wk_core::BadStore;
use wk_door::Door;
use wk_net::TcpDoor;
use wk_vault::{Closed, FileVault, SqlCause, Stored, close_opened};
use wk_words::{Command, read, refusal_text};

/// The words of the command line, the program's name first.
fn words(rt: &(impl Env + AllocGlobal)) -> io::Result<Vec<String>> {
    let mut words = Vec::new(rt.alloc());
    for word in env::args(rt)? {
        words.push(word)?;
    }
    Ok(words)
}

/// What a status that isn't 0 means.
fn meaning(status: u8) -> &'static str {
    match status {
        1 => "memory ran out",
        2 => "the words aren't a legal command; wiki --help shows those that are",
        3 => "a read of the standard input failed",
        4 => "a write of the standard output failed",
        5 => "the store couldn't be opened, or failed",
        6 => "the address couldn't be listened at, or a connection couldn't be accepted",
        7 => "the store is bad: a row breaks a rule",
        8 => "the link rows of a page aren't those of a new expansion",
        9 => "2^40 bytes were read",
        10 => "the journal or the wiki is full",
        11 =>
            "the feed is bad: a line breaks the rule of feeds, or the input ended before the start",
        _ => "the program ended early",
    }
}

/// Whether the command makes a store that isn't there: some would tell nothing of it, and one opens none.
fn is_made_by(command: Command) -> bool {
    match command {
        Command::Script | Command::Serve | Command::Generate => true,
        Command::Jobs | Command::Check | Command::Report | Command::Replica => false,
    }
}

/// What the words say to what stands outside.
#[derive(Clone, Copy)]
struct Outside<'a> {
    /// Whether a store that isn't there is made.
    makes: bool,
    /// The store's name.
    store: &'a str,
    /// The address to listen at.
    listen: &'a str,
}

/// What these words say; where they are refused, nothing that counts.
fn said_by<'a>(alloc: Global, words: &'a [String]) -> Outside<'a> {
    match read(alloc, words) {
        Ok(line) => Outside {
            makes: is_made_by(line.command),
            store: line.store,
            listen: line.listen,
        },
        Err(_) => Outside {
            makes: false,
            store: "",
            listen: "",
        },
    }
}

/// Tells why nobody can connect to the address, if a call of the door failed.
fn tell_door(rt: &HostRuntime, address: &str, error: Option<io::Error>) -> io::Result<()> {
    match error {
        Some(error) => eprintln!(rt; "wiki: {address}: {error}"),
        None => Ok(()),
    }
}

/// Tells which row breaks which rule of a good store: its table and its key, where these could be looked up, and the rule in
/// words.
fn tell_bad(rt: &HostRuntime, rule: u8, key: Option<RowKey>) -> io::Result<()> {
    if let Some(key) = key {
        eprintln!(rt; "the row: {key}")?;
    }
    eprintln!(rt; "the rule: {}", rule_text(rule))
}

/// Tells a status, and the row that breaks a rule of a good store, if one does.
fn tell_status(rt: &HostRuntime, status: u8, bad: Option<BadRow>) -> io::Result<()> {
    match bad {
        Some(
            BadRow {
                store: BadStore { rule, row },
                key,
            },
        ) => {
            eprintln!(rt; "wiki: status {status} rule {rule} row {row}")?;
            tell_bad(rt, rule, key)
        }
        None => eprintln!(rt; "wiki: status {status}"),
    }
}

/// Tells a status that isn't 0 on the standard error: what is wrong with the words, if anything; the status with the bad
/// row, if any; and what the status means.
fn tell(rt: &HostRuntime, words: &[String], status: u8, bad: Option<BadRow>) -> io::Result<()> {
    if status == 0 {
        return Ok(());
    }
    if let Ok(Some(text)) = refusal_text(rt.alloc(), words) {
        eprint!(rt; "{text}")?;
    }
    tell_status(rt, status, bad)?;
    eprintln!(rt; "{}", meaning(status))
}

/// A row that breaks a rule of a good store, and its key, where that could be looked up.
#[derive(Drop)]
struct BadRow {
    store: BadStore,
    key: Option<RowKey>,
}

/// The row that breaks a rule, if one does, with its key in the store.
fn bad_row(store: &mut Option<Stored>, bad: Option<BadStore>) -> Option<BadRow> {
    let bad = bad?;
    let key = match store {
        Some(store) => key_in_store(store, bad),
        None => None,
    };
    Some(BadRow { store: bad, key })
}

/// How the program ended, with its store ended too.
struct Ended {
    status: u8,
    bad: Option<BadRow>,
    closed: Result<Option<Closed>, SqlCause>,
}

/// Makes the top call, looks up the row that breaks a rule, if one does, and ends the store.
fn ran<I: Source + Send, O: Sink + Send, C: Clock + Send, D: Door + Send, R: Threads + Wait + Sync>(
    rt: &R,
    alloc: Global,
    words: &[String],
    vault: &mut FileVault<'_>,
    input: &mut I,
    output: &mut O,
    clock: &mut C,
    door: &mut D,
) -> Ended
where
    D::Link: Send,
{
    let Finish {
        status,
        points: _,
        bad,
        mut store,
    } = wiki_main(rt, alloc, words, vault, input, output, clock, door, NoGate);
    let bad = bad_row(&mut store, bad);
    let closed = close_opened(store);
    Ended {
        status,
        bad,
        closed,
    }
}

/// Tells where the log of the store wasn't copied into its file, and why.
fn tell_log(rt: &HostRuntime, closed: Result<Option<Closed>, SqlCause>) -> io::Result<()> {
    match closed {
        Ok(_) => Ok(()),
        Err(cause) => eprintln!(rt;
            "wiki: the store's log couldn't be copied into its file: {cause}; nothing is lost: keep both"
        ),
    }
}

/// Tells on the standard error what there is to tell of the end: why the store wasn't opened, why nobody can connect, the
/// status and what it means, and why the store's log wasn't copied into its file.
fn tell_end(
    rt: &HostRuntime,
    words: &[String],
    said: Outside<'_>,
    vault: &FileVault<'_>,
    error: Option<io::Error>,
    ended: Ended,
) -> io::Result<()> {
    let Ended {
        status,
        bad,
        closed,
    } = ended;
    vault.tell_cause(said.store)?;
    tell_door(rt, said.listen, error)?;
    tell(rt, words, status, bad)?;
    tell_log(rt, closed)
}

fn main(rt: HostRuntime) -> io::Result<ExitCode> {
    let words = words(&rt)?;
    let said = said_by(rt.alloc(), &words);
    let mut vault = FileVault::new(&rt, said.makes);
    let mut input = ReadSource::new(rt.reader());
    let mut output = WriteSink::new(io::writer(&rt));
    let mut clock = SystemClock::new(&rt);
    let mut door = TcpDoor::new(&rt);
    let ended = ran(
        &rt,
        rt.alloc(),
        &words,
        &mut vault,
        &mut input,
        &mut output,
        &mut clock,
        &mut door,
    );
    let status = ended.status;
    tell_end(&rt, &words, said, &vault, door.error(), ended)?;
    Ok(ExitCode::from(status))
}

//! Reading a command line.
ghost use Rattle.std.specs.Prelude.{◌≡◌, ◌≤◌, ℕ, [], IfOk, IfErr, IfSome, IsErr, MatchResult, Some, None, true, codes, is_some, string_bytes, unwrap_or};
ghost use Rattle.std.specs.List.{All};
ghost use Rattle.clap.specs.Words.{app_of, first_of, found_of, fault_of, kind_of, matches_of, rows_of};
ghost use Rattle.clap.specs.Kinds.{HasKind};
ghost use Rattle.wk_words.specs.Answers.{IsInRange, IsWithin, KeepsRange, Shows, Tells, option_of, texts, wanted_of};
ghost use Rattle.wk_words.specs.Commands.{command_named};
ghost use Rattle.wk_words.specs.Options.{numbers, wiki_app};
ghost use Rattle.wk_words.specs.Reports.{report_named};
ghost use Rattle.wk_words.specs.Verdicts.{flag_in, number_in, is_refused, refused, runs, text_in, verdict, wanted_in};

use crate::commands::{Command, command_named};
use crate::options::{
    JOURNAL_LIMIT, LISTEN, MAX_CONNECTIONS, MOST, NUMBER, NumberOption, PAGES, PROCS, REPORT,
    WORKERS, wiki_app,
};
use crate::refusals::Refusal;
use crate::reports::report_named;
use clap::error::ErrorKind;
use clap::{ArgMatches, Error};
use std::alloc::{AllocError, Global};
use wk_bytes::decimal;
use wk_memory::Memory;
use wk_report_rules::Report;

/// What a legal command line asks for. Each option has the value that is given, or its default.
#[derive(Clone, Copy)]
pub struct CommandLine<'a> {
    /// What to do.
    pub command: Command,
    /// The name of the store; by default empty, for a store in memory.
    pub store: &'a str,
    /// The address on which connections come in; by default `127.0.0.1:8080`.
    pub listen: &'a str,
    /// How many connections are served at once: 1 to 64, by default 4.
    pub workers: u64,
    /// How many threads do the jobs: 1 to 64, by default 1.
    pub procs: u64,
    /// How many connections are accepted: 1 to 1,000,000,000, by default 1,000,000.
    pub max_connections: u64,
    /// How many pages are generated: 1 to 10,000, by default 50.
    pub pages: u32,
    /// The number that the generated texts are drawn from: 0 to 4,294,967,295, by default 1.
    pub number: u32,
    /// The greatest number of events between two restarts: 1 to 33,554,432, which is the default.
    pub journal_limit: u64,
    /// How many lines a report has at most: 1 to 1,000,000, by default 50.
    pub most: u64,
    /// What is reported, by default wanted titles.
    pub report: Report,
    /// Whether `serve` writes its feed; by default it doesn't.
    pub feed: bool,
}

/// What `clap` takes, and the rules of this program don't.
#[derive(Clone, Copy)]
enum Misuse<'a> {
    /// The number of an option is written with a sign or a leading zero.
    Number {
        /// The option.
        name: &'static str,
        /// What is written.
        value: &'a str,
    },
    /// The word names no command that stands.
    Command(&'a str),
    /// The word names no report that stands.
    Report(&'a str),
}

/// The text that is given, or what stands for it.
fn read_text<'a>(matches: &ArgMatches<'a>, name: &str, default: &'static str) -> &'a str
    ensures { result.now ≡ text_in name.now default.entry.now (rows_of (found_of matches.now)) }
{
    match matches.get_str(name) {
        Some(text) => text,
        None => default,
    }
}

/// The number that is given, or what stands for it.
fn read_number<'a>(matches: &ArgMatches<'a>, option: &NumberOption) -> Result<u64, Misuse<'a>>
    requires default { IsWithin (option_of option.now) option.now.default }
    requires range { KeepsRange (rows_of (found_of matches.now)) (option_of option.now) }
    ensures ok { IfOk result (λ n. number_in (option_of option.now) (rows_of (found_of matches.now)) ≡ Some n) }
    ensures within { IfOk result (IsWithin (option_of option.now)) }
    ensures err { IsErr result → number_in (option_of option.now) (rows_of (found_of matches.now)) ≡ None }
{
    let Some(value) = matches.get_str(option.name) else {
        return Ok(option.default);
    };
    match decimal(value.as_bytes()) {
        Some(number) => Ok(number),
        None => Err(Misuse::Number {
            name: option.name,
            value,
        }),
    }
}

/// The command that is named.
fn read_command<'a>(matches: &ArgMatches<'a>) -> Result<Command, Misuse<'a>>
    ensures ok { IfOk result (λ command. command_named (text_in (codes "command") [] (rows_of (found_of matches.now))) ≡ Some command) }
    ensures err { IsErr result → command_named (text_in (codes "command") [] (rows_of (found_of matches.now))) ≡ None }
{
    let word = read_text(matches, "command", "");
    match command_named(word) {
        Some(command) => Ok(command),
        None => Err(Misuse::Command(word)),
    }
}

/// The report that is named, or the one that stands for it.
fn read_report<'a>(matches: &ArgMatches<'a>) -> Result<Report, Misuse<'a>>
    ensures ok { IfOk result (λ report. report_named (text_in (codes "report") (codes "wanted") (rows_of (found_of matches.now))) ≡ Some report) }
    ensures err { IsErr result → report_named (text_in (codes "report") (codes "wanted") (rows_of (found_of matches.now))) ≡ None }
{
    let word = read_text(matches, "report", REPORT);
    match report_named(word) {
        Some(report) => Ok(report),
        None => Err(Misuse::Report(word)),
    }
}

/// Whether the flag is given.
fn read_flag<'a>(matches: &ArgMatches<'a>, name: &str) -> bool
    ensures { result ≡ flag_in name.now (rows_of (found_of matches.now)) }
{
    let text = read_text(matches, name, "false");
    text == "true"
}

/// What matches ask for.
fn command_line<'a>(matches: &ArgMatches<'a>) -> Result<CommandLine<'a>, Misuse<'a>>
    requires { All (KeepsRange (rows_of (found_of matches.now))) numbers }
    ensures ok { IfOk result (λ line. wanted_in (rows_of (found_of matches.now)) ≡ Some (wanted_of line)) }
    ensures within { IfOk result IsInRange }
    ensures err { IsErr result → wanted_in (rows_of (found_of matches.now)) ≡ None }
{
    let command = read_command(matches)?;
    let workers = read_number(matches, &WORKERS)?;
    let procs = read_number(matches, &PROCS)?;
    let max_connections = read_number(matches, &MAX_CONNECTIONS)?;
    let pages = read_number(matches, &PAGES)?;
    let number = read_number(matches, &NUMBER)?;
    let journal_limit = read_number(matches, &JOURNAL_LIMIT)?;
    let most = read_number(matches, &MOST)?;
    let report = read_report(matches)?;
    Ok(CommandLine {
        command,
        store: read_text(matches, "store", ""),
        listen: read_text(matches, "listen", LISTEN),
        workers,
        procs,
        max_connections,
        pages: pages as u32,
        number: number as u32,
        journal_limit,
        most,
        report,
        feed: read_flag(matches, "feed"),
    })
}

/// A refusal that shows what `clap` says.
fn shown(alloc: Global, error: &Error) -> Refusal
    ensures { Shows (kind_of error.now) result }
{
    let Ok(text) = format!(in alloc; "{error}") else {
        return Refusal::Memory;
    };
    match error.kind() {
        ErrorKind::DisplayHelp => Refusal::Help(text),
        ErrorKind::DisplayVersion => Refusal::Version(text),
        ErrorKind::OutOfMemory => Refusal::Memory,
        _ => Refusal::Words(text),
    }
}

/// What is wrong, in `clap`'s words.
fn misuse_error(
    alloc: Global,
    app: &mut clap::Command<'_>,
    misuse: Misuse<'_>,
) -> Result<Error, AllocError> {
    match misuse {
        Misuse::Number { name, value } => {
            let message = format!(in alloc;
                "invalid value '{value}' for '--{name} <N>': a number is decimal digits without a sign or a leading zero"
            )?;
            app.error(ErrorKind::ValueValidation, message.as_str())
        }
        Misuse::Command(word) => {
            let message = format!(in alloc;
                "unrecognized command '{word}'\n  [commands: script, serve, jobs, check, gen, report, replica]"
            )?;
            app.error(ErrorKind::InvalidValue, message.as_str())
        }
        Misuse::Report(word) => {
            let message = format!(in alloc;
                "invalid value '{word}' for '--report <REPORT>'\n  [possible values: wanted, orphaned, uncategorized, doubleredirects, mosttemplates]"
            )?;
            app.error(ErrorKind::InvalidValue, message.as_str())
        }
    }
}

/// The refusal of words that `clap` takes.
fn misused(alloc: Global, app: &mut clap::Command<'_>, misuse: Misuse<'_>) -> Refusal
    ensures { Tells refused result }
{
    let Ok(error) = misuse_error(alloc, app, misuse) else {
        return Refusal::Memory;
    };
    match format!(in alloc; "{error}") {
        Ok(text) => Refusal::Words(text),
        Err(_) => Refusal::Memory,
    }
}

/// What `clap` finds in the words.
fn matched<'a>(app: &mut clap::Command<'a>, words: &'a [String]) -> Result<ArgMatches<'a>, Error>
    requires { app_of app.old ≡ wiki_app }
    ensures taken { IfOk result (λ _. fault_of wiki_app (texts words.entry.now) ≡ []) }
    ensures rows { IfOk result (λ matches. rows_of (found_of matches) ≡ matches_of wiki_app (texts words.entry.now)) }
    ensures ranges { IfOk result (λ matches. All (KeepsRange (rows_of (found_of matches))) numbers) }
    ensures err { IfErr result (HasKind (fault_of wiki_app (texts words.entry.now))) }
{
    app.try_get_matches_from_mut(words)
}

/// What the words ask for, as `app` reads them.
fn read_by<'a>(
    alloc: Global,
    app: &mut clap::Command<'a>,
    words: &'a [String],
) -> Result<CommandLine<'a>, Refusal>
    requires { app_of app.old ≡ wiki_app }
    ensures asked { IfOk result (λ line. verdict (texts words.entry.now) ≡ runs (wanted_of line)) }
    ensures within { IfOk result IsInRange }
    ensures refused { IfErr result (Tells (verdict (texts words.entry.now))) }
{
    let matches = match matched(app, words) {
        Ok(matches) => matches,
        Err(error) => return Err(shown(alloc, &error)),
    };
    match command_line(&matches) {
        Ok(line) => Ok(line),
        Err(misuse) => Err(misused(alloc, app, misuse)),
    }
}

/// What the words ask for, of which the first is the program's name.
///
/// # Errors
///
/// - `Words`: `clap` refuses them, and not to show help or the version; or a number is written with a sign or a leading
///   zero; or a word names no command or no report that stands.
/// - `Help` and `Version`: `--help` or `-h`, `--version` or `-V` stand before anything that `clap` refuses.
/// - `Memory`: memory ran out.
pub fn read<'a>(alloc: Global, words: &'a [String]) -> Result<CommandLine<'a>, Refusal>
    ensures asked { IfOk result (λ line. verdict (texts words.entry.now) ≡ runs (wanted_of line)) }
    ensures within { IfOk result IsInRange }
    ensures refused { IfErr result (Tells (verdict (texts words.entry.now))) }
{
    let mut app = wiki_app(alloc)?;
    read_by(alloc, &mut app, words)
}

/// What is to be written on standard error for words that are refused, and `None` for all others: those that ask for
/// something, for help or for the version.
///
/// # Errors
///
/// `Memory`, which may come at any words.
pub fn refusal_text(alloc: Global, words: &[String]) -> Result<Option<String>, Memory>
    ensures { IfOk result (λ text. is_some text ≡ is_refused (verdict (texts words.now))) }
{
    match read(alloc, words) {
        Err(Refusal::Words(text)) => Ok(Some(text)),
        Err(Refusal::Memory) => Err(Memory),
        _ => Ok(None),
    }
}

//! What `clap` is told of the command line.
ghost use Rattle.std.specs.Prelude.{◌≡◌, false, IfOk, codes};
ghost use Rattle.clap.specs.Words.{app_of, rule_of, with_rule};
ghost use Rattle.wk_words.specs.Answers.{option_of};
ghost use Rattle.wk_words.specs.Options.{bare_app, command_rule, flag_rule, journal_limit, max_connections, most_lines, number, number_rule, pages, procs, text_rule, wiki_app, workers};

use clap::builder::ValueParser;
use clap::{Arg, ArgAction};
use std::alloc::{AllocError, Global};

/// An option whose value is a number.
#[derive(Clone, Copy)]
pub(crate) struct NumberOption {
    /// Its name, which stands behind two hyphens.
    pub(crate) name: &'static str,
    /// The least number that it takes.
    pub(crate) least: u64,
    /// The greatest number that it takes.
    pub(crate) most: u64,
    /// The number that stands for the option where it isn't given.
    pub(crate) default: u64,
    /// What help says of it.
    pub(crate) help: &'static str,
}

pub(crate) const WORKERS: NumberOption = NumberOption {
    name: "workers",
    least: 1,
    most: 64,
    default: 4,
    help: "Connections served at once, 1 to 64 [default: 4]",
};

pub(crate) const PROCS: NumberOption = NumberOption {
    name: "procs",
    least: 1,
    most: 64,
    default: 1,
    help: "Threads that do the jobs, 1 to 64 [default: 1]",
};

pub(crate) const MAX_CONNECTIONS: NumberOption = NumberOption {
    name: "max-connections",
    least: 1,
    most: 1_000_000_000,
    default: 1_000_000,
    help: "Connections after which serving ends, 1 to 1000000000 [default: 1000000]",
};

pub(crate) const PAGES: NumberOption = NumberOption {
    name: "pages",
    least: 1,
    most: 10_000,
    default: 50,
    help: "Pages that gen generates, 1 to 10000 [default: 50]",
};

pub(crate) const NUMBER: NumberOption = NumberOption {
    name: "number",
    least: 0,
    most: 4_294_967_295,
    default: 1,
    help: "Number that gen draws the texts from, 0 to 4294967295 [default: 1]",
};

pub(crate) const JOURNAL_LIMIT: NumberOption = NumberOption {
    name: "journal-limit",
    least: 1,
    most: 33_554_432,
    default: 33_554_432,
    help: "Events between two restarts, 1 to 33554432 [default: 33554432]",
};

pub(crate) const MOST: NumberOption = NumberOption {
    name: "most",
    least: 1,
    most: 1_000_000,
    default: 50,
    help: "Lines of a report, 1 to 1000000 [default: 50]",
};

/// Where connections come in by default.
pub(crate) const LISTEN: &str = "127.0.0.1:8080";

/// What is reported by default.
pub(crate) const REPORT: &str = "wanted";

const VERSION: &str = "0.1.0";

const ABOUT: &str = "A MediaWiki engine: pages with transclusion, link tables and refresh jobs.

Commands:
  script  answers the lines of standard input, one line of JSON for each that isn't empty
  serve   serves the connections that come in at an address, as the API of a wiki, and
          prints `listening on ADDRESS`, and at its end `served N`; with --feed it prints
          the wiki as lines, its tables and then each event
  jobs    does the jobs of the store until none is left, and prints `jobs 0`
  check   compares the link rows of each page with a new expansion of it, and prints
          `differ TITLE` for each page that differs, then `pages N differ M`
  gen     generates pages, does their jobs and checks them, and prints
          `pages N revisions R jobs 0 differ M`
  report  prints the lines of a report, each a count and titles, and then `lines N`
  replica reads what serve --feed prints from standard input, answers what is read of
          that wiki at an address meanwhile, and prints `replica N`, its events, at its end";

const EXAMPLES: &str = "Examples:
  wiki gen --pages 1000
  wiki serve --store wiki.db --listen 127.0.0.1:8080
  echo 'api action=query&meta=siteinfo' | wiki script

Each option is taken with each command, at most once. Numbers are decimal digits without a sign or a leading zero.";

/// The command's word.
fn command_arg<'a>(alloc: Global) -> Arg<'a>
    ensures rule { rule_of result ≡ command_rule }
    ensures local { result.global ≡ false }
{
    Arg::new(alloc, "command")
        .value_name("COMMAND")
        .required(true)
        .help("What to do: script, serve, jobs, check, gen, report or replica")
}

/// An option whose value is any text.
fn text_arg<'a>(
    alloc: Global,
    name: &'static str,
    value: &'static str,
    help: &'static str,
) -> Arg<'a>
    ensures rule { rule_of result ≡ text_rule name.entry.now }
    ensures local { result.global ≡ false }
{
    Arg::new(alloc, name)
        .long(name)
        .value_name(value)
        .help(help)
}

/// An option whose value is a number.
fn number_arg<'a>(alloc: Global, option: &NumberOption) -> Arg<'a>
    ensures rule { rule_of result ≡ number_rule (option_of option.now) }
    ensures local { result.global ≡ false }
{
    Arg::new(alloc, option.name)
        .long(option.name)
        .value_name("N")
        .value_parser(ValueParser::unsigned(option.least, option.most))
        .help(option.help)
}

/// An option that has no value.
fn flag_arg<'a>(alloc: Global, name: &'static str, help: &'static str) -> Arg<'a>
    ensures rule { rule_of result ≡ flag_rule name.entry.now }
    ensures local { result.global ≡ false }
{
    Arg::new(alloc, name)
        .long(name)
        .action(ArgAction::SetTrue)
        .help(help)
}

/// The program, which has a version, and no argument yet.
fn bare_app<'a>(alloc: Global) -> clap::Command<'a>
    ensures { app_of result ≡ bare_app }
{
    clap::Command::new(alloc, "wiki")
        .version(VERSION)
        .about(ABOUT)
        .after_help(EXAMPLES)
}

/// The command's word, and the options whose values are texts.
fn with_texts<'a>(alloc: Global, app: clap::Command<'a>) -> Result<clap::Command<'a>, AllocError>
    ensures { IfOk result (λ with. app_of with
        ≡ with_rule (with_rule (with_rule (app_of app.entry) command_rule) (text_rule (codes "store"))) (text_rule (codes "listen"))) }
{
    let store = text_arg(
        alloc,
        "store",
        "NAME",
        "Where the store is kept [default: in memory]",
    );
    let listen = text_arg(
        alloc,
        "listen",
        "ADDRESS",
        "Where connections come in [default: 127.0.0.1:8080]",
    );
    app.arg(command_arg(alloc))?.arg(store)?.arg(listen)
}

/// The options whose values are numbers, of which three come first.
fn with_first_numbers<'a>(
    alloc: Global,
    app: clap::Command<'a>,
) -> Result<clap::Command<'a>, AllocError>
    ensures { IfOk result (λ with. app_of with
        ≡ with_rule (with_rule (with_rule (app_of app.entry) (number_rule workers)) (number_rule procs)) (number_rule max_connections)) }
{
    let workers = number_arg(alloc, &WORKERS);
    let procs = number_arg(alloc, &PROCS);
    let max_connections = number_arg(alloc, &MAX_CONNECTIONS);
    app.arg(workers)?.arg(procs)?.arg(max_connections)
}

/// Three more.
fn with_more_numbers<'a>(
    alloc: Global,
    app: clap::Command<'a>,
) -> Result<clap::Command<'a>, AllocError>
    ensures { IfOk result (λ with. app_of with
        ≡ with_rule (with_rule (with_rule (app_of app.entry) (number_rule pages)) (number_rule number)) (number_rule journal_limit)) }
{
    let pages = number_arg(alloc, &PAGES);
    let number = number_arg(alloc, &NUMBER);
    let journal_limit = number_arg(alloc, &JOURNAL_LIMIT);
    app.arg(pages)?.arg(number)?.arg(journal_limit)
}

/// What a report is, and the flag.
fn with_report<'a>(alloc: Global, app: clap::Command<'a>) -> Result<clap::Command<'a>, AllocError>
    ensures { IfOk result (λ with. app_of with
        ≡ with_rule (with_rule (with_rule (app_of app.entry) (number_rule most_lines)) (text_rule (codes "report"))) (flag_rule (codes "feed"))) }
{
    let most = number_arg(alloc, &MOST);
    let report = text_arg(
        alloc,
        "report",
        "REPORT",
        "What is reported: wanted, orphaned, uncategorized, doubleredirects or mosttemplates [default: wanted]",
    );
    let feed = flag_arg(
        alloc,
        "feed",
        "Whether serve prints its feed in the place of its lines",
    );
    app.arg(most)?.arg(report)?.arg(feed)
}

/// The command line as `clap` reads it.
pub(crate) fn wiki_app<'a>(alloc: Global) -> Result<clap::Command<'a>, AllocError>
    ensures { IfOk result (λ app. app_of app ≡ wiki_app) }
{
    let texts = with_texts(alloc, bare_app(alloc))?;
    let numbers = with_first_numbers(alloc, texts)?;
    let all_numbers = with_more_numbers(alloc, numbers)?;
    with_report(alloc, all_numbers)
}

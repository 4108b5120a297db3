//! The commands that stand.
ghost use Rattle.std.specs.Prelude.{◌≡◌, bytes_eq};
ghost use Rattle.wk_words.specs.Commands.{command_named};

/// A command of the program, which the one word without an option names.
#[derive(Clone, Copy, PartialEq, Eq)]
pub enum Command {
    /// `script`: the lines of the input are answered one after the other.
    Script,
    /// `serve`: the connections that come in at an address are served.
    Serve,
    /// `jobs`: the jobs of the store are done until none is left.
    Jobs,
    /// `check`: the link rows of each page are compared with those of a new expansion.
    Check,
    /// `gen`: pages are generated and saved, the jobs done and the rows compared.
    Generate,
    /// `report`: the lines of a report over the store are written.
    Report,
    /// `replica`: the feed of a wiki is read from the input, and what is read of that wiki is answered on connections meanwhile.
    Replica,
}

/// Whether the word is this name. Takes no memory.
pub(crate) fn is_name(name: &str, word: &str) -> bool
    ensures { result ≡ bytes_eq name.now word.now }
{
    name == word
}

/// The command that the word names, and `None` where it names none that stands. Takes no memory.
pub(crate) fn command_named(word: &str) -> Option<Command>
    ensures { result ≡ command_named word.now }
{
    if is_name("script", word) {
        Some(Command::Script)
    } else if is_name("serve", word) {
        Some(Command::Serve)
    } else if is_name("jobs", word) {
        Some(Command::Jobs)
    } else if is_name("check", word) {
        Some(Command::Check)
    } else if is_name("gen", word) {
        Some(Command::Generate)
    } else if is_name("report", word) {
        Some(Command::Report)
    } else if is_name("replica", word) {
        Some(Command::Replica)
    } else {
        None
    }
}

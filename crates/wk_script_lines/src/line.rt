//! What a line of a script is (own).
ghost use Rattle.std.specs.Prelude.{◌≡◌, ◌<◌, length, map, option_map, Some, unwrap_or};
ghost use Rattle.std.specs.Option.{option_and_then, option_copied, option_to_list};
ghost use Rattle.wk_bytes.specs.Line.{line_in};
ghost use Rattle.wk_text_rules.specs.Decimal.{decimal_number};
ghost use Rattle.wk_text_rules.specs.Shapes.{exactly};
ghost use Rattle.wk_script_rules.specs.ScriptLines.{known_line, script_line, unknown_line};
ghost use Rattle.wk_script_lines.specs.Lines.{line_meant};

use wk_bytes::{Line, decimal};

/// What a line of a script asks for.
#[derive(Clone, Copy)]
pub enum ScriptLine<'a> {
    /// Nothing: the line has no bytes, and no reply.
    Empty,
    /// The line has more bytes than a line may have.
    TooLong,
    /// A request of the API, whose parameters are in this query.
    Api(&'a [u8]),
    /// The first refresh job that is queued.
    Claim,
    /// The next title that the draft of this ticket asks for.
    Read(u64),
    /// That the refresh of this ticket comes in.
    Finish(u64),
    /// That the ticket is given back.
    GiveBack(u64),
    /// A step of the first fan job.
    Fan,
    /// That the wiki is opened anew over its store.
    Restart,
    /// The line has none of these forms.
    Unknown,
}

/// What follows the word, where the line begins with it.
fn after<'a>(word: &[u8], line: &'a [u8]) -> Option<&'a [u8]>
    ensures { option_copied result ≡ exactly word.now line.now }
{
    if line.starts_with(word) {
        line.get(word.len()..)
    } else {
        None
    }
}

/// The ticket that follows the word, where the line is the word and a decimal number.
fn ticket_after(word: &[u8], line: &[u8]) -> Option<u64>
    ensures { result ≡ option_and_then decimal_number (exactly word.now line.now) }
{
    match after(word, line) {
        Some(number) => decimal(number),
        None => None,
    }
}

/// What a line is that has bytes.
fn known(line: &[u8]) -> ScriptLine<'_>
    ensures { line_meant result ≡ unwrap_or (known_line line.now) unknown_line }
{
    if let Some(query) = after(b"api ", line) {
        return ScriptLine::Api(query);
    }
    if line == b"claim".as_slice() {
        return ScriptLine::Claim;
    }
    if let Some(ticket) = ticket_after(b"read ", line) {
        return ScriptLine::Read(ticket);
    }
    if let Some(ticket) = ticket_after(b"finish ", line) {
        return ScriptLine::Finish(ticket);
    }
    if let Some(ticket) = ticket_after(b"giveback ", line) {
        return ScriptLine::GiveBack(ticket);
    }
    if line == b"fan".as_slice() {
        return ScriptLine::Fan;
    }
    if line == b"restart".as_slice() {
        return ScriptLine::Restart;
    }
    ScriptLine::Unknown
}

/// What the bytes of a line are.
fn read(bytes: &[u8]) -> ScriptLine<'_>
    ensures { line_meant result ≡ script_line (Some bytes.now) }
{
    if bytes.is_empty() {
        return ScriptLine::Empty;
    }
    known(bytes)
}

/// What a line is; `None` exactly where there is no line. Takes no memory.
pub fn script_line(line: &Line) -> Option<ScriptLine<'_>>
    ensures { option_to_list (option_map line_meant result) ≡ map script_line (line_in line.now) }
{
    match line {
        Line::More => None,
        Line::TooLong => Some(ScriptLine::TooLong),
        Line::Whole(bytes) => Some(read(bytes)),
    }
}

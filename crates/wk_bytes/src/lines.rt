//! A stream of bytes, cut into lines however the bytes come.
ghost use Rattle.std.specs.Prelude.{◌≡◌, ◌==◌, ℕ, ◌+◌, ◌-◌, ◌<◌, ◌↔◌, List, [], ◌∷◌, ◌++◌, length, take, count_by, option_map, IfOk, IfSome, IfNone, OnOk, OnErr};
ghost use Rattle.std.specs.Str.Lines.{strip_carriage_return};
ghost use Rattle.wk_text_rules.specs.Lines.{within, lines};
ghost use Rattle.wk_bytes.specs.LineCutter.{HasNoNewline, IsBegun, lines_of, lines_to_come};
ghost use Rattle.wk_bytes.specs.Line.{line_in};

use std::alloc::Global;
use std::collections::VecDeque;
use std::marker::Model;
use std::mem;
use wk_memory::Memory;

/// An answer of a [`LineCutter`].
#[derive(PartialEq, Eq, Drop)]
pub enum Line {
    /// A line, without its newline and without the one carriage return that may stand directly before that newline.
    Whole(Vec<u8>),
    /// A line of more bytes than the limit. The carriage return before a newline counts, and the newline doesn't.
    TooLong,
    /// No line is there until more bytes are pushed.
    More,
}

/// The bytes before the first newline and those behind it, where there is one.
fn split_at_newline(bytes: &[u8]) -> Option<(&[u8], &[u8])>
    ensures found { IfSome result (λ parts. (bytes.now ≡ parts.0.now ++ 10 ∷ parts.1.now) × HasNoNewline parts.0.now) }
    ensures none { IfNone result (HasNoNewline bytes.now) }
{
    let Some(at) = bytes.iter().position(|byte| *byte == b'\n') else {
        return None;
    };
    Some((&bytes[..at], &bytes[at + 1..]))
}

fn strip_carriage_return(line: &mut Vec<u8>)
    ensures { line.new.items ≡ strip_carriage_return line.old.items }
{
    if line.last() == Some(&b'\r') {
        line.pop();
    }
}

/// The line of these bytes, which stand before a newline, or `None` where it is too long.
fn whole_line(
    alloc: Global,
    most: usize,
    begin: &[u8],
    end: &[u8],
) -> Result<Option<Vec<u8>>, Memory>
    ensures { IfOk result (λ line. option_map (λ v. v.items) line
        ≡ within most (begin.now ++ end.now) (strip_carriage_return (begin.now ++ end.now))) }
{
    if begin.len() > most || end.len() > most - begin.len() {
        return Ok(None);
    }
    let mut line = Vec::with_capacity(alloc, begin.len() + end.len())?;
    line.extend_from_slice(begin)?;
    line.extend_from_slice(end)?;
    strip_carriage_return(&mut line);
    Ok(Some(line))
}

/// As much of a piece, behind `begun` bytes of a line, as can tell whether the line is too long.
fn kept(most: usize, begun: usize, piece: &[u8]) -> &[u8]
    ensures { result.now ≡ take (most + 1 - begun) piece.now }
{
    if begun > most {
        return &[];
    }
    let room = most - begun;
    if room < piece.len() {
        &piece[..room + 1]
    } else {
        piece
    }
}

/// Takes a piece without a newline behind the rest of a line.
fn lengthen(rest: &mut Vec<u8>, most: usize, piece: &[u8]) -> Result<(), Memory>
    requires begun { IsBegun most rest.old.items }
    requires piece { HasNoNewline piece.now }
    ensures lines { OnOk result ((more : List ℕ) →
        lines most (rest.new.items ++ more) ≡ lines most (rest.old.items ++ (piece.now ++ more))) }
    ensures begun { IsBegun most rest.new.items }
    ensures err { OnErr result (rest.new.items ≡ rest.old.items) }
{
    rest.extend_from_slice(kept(most, rest.len(), piece))?;
    Ok(())
}

/// The line of these bytes, which stand behind the last newline.
fn last_line(most: usize, rest: Vec<u8>) -> Line
    requires { HasNoNewline rest.items }
    ensures line { line_in result ≡ lines most rest.items }
    ensures more { (result ≡ Line.More) ↔ (rest.items ≡ []) }
{
    if rest.is_empty() {
        Line::More
    } else if rest.len() > most {
        Line::TooLong
    } else {
        Line::Whole(rest)
    }
}

/// Appends each whole line of the bytes, and gives what stands behind the last newline.
fn cut_whole<'a>(
    alloc: Global,
    most: usize,
    bytes: &'a [u8],
    whole: &mut VecDeque<Option<Vec<u8>>>,
) -> Result<&'a [u8], Memory>
    ensures lines { IfOk result (λ rest. (more : List ℕ) →
        lines_of whole.new.items ++ lines most (rest.now ++ more) ≡ lines_of whole.old.items ++ lines most (bytes.now ++ more)) }
    ensures rest { IfOk result (λ rest. HasNoNewline rest.now) }
    ensures count { OnOk result (length whole.new.items ≡ length whole.old.items + count_by (λ b. b == 10) bytes.now) }
{
    let mut left = bytes;
    while let Some((part, after)) = split_at_newline(left) {
        whole.push_back(whole_line(alloc, most, &[], part)?)?;
        left = after;
    }
    Ok(left)
}

/// The whole lines, and what stands behind the last newline as far as it is kept, where a piece with a newline
/// between `end` and `after` comes behind the rest of a line.
fn cut(
    alloc: Global,
    most: usize,
    rest: &[u8],
    end: &[u8],
    after: &[u8],
) -> Result<(VecDeque<Option<Vec<u8>>>, Vec<u8>), Memory>
    requires rest { HasNoNewline rest.now }
    requires end { HasNoNewline end.now }
    ensures lines { IfOk result (λ parts. (more : List ℕ) →
        lines_of parts.0.items ++ lines most (parts.1.items ++ more) ≡ lines most (rest.now ++ ((end.now ++ 10 ∷ after.now) ++ more))) }
    ensures begun { IfOk result (λ parts. IsBegun most parts.1.items) }
    ensures count { IfOk result (λ parts. length parts.0.items ≡ 1 + count_by (λ b. b == 10) after.now) }
{
    let mut whole = VecDeque::new(alloc);
    whole.push_back(whole_line(alloc, most, rest, end)?)?;
    let last = cut_whole(alloc, most, after, &mut whole)?;
    let mut kept = Vec::new(alloc);
    lengthen(&mut kept, most, last)?;
    Ok((whole, kept))
}

/// A stream of bytes that comes in pieces and is cut into lines.
///
/// Each line ends with a newline, the last also with the end of the stream. The lines don't depend on how the stream
/// is cut into pieces. Of a line of more than `most` bytes at most `most + 1` are kept.
#[derive(Drop)]
pub struct LineCutter {
    most: usize,
    whole: VecDeque<Option<Vec<u8>>>,
    rest: Vec<u8>,
}

impl Model for LineCutter {
    ghost use Rattle.wk_bytes.specs.LineCutter.{Cutting, IsBegun, lines_of};

    ghost Value = { Cutting };

    ghost view = { λ c. record { most = c.most; whole = lines_of c.whole.items; rest = c.rest.items } };

    ghost invariant = { λ c. IsBegun c.most c.rest.items };
}

impl LineCutter {
    /// A cutter that holds no bytes, for lines of at most `most` bytes. Takes no memory.
    pub fn new(alloc: Global, most: usize) -> LineCutter
        ensures { result ≡ record { most = most; whole = []; rest = [] } }
    {
        LineCutter {
            most,
            whole: VecDeque::new(alloc),
            rest: Vec::new(alloc),
        }
    }

    /// Takes the next piece of the stream, with the memory for the lines that it completes and for the rest.
    /// After an `Err` the piece isn't taken.
    pub fn push(&mut self, piece: &[u8]) -> Result<(), Memory>
        ensures lines { OnOk result ((more : List ℕ) → lines_to_come self.new more ≡ lines_to_come self.old (piece.now ++ more)) }
        // Each newline of the piece makes a line whole, so none is left in the rest.
        ensures count { OnOk result (length self.new.whole ≡ length self.old.whole + count_by (λ b. b == 10) piece.now) }
        ensures rest { IsBegun self.new.most self.new.rest }

        ensures most { self.new.most ≡ self.old.most }
        ensures err { OnErr result (self.new ≡ self.old) }
    {
        let alloc = *self.rest.allocator();
        match split_at_newline(piece) {
            None => {
                lengthen(&mut self.rest, self.most, piece)?;
                Ok(())
            }
            Some((end, after)) => {
                let (mut whole, rest) = cut(alloc, self.most, &self.rest, end, after)?;
                self.whole.append(&mut whole)?;
                self.rest = rest;
                Ok(())
            }
        }
    }

    /// The next line that ends with a newline, or `More` exactly where no newline is left in the bytes pushed.
    /// Takes no memory.
    pub fn next(&mut self) -> Line
        ensures lines { (more : List ℕ) → lines_to_come self.old more ≡ line_in result ++ lines_to_come self.new more }
        ensures line { self.old ≡ record self.new { whole = line_in result ++ self.new.whole } }
        ensures more { (result ≡ Line.More) ↔ (self.old.whole ≡ []) }
    {
        match self.whole.pop_front() {
            Some(Some(bytes)) => Line::Whole(bytes),
            Some(None) => Line::TooLong,
            None => Line::More,
        }
    }

    /// At the end of the stream: the last line, which has no newline, or `More` exactly where no bytes are left.
    /// Takes no memory. That no newline is left is told by `More` from [`LineCutter::next`].
    pub fn end(&mut self) -> Line
        requires { self.old.whole ≡ [] }
        ensures line { line_in result ≡ lines_to_come self.old [] }
        ensures more { (result ≡ Line.More) ↔ (self.old.rest ≡ []) }
        ensures after { self.new ≡ record self.old { rest = [] } }
    {
        let alloc = *self.rest.allocator();
        let rest = mem::replace(&mut self.rest, Vec::new(alloc));
        last_line(self.most, rest)
    }
}

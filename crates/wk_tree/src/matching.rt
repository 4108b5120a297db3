//! The matching of delimiters, by one pass from the left over the atoms with a stack of opening runs.
ghost use Rattle.std.specs.Prelude.{◌≡◌, ℕ, ◌+◌, ◌-◌, ◌<◌, ◌≤◌, ◌^◌, max, List, [], ◌∷◌, ◌++◌, length, take, drop, map, slice_set, OnOk, IfOk};
ghost use Rattle.wk_lex.specs.Ahead.{IsOneText};
ghost use Rattle.wk_lex.specs.Spans.{source_in, span_of, IsWithin, IsRunWhereMarks};
ghost use Rattle.wk_tree.specs.Layout.{laid};
ghost use Rattle.wk_tree.specs.Matching.{as_run, brackets_at, plain_token, plained, raised, still_open, way_of, IsBarOf, IsClosing, IsKept, IsPopped, MeetsAs};
ghost use Rattle.wk_tree.specs.Tokens.{plain_tokens, items_tokens};
ghost use Rattle.wk_tree_laws.specs.OnePass as pass;
ghost use Rattle.wk_tree_laws.specs.OnePass.{PassState, added, closed, met, met_as_brackets, met_as_node, met_as_plain, nothing_seen, opened, passed, pieces_seen};
ghost use Rattle.wk_tree_rules.specs.Reduction.{piece_of};
ghost use Rattle.wk_tree_rules.specs.Tree.{item_of};
ghost use Rattle.wk_tree_rules.specs.Trees.{Entry};
ghost use Rattle.wk_tree_rules.specs.declared.AtomKind.TheVariants.{Byte};

use crate::token::Token;
use std::alloc::Global;
use wk_lex::{Atom, AtomKind, Lexer};
use wk_memory::Memory;

/// How many nodes may stand within each other (own).
const MAX_HEIGHT: usize = 100;

/// A run of delimiters.
#[derive(Clone, Copy, PartialEq, Eq)]
pub struct Run {
    /// Whether they are brackets, and not braces.
    pub brackets: bool,
    /// How many they are.
    pub count: u32,
    /// The place behind the last.
    pub end: u32,
}

/// An opening run that may still be matched.
#[derive(Clone, Copy, PartialEq, Eq)]
pub struct Opener {
    /// What is left of it.
    pub run: Run,
    /// The place of its first token.
    pub slot: usize,
    /// How many bars and equals signs stand before it that no node and no brackets hold.
    pub bars: usize,
    /// The height of what stands behind it.
    pub height: usize,
}

/// What has been seen of a text.
#[derive(Drop)]
pub struct Matching {
    /// The tokens of all that was seen.
    pub tokens: Vec<Token>,
    /// The places of the bars and equals signs that no node and no brackets hold.
    pub bars: Vec<usize>,
    /// The opening runs that may still be matched, in the order of the text.
    pub openers: Vec<Opener>,
}

/// Appends opening delimiters as plain text, with a token for each delimiter.
#[inline(always)]
fn push_plain(tokens: &mut Vec<Token>, start: u32, len: u32) -> Result<(), Memory>
    ensures { OnOk result (tokens.new.items ≡ tokens.old.items ++ plain_tokens start len) }
{
    tokens.push(Token::Plain { start, len })?;
    let more = len.saturating_sub(1) as usize;
    let Some(all) = tokens.len().checked_add(more) else {
        return Err(Memory);
    };
    tokens.resize(all, Token::Fill)?;
    Ok(())
}

fn plain_token(token: Token) -> Token
    ensures { result ≡ plain_token token }
{
    match token {
        Token::Bar { start } | Token::Equals { start } => Token::Plain { start, len: 1 },
        other => other,
    }
}

/// Makes the bars and equals signs plain whose places are listed, but for the first `kept`.
fn plain_bars(tokens: &mut Vec<Token>, bars: &mut Vec<usize>, kept: usize)
    ensures tokens { tokens.new.items ≡ plained (drop kept bars.old.items) tokens.old.items }
    ensures bars { bars.new.items ≡ take kept bars.old.items }
{
    while kept < bars.len() {
        if let Some(at) = bars.pop() {
            if at < tokens.len() {
                tokens[at] = plain_token(tokens[at]);
            }
        }
    }
}

/// The last opener has something of this height.
fn raise(openers: &mut Vec<Opener>, height: usize)
    ensures { openers.new.items ≡ raised height openers.old.items }
{
    let count = openers.len();
    if 0 < count {
        let opener = &mut openers[count - 1];
        opener.height = opener.height.max(height);
    }
}

/// An opening run behind all that was seen.
#[inline(always)]
fn open(matching: &mut Matching, run: Run) -> Result<(), Memory>
    ensures { OnOk result ((seen : PassState) → IsKept seen matching.old → 2 ≤ run.count → run.count ≤ run.end
        → IsKept (opened (as_run run) seen) matching.new) }
{
    let slot = matching.tokens.len();
    let bars = matching.bars.len();
    matching.openers.push(Opener {
        run,
        slot,
        bars,
        height: 0,
    })?;
    push_plain(
        &mut matching.tokens,
        run.end.saturating_sub(run.count),
        run.count,
    )?;
    Ok(())
}

/// Writes a token in the place of another.
fn write(tokens: &mut Vec<Token>, at: usize, token: Token)
    ensures { tokens.new.items ≡ slice_set tokens.old.items at token }
{
    if at < tokens.len() {
        tokens[at] = token;
    }
}

/// Writes a token in the place of the last delimiters of a opener that was taken, and leaves the delimiters before them.
fn split(matching: &mut Matching, opener: &Opener, taken: u32, token: Token) -> Result<(), Memory>
    requires { taken ≤ opener.now.run.count }
    ensures tokens { OnOk result (opener.now.slot < length matching.old.tokens.items → matching.new.tokens.items
        ≡ slice_set (slice_set matching.old.tokens.items opener.now.slot (Token.Plain (opener.now.run.end - opener.now.run.count) (opener.now.run.count - taken)))
        (opener.now.slot + (opener.now.run.count - taken)) token) }
    ensures bars { matching.new.bars ≡ matching.old.bars }
    ensures openers { OnOk result (matching.new.openers.items ≡ matching.old.openers.items ++ still_open (opener.now.run.count - taken)
        (record {
          run = record { brackets = opener.now.run.brackets; count = opener.now.run.count - taken; end = opener.now.run.end - taken };
          slot = opener.now.slot;
          bars = opener.now.bars;
          height = 0;
        })) }
{
    let run = opener.run;
    let left = run.count - taken;
    if opener.slot < matching.tokens.len() {
        let start = run.end.saturating_sub(run.count);
        write(
            &mut matching.tokens,
            opener.slot,
            Token::Plain { start, len: left },
        );
        write(&mut matching.tokens, opener.slot + left as usize, token);
    }
    if 2 <= left {
        matching.openers.push(Opener {
            run: Run {
                brackets: run.brackets,
                count: left,
                end: run.end.saturating_sub(taken),
            },
            slot: opener.slot,
            bars: opener.bars,
            height: 0,
        })?;
    }
    Ok(())
}

/// Braces of a opener that was taken and of a closing run become a node, and gives what is left of the closing run.
fn make_node(matching: &mut Matching, opener: &Opener, run: Run) -> Result<Run, Memory>
    ensures { IfOk result (λ left. (first : List Entry) (top : pass.Opener) (openers : List pass.Opener) → IsPopped first top openers opener.now matching.old
        → way_of opener.now.run.brackets run.brackets opener.now.height ≡ Way.Node → 2 ≤ run.count → run.count ≤ run.end
        → MeetsAs (met_as_node top (as_run run) (record { first = first; openers = openers })) matching.new left) }
{
    let taken = opener.run.count.min(run.count.min(3));
    let token = Token::NodeStart {
        argument: taken == 3,
        start: opener.run.end.saturating_sub(taken),
    };
    split(matching, opener, taken, token)?;
    matching.tokens.push(Token::NodeEnd)?;
    matching.bars.truncate(opener.bars);
    raise(&mut matching.openers, opener.height.saturating_add(1));
    Ok(Run {
        brackets: run.brackets,
        count: run.count - taken,
        end: run.end,
    })
}

/// Two brackets of a opener that was taken and two of a closing run become plain text with all bars and equals signs
/// between them, and gives what is left of the closing run.
fn make_brackets(matching: &mut Matching, opener: &Opener, run: Run) -> Result<Run, Memory>
    ensures { IfOk result (λ left. (first : List Entry) (top : pass.Opener) (openers : List pass.Opener) → IsPopped first top openers opener.now matching.old
        → 2 ≤ run.count → run.count ≤ run.end → MeetsAs (met_as_brackets top (as_run run) (record { first = first; openers = openers })) matching.new left) }
{
    let taken = opener.run.count.min(2);
    let token = Token::Plain {
        start: opener.run.end.saturating_sub(taken),
        len: 2,
    };
    split(matching, opener, taken, token)?;
    plain_bars(&mut matching.tokens, &mut matching.bars, opener.bars);
    matching.tokens.push(Token::Plain {
        start: run.end.saturating_sub(run.count),
        len: 2,
    })?;
    raise(&mut matching.openers, opener.height);
    Ok(Run {
        brackets: run.brackets,
        count: run.count.saturating_sub(2),
        end: run.end,
    })
}

/// What comes of an opening and a closing run.
#[derive(Clone, Copy, PartialEq, Eq)]
pub enum Way {
    /// A node.
    Node,
    /// Brackets.
    Brackets,
    /// The closing delimiters are plain text.
    Plain,
}

fn find_way(opener: &Opener, run: &Run) -> Way
    ensures { result ≡ way_of opener.now.run.brackets run.now.brackets opener.now.height }
{
    match (opener.run.brackets, run.brackets) {
        (true, true) => Way::Brackets,
        (false, false) => {
            if opener.height == MAX_HEIGHT {
                Way::Plain
            } else {
                Way::Node
            }
        }
        _ => Way::Plain,
    }
}

/// A closing run becomes plain text.
fn make_plain(matching: &mut Matching, run: Run) -> Result<Run, Memory>
    ensures { IfOk result (λ left. (seen : PassState) → IsKept seen matching.old → run.count ≤ run.end → MeetsAs (met_as_plain (as_run run) seen) matching.new left) }
{
    matching.tokens.push(Token::Plain {
        start: run.end.saturating_sub(run.count),
        len: run.count,
    })?;
    Ok(Run {
        brackets: run.brackets,
        count: 0,
        end: run.end,
    })
}

/// A closing run meets what was seen, and gives what is left of the run.
fn meet(matching: &mut Matching, run: Run) -> Result<Run, Memory>
    ensures { IfOk result (λ left. (seen : PassState) → IsKept seen matching.old → 2 ≤ run.count → run.count ≤ run.end → MeetsAs (met (as_run run) seen) matching.new left) }
{
    let Some(opener) = matching.openers.pop() else {
        let left = make_plain(matching, run)?;
        return Ok(left);
    };
    match find_way(&opener, &run) {
        Way::Node => {
            let left = make_node(matching, &opener, run)?;
            Ok(left)
        }
        Way::Brackets => {
            let left = make_brackets(matching, &opener, run)?;
            Ok(left)
        }
        Way::Plain => {
            matching.openers.push(opener)?;
            let left = make_plain(matching, run)?;
            Ok(left)
        }
    }
}

/// The delimiter that is left of a closing run, if one is.
fn push_rest(matching: &mut Matching, left: Run) -> Result<(), Memory>
    ensures { OnOk result ((n : ℕ) (end : PassState) → (2 ≤ left.count → n ≡ 0) → IsClosing left matching.old n end → IsKept end matching.new) }
{
    if left.count == 1 {
        matching.tokens.push(Token::Plain {
            start: left.end.saturating_sub(1),
            len: 1,
        })?;
    }
    Ok(())
}

/// A closing run behind all that was seen. It meets what was seen until at most one delimiter of it is left.
fn close(matching: &mut Matching, run: Run) -> Result<(), Memory>
    ensures { OnOk result ((seen : PassState) → IsKept seen matching.old → 2 ≤ run.count → run.count ≤ run.end → IsKept (closed run.count (as_run run) seen) matching.new) }
{
    let mut left = run;
    // Each time that it meets something a delimiter or more of it is taken.
    for _time in 0..run.count {
        if left.count < 2 {
            return push_rest(matching, left);
        }
        left = meet(matching, left)?;
    }
    push_rest(matching, left)
}

/// A bar or an equals sign behind all that was seen.
#[inline(always)]
fn push_bar(matching: &mut Matching, token: Token) -> Result<(), Memory>
    ensures { OnOk result ((seen : PassState) (e : Entry) → IsKept seen matching.old → IsBarOf e token → IsKept (added (e ∷ []) seen) matching.new) }
{
    matching.bars.push(matching.tokens.len())?;
    matching.tokens.push(token)?;
    Ok(())
}

/// Whether the delimiters at a place are brackets.
fn are_brackets(text: &[u8], at: usize) -> bool
    ensures { result ≡ brackets_at text.now at }
{
    if at < text.len() {
        text[at] != b'{' && text[at] != b'}'
    } else {
        true
    }
}

/// The run of delimiters that an atom is.
fn run_at(text: &[u8], atom: &Atom) -> Run
    requires within { IsWithin (length text.now) atom.now }
    requires short { length text.now < 2 ^ 32 }
    ensures { result ≡ record { brackets = brackets_at text.now atom.now.start; count = atom.now.len; end = atom.now.start + atom.now.len } }
{
    Run {
        brackets: are_brackets(text, atom.start as usize),
        count: atom.len,
        end: atom.start + atom.len,
    }
}

/// The next atom behind all that was seen.
#[inline(always)]
fn step(matching: &mut Matching, text: &[u8], atom: &Atom) -> Result<(), Memory>
    requires within { IsWithin (length text.now) atom.now }
    requires short { length text.now < 2 ^ 32 }
    ensures { OnOk result ((seen : PassState) → IsKept seen matching.old → IsRunWhereMarks text.now atom.now → (atom.now.kind ≡ Byte → IsOneText (source_in text.now atom.now))
        → IsKept (passed seen (piece_of (span_of text.now atom.now) ∷ [])) matching.new) }
{
    let start = atom.start;
    let len = atom.len;
    match atom.kind {
        AtomKind::Open => {
            open(matching, run_at(text, atom))?;
            Ok(())
        }
        AtomKind::Close => {
            close(matching, run_at(text, atom))?;
            Ok(())
        }
        AtomKind::Bar => {
            push_bar(matching, Token::Bar { start })?;
            Ok(())
        }
        AtomKind::Equals => {
            push_bar(matching, Token::Equals { start })?;
            Ok(())
        }
        AtomKind::Byte => {
            matching.tokens.push(Token::Plain { start, len })?;
            Ok(())
        }
        AtomKind::Sealed => {
            matching.tokens.push(Token::Sealed { start, len })?;
            Ok(())
        }
        _ => {
            matching.tokens.push(Token::Nothing { start, len })?;
            Ok(())
        }
    }
}

/// The tokens of a text, by the atoms of it that are to come. Bars and equals signs outside nodes are plain text.
/// No text has more tokens than bytes.
pub fn matched(alloc: Global, text: &[u8], atoms: Lexer) -> Result<Vec<Token>, Memory>
    requires whole { atoms.text ≡ text.now }
    requires short { length text.now < 2 ^ 32 }
    ensures { IfOk result (λ tokens. laid tokens.items
        ≡ laid (items_tokens (map item_of (pieces_seen (passed nothing_seen (map piece_of atoms.entry.atoms)))))) }
{
    let mut ahead = atoms;
    let mut matching = Matching {
        tokens: Vec::with_capacity(alloc, text.len())?,
        bars: Vec::new(alloc),
        openers: Vec::new(alloc),
    };
    while let Some(atom) = ahead.next() {
        step(&mut matching, text, &atom)?;
    }
    plain_bars(&mut matching.tokens, &mut matching.bars, 0);
    Ok(matching.tokens)
}

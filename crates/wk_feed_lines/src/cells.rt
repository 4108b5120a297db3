//! The values of a line, read from the left.
ghost use Rattle.std.specs.Prelude.{◌≡◌, ℕ, ℤ, Bool, true, List, Option, IfOk, map, option_map, string_bytes};
ghost use Rattle.serde_json.specs.Data.{Data};
ghost use Rattle.serde_json.specs.View.{view};
ghost use Rattle.wk_feed_rules.specs.Lines.{FeedLine as SaidLine};
ghost use Rattle.wk_feed_rules.specs.Reading.{ending, with_flag, with_integer, with_number, with_optional_text, with_text};
ghost use Rattle.wk_feed_lines.specs.Said.{line_of};
ghost use Rattle.wk_feed_lines.specs.Cells.{TakesNext, left_of, read_on};

use crate::line::FeedLine;
use serde_json::Value;
use std::alloc::Global;
use wk_bytes::Text;
use wk_memory::Memory;

/// The values of a line that are left to be read. Once a value isn't of the kind that is asked for, or none is left, the line
/// says nothing: what is read from there on counts for nothing.
#[derive(Clone, Copy)]
pub struct Cells<'a> {
    values: &'a [Value],
    is_fit: bool,
}

/// The text, where it has fewer than 2^32 bytes. No longer one is kept in memory.
fn text_of(alloc: Global, text: &str) -> Result<Text, Memory>
    ensures { IfOk result (λ made. made ≡ text.now) }
{
    if MAX_LEN < text.len() {
        return Err(Memory);
    }
    Text::new(alloc, text)
}

/// The most bytes of a text.
const MAX_LEN: usize = 4_294_967_295;

impl<'a> Cells<'a> {
    /// All values of a line.
    pub fn new(values: &'a [Value]) -> Cells<'a>
        ensures { left_of result ≡ record { is_fit = true; values = map view values.now } }
    {
        Cells {
            values,
            is_fit: true,
        }
    }

    /// The next value, `None` exactly where none is left.
    fn next(&mut self) -> Option<&'a Value>
        ensures { TakesNext (left_of self.old) (left_of self.new) (option_map (λ value. view value.now) result) }
    {
        match self.values.split_first() {
            Some((value, rest)) => {
                self.values = rest;
                Some(value)
            }
            None => {
                self.is_fit = false;
                None
            }
        }
    }

    /// A number of 64 bits, 0 where the next value is none.
    pub fn number(&mut self) -> u64
        ensures { (rest : ℕ → List Data → Option SaidLine)
            → read_on (with_number rest) (left_of self.old) ≡ read_on (rest result) (left_of self.new) }
    {
        let Some(number) = self.next().and_then(Value::as_u64) else {
            self.is_fit = false;
            return 0;
        };
        number
    }

    /// A number of 64 bits with a sign, 0 where the next value is none.
    pub fn integer(&mut self) -> i64
        ensures { (rest : ℤ → List Data → Option SaidLine)
            → read_on (with_integer rest) (left_of self.old) ≡ read_on (rest result) (left_of self.new) }
    {
        let Some(number) = self.next().and_then(Value::as_i64) else {
            self.is_fit = false;
            return 0;
        };
        number
    }

    /// A flag, which is written as 0 or 1; false where the next value is none.
    pub fn flag(&mut self) -> bool
        ensures { (rest : Bool → List Data → Option SaidLine)
            → read_on (with_flag rest) (left_of self.old) ≡ read_on (rest result) (left_of self.new) }
    {
        let number = self.number();
        if number == 0 {
            return false;
        }
        if number == 1 {
            return true;
        }
        self.is_fit = false;
        false
    }

    /// The text that a value is, empty where the next value is none.
    pub fn words(&mut self) -> &'a str
        ensures { (rest : List ℕ → List Data → Option SaidLine)
            → read_on (with_text rest) (left_of self.old) ≡ read_on (rest result.now) (left_of self.new) }
    {
        let Some(words) = self.next().and_then(Value::as_str) else {
            self.is_fit = false;
            return "";
        };
        words
    }

    /// A text of its own memory. One of 2^32 bytes or more isn't kept: that is want of memory.
    pub fn text(&mut self, alloc: Global) -> Result<Text, Memory>
        ensures { IfOk result (λ text. (rest : List ℕ → List Data → Option SaidLine)
            → read_on (with_text rest) (left_of self.old) ≡ read_on (rest text) (left_of self.new)) }
    {
        text_of(alloc, self.words())
    }

    /// A string of its own memory.
    pub fn string(&mut self, alloc: Global) -> Result<String, Memory>
        ensures { IfOk result (λ string. (rest : List ℕ → List Data → Option SaidLine)
            → read_on (with_text rest) (left_of self.old) ≡ read_on (rest (string_bytes string)) (left_of self.new)) }
    {
        Ok(String::from_str(alloc, self.words())?)
    }

    /// The text that a value is, or none for null; none where the next value is neither.
    fn words_or_null(&mut self) -> Option<&'a str>
        ensures { (rest : Option (List ℕ) → List Data → Option SaidLine)
            → read_on (with_optional_text rest) (left_of self.old) ≡ read_on (rest (option_map (λ words. words.now) result)) (left_of self.new) }
    {
        let Some(value) = self.next() else {
            return None;
        };
        if value.is_null() {
            return None;
        }
        let Some(words) = value.as_str() else {
            self.is_fit = false;
            return None;
        };
        Some(words)
    }

    /// A string of its own memory, or none for null.
    pub fn string_or_null(&mut self, alloc: Global) -> Result<Option<String>, Memory>
        ensures { IfOk result (λ string. (rest : Option (List ℕ) → List Data → Option SaidLine)
            → read_on (with_optional_text rest) (left_of self.old) ≡ read_on (rest (option_map (λ s. string_bytes s) string)) (left_of self.new)) }
    {
        match self.words_or_null() {
            Some(words) => Ok(Some(String::from_str(alloc, words)?)),
            None => Ok(None),
        }
    }

    /// What the line says, where each value was of its kind and none is left.
    pub fn ended(&self, line: FeedLine) -> Option<FeedLine>
        ensures { option_map line_of result ≡ read_on (ending (line_of line)) (left_of self.now) }
    {
        if self.is_fit && self.values.is_empty() {
            Some(line)
        } else {
            None
        }
    }
}

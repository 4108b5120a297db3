//! Outputs of an expansion.
ghost use Rattle.std.specs.Prelude.{◌≡◌, [], ◌++◌, length, IfOk, OnOk, OnErr};
ghost use Rattle.std.specs.Option.{option_copied};
ghost use Rattle.wk_text_rules.specs.Marked.{all_plain, all_sealed, has_error, is_blank_output, plain_text_of, text_of, trimmed_output};
ghost use Rattle.wk_out.specs.Kept.{without_blank_start, without_blank_end};
ghost use Rattle.wk_out.specs.Runs.{AreMaximal, joined, marked};

use crate::blank::{trim_end, trim_start};
use crate::error_text::shows_error;
use crate::run::{Run, add_runs, is_any_sealed, write_list, written};
use crate::runs::Runs;
use std::alloc::Global;
use std::marker::Model;
use wk_bytes::is_blank;
use wk_memory::Memory;

/// An output of an expansion: a list of bytes, each plain or sealed. It is UTF-8 as a whole, and so is each run of
/// bytes with one mark. After an `Err` a call leaves it as it was.
#[derive(Drop)]
pub struct Out {
    text: String,
    // no list is written while all of the text is plain
    runs: Vec<Run>,
}

impl Model for Out {
    ghost use Rattle.std.specs.Prelude.{List, length, string_bytes};
    ghost use Rattle.wk_text_rules.specs.Marked.{MarkedByte};
    ghost use Rattle.wk_out.specs.Kept.{cut, listed, IsKept};
    ghost use Rattle.wk_out.specs.Runs.{joined};

    ghost Value = { List MarkedByte };

    ghost view = { λ o. joined (cut (string_bytes o.text) (listed (length (string_bytes o.text)) o.runs.items)) };

    ghost invariant = { λ o. IsKept (string_bytes o.text) (listed (length (string_bytes o.text)) o.runs.items) };
}

impl Out {
    /// The empty output. Takes no memory.
    pub fn new(alloc: Global) -> Out
        ensures { result ≡ [] }
    {
        Out {
            text: String::new(alloc),
            runs: Vec::new(alloc),
        }
    }

    /// Appends runs, with their text and lengths as they are.
    #[inline(always)]
    fn extend(&mut self, runs: &Runs<'_>) -> Result<(), Memory>
        ensures ok { OnOk result (self.new ≡ self.old ++ joined runs.now) }
        ensures err { OnErr result (self.new ≡ self.old) }
    {
        if self.runs.is_empty() && runs.runs.is_empty() {
            self.text.push_str(runs.text)?;
            return Ok(());
        }
        self.extend_listed(runs)
    }

    /// The same, with the lists of the runs written.
    fn extend_listed(&mut self, runs: &Runs<'_>) -> Result<(), Memory>
        ensures ok { OnOk result (self.new ≡ self.old ++ joined runs.now) }
        ensures err { OnErr result (self.new ≡ self.old) }
    {
        write_list(&mut self.runs, self.text.len())?;
        let plain = [Run {
            len: runs.text.len(),
            sealed: false,
        }];
        let more = written(runs.runs, runs.text.len(), &plain);
        self.runs.reserve(more.len())?;
        self.text.push_str(runs.text)?;
        add_runs(&mut self.runs, more);
        Ok(())
    }

    #[inline(always)]
    fn push(&mut self, text: &str, sealed: bool) -> Result<(), Memory>
        ensures ok { OnOk result (self.new ≡ self.old ++ marked sealed text.now) }
        ensures err { OnErr result (self.new ≡ self.old) }
    {
        if text.is_empty() {
            return Ok(());
        }
        if !sealed {
            return self.extend(&Runs { text, runs: &[] });
        }
        let runs = [Run {
            len: text.len(),
            sealed,
        }];
        self.extend(&Runs { text, runs: &runs })
    }

    /// Appends the text as plain bytes.
    pub fn push_plain(&mut self, s: &str) -> Result<(), Memory>
        ensures ok { OnOk result (self.new ≡ self.old ++ all_plain s.now) }
        ensures err { OnErr result (self.new ≡ self.old) }
    {
        self.push(s, false)
    }

    /// Appends the text as sealed bytes.
    pub fn push_sealed(&mut self, s: &str) -> Result<(), Memory>
        ensures ok { OnOk result (self.new ≡ self.old ++ all_sealed s.now) }
        ensures err { OnErr result (self.new ≡ self.old) }
    {
        self.push(s, true)
    }

    /// Appends another output.
    pub fn append(&mut self, other: &Out) -> Result<(), Memory>
        ensures ok { OnOk result (self.new ≡ self.old ++ other.now) }
        ensures err { OnErr result (self.new ≡ self.old) }
    {
        self.extend(&other.runs())
    }

    /// The output without the plain blank bytes at both ends. Sealed bytes stay, blank or not.
    pub fn trimmed(&self, alloc: Global) -> Result<Out, Memory>
        ensures { IfOk result (λ out. out ≡ trimmed_output self.now) }
    {
        let mut out = Out::new(alloc);
        let mut middle = self.runs();
        let Some((first, sealed)) = middle.next() else {
            return Ok(out);
        };
        let first = without_blank_start(first, sealed);
        let Some((last, last_sealed)) = middle.next_back() else {
            out.push(without_blank_end(first, sealed), sealed)?;
            return Ok(out);
        };
        out.push(first, sealed)?;
        out.extend(&middle)?;
        out.push(without_blank_end(last, last_sealed), last_sealed)?;
        Ok(out)
    }

    /// The number of bytes. Takes no memory.
    pub fn len(&self) -> usize
        ensures { result ≡ length self.now }
    {
        self.text.len()
    }

    /// Whether every byte is plain and blank; so is no byte at all. Takes no memory.
    pub fn is_blank(&self) -> bool
        ensures { result ≡ is_blank_output self.now }
    {
        match self.plain_text() {
            Some(text) => is_blank(text.as_bytes()),
            None => false,
        }
    }

    /// All bytes, or `None` exactly where a byte is sealed. Takes no memory.
    pub fn plain_text(&self) -> Option<&str>
        ensures { option_copied result ≡ plain_text_of self.now }
    {
        if is_any_sealed(&self.runs) {
            None
        } else {
            Some(&self.text)
        }
    }

    /// All bytes, without their marks. Takes no memory.
    pub fn text(&self) -> &str
        ensures { result.now ≡ text_of self.now }
    {
        &self.text
    }

    /// Whether `class="error"` stands in the output in plain bytes one after the other, which is what `#iferror` takes
    /// for an error (own). Takes no memory.
    pub fn has_error(&self) -> bool
        ensures { result ≡ has_error self.now }
    {
        for (text, sealed) in self.runs() {
            if shows_error(text, sealed) {
                return true;
            }
        }
        false
    }

    /// The runs of the output, which are as long as they can be. Takes no memory.
    pub fn runs(&self) -> Runs<'_>
        ensures joined { joined result ≡ self.now }
        ensures maximal { AreMaximal result }
    {
        Runs {
            text: &self.text,
            runs: &self.runs,
        }
    }
}

/// The text of a run, without the blank bytes at the front where it is plain.
fn without_blank_start(text: &str, sealed: bool) -> &str
    ensures { result.now ≡ without_blank_start sealed text.now }
{
    if sealed { text } else { trim_start(text) }
}

/// The text of a run, without the blank bytes at the end where it is plain.
fn without_blank_end(text: &str, sealed: bool) -> &str
    ensures { result.now ≡ without_blank_end sealed text.now }
{
    if sealed { text } else { trim_end(text) }
}

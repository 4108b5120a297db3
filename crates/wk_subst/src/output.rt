//! Text that is made piece by piece.
ghost use Rattle.std.specs.Prelude.{◌≡◌, [], ◌++◌, length, OnOk};

use std::alloc::Global;
use std::marker::Model;
use wk_memory::Memory;

/// Text that grows at its end. Contracts see its bytes.
#[derive(Drop)]
pub struct Output {
    text: String,
}

impl Model for Output {
    ghost use Rattle.std.specs.Prelude.{ℕ, List};
    ghost use Rattle.std.specs.String.{string_bytes};

    ghost Value = { List ℕ };

    ghost view = { λ o. string_bytes o.text };
}

impl Output {
    /// No text. Takes no memory.
    pub fn new(alloc: Global) -> Output
        ensures { result ≡ [] }
    {
        Output {
            text: String::new(alloc),
        }
    }

    /// The text goes on with this one.
    #[inline(always)]
    pub fn push(&mut self, text: &str) -> Result<(), Memory>
        ensures { OnOk result (self.new ≡ self.old ++ text.now) }
    {
        self.text.push_str(text)?;
        Ok(())
    }

    /// The text. Takes no memory.
    pub fn as_str(&self) -> &str
        ensures { result.now ≡ self.now }
    {
        self.text.as_str()
    }

    /// How many bytes it has. Takes no memory.
    pub fn len(&self) -> usize
        ensures { result ≡ length self.now }
    {
        self.text.as_str().len()
    }
}

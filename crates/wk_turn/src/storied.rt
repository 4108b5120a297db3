//! A state with a journal.
ghost use Rattle.std.specs.Prelude.{◌≡◌, ℕ, List, Option, length};

/// A state that is shared by turns. Its meaning has a start, a journal, and the state that they give.
pub trait Storied {
    /// What the state was before its journal. No value of it is made.
    type Start;

    /// An entry of the journal. No value of it is made.
    type Entry;

    ghost start: { Self → Self.Start };

    ghost journal: { Self → List Self.Entry };

    // The place that an entry closes, if any. It counts only where it is earlier than the entry's own place.
    ghost closes: { Self.Entry → Option ℕ };

    /// How many entries the journal has. No memory.
    fn length(&self) -> u64
        ensures { result ≡ length (journal self.now) };
}

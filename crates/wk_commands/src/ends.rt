//! How a command ends.
ghost use Rattle.std.specs.Prelude.{◌≡◌, ◌≢◌, ◌≤◌};
ghost use Rattle.wk_base.specs.Faults.{Rose};
ghost use Rattle.wk_commands.specs.Written.{HasWritten, end_of_comparison};

use wk_base::{Sink, write_all};

/// How a command over a wiki ends.
#[derive(Clone, Copy, PartialEq, Eq)]
pub enum CommandEnd {
    /// All was done and written, and no page differs, where pages were compared.
    Done,
    /// All was done and written, and some page differs.
    Differs,
    /// A save met a full journal or a limit of the wiki, or a drain met a full journal.
    Full,
    /// The store failed.
    StoreFault,
    /// A write of the output failed.
    WriteFault,
    /// A call of the door failed.
    DoorFault,
    /// Memory ran out.
    Memory,
}

/// Writes a text whole, and answers how the command ends with it, where pages were the same or not.
pub(crate) fn write_text<O: Sink>(output: &mut O, text: &str, is_same: bool) -> CommandEnd
    ensures written { HasWritten result text.now (O.taken output.old) (O.taken output.new) }
    ensures end { result ≢ CommandEnd.WriteFault → result ≡ end_of_comparison is_same }
    ensures never_falls { O.faults output.old ≤ O.faults output.new }
    ensures no_write_fault { result ≢ CommandEnd.WriteFault → O.faults output.new ≡ O.faults output.old }
    ensures write_fault { result ≡ CommandEnd.WriteFault → Rose (O.faults output.old) (O.faults output.new) }
{
    match write_all(output, text.as_bytes()) {
        Ok(()) if is_same => CommandEnd::Done,
        Ok(()) => CommandEnd::Differs,
        Err(_) => CommandEnd::WriteFault,
    }
}

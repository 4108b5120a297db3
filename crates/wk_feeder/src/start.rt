//! The lines of a wiki's start, and why a feed isn't written.
ghost use Rattle.std.specs.Prelude.{◌≡◌, ◌≢◌, ◌≤◌, ◌++◌, ◌∷◌, [], map, Err, IfOk, IsOkAnd, OnOk, string_bytes};
ghost use Rattle.std.specs.Io.KnownBytes.{Appends};
ghost use Rattle.wk_base.specs.Faults.{Rose};
ghost use Rattle.wk_base.specs.Writing.{AppendsPrefix};
ghost use Rattle.wk_feed_rules.specs.Feeds.{rows_of_tables, start_lines};
ghost use Rattle.wk_feed_rules.specs.Lines.{row, start};
ghost use Rattle.wk_feeder.specs.Bytes.{feed_bytes};

use crate::lines::{Cell, push_line};
use crate::rows::push_tables;
use std::alloc::Global;
use thiserror::Error;
use wk_base::{Failed, Sink, write_all};
use wk_core::{Keeper, Wiki};
use wk_memory::Memory;
use wk_tables::TableRows;
use wk_wiki_laws::journals::calls_make_a_journal;

/// Why a feed isn't written.
#[derive(Clone, Copy, Debug, PartialEq, Eq, Error)]
pub enum FeedRefusal {
    /// A write failed: the sink's count of faults rose in the call, or stands at its end.
    #[error("the output failed")]
    WriteFault,
    /// Memory ran out.
    #[error("out of memory")]
    Memory,
}

/// Appends the lines of the rows of all tables, and then that of the start.
fn push_start(alloc: Global, rows: &TableRows, lines: &mut String) -> Result<(), Memory>
    ensures { OnOk result (string_bytes lines.new ≡ (string_bytes lines.old
        ++ feed_bytes (map row (rows_of_tables rows.now))) ++ feed_bytes (start ∷ [])) }
{
    push_tables(alloc, rows, lines)?;
    push_line(alloc, &[Cell::Text("start")], lines)
}

/// The lines of a wiki's tables, and of the start.
fn lines_of_start<K: Keeper>(alloc: Global, wiki: &Wiki<K>) -> Result<String, Memory>
    requires { wiki.now.journal ≡ [] }
    ensures { IfOk result (λ lines. string_bytes lines ≡ feed_bytes (start_lines wiki.now.start.state)) }
{
    wiki.facts();
    calls_make_a_journal();
    let rows = wiki.tables()?.rows()?;
    let mut lines = String::new(alloc);
    push_start(alloc, &rows, &mut lines)?;
    Ok(lines)
}

/// Writes the lines, if memory was there for them.
pub(crate) fn write_lines<O: Sink>(
    sink: &mut O,
    lines: Result<String, Memory>,
) -> Result<(), FeedRefusal>
    ensures sent { OnOk result (IsOkAnd lines (λ text. Appends (O.taken sink.old) (O.taken sink.new) (string_bytes text))) }
    ensures fault { result ≡ Err FeedRefusal.WriteFault → Rose (O.faults sink.old) (O.faults sink.new) }
    ensures refused { result ≡ Err FeedRefusal.WriteFault → IsOkAnd lines (λ text. AppendsPrefix (O.taken sink.old) (O.taken sink.new) (string_bytes text)) }
    ensures memory { result ≡ Err FeedRefusal.Memory → sink.new ≡ sink.old }
    ensures never_falls { O.faults sink.old ≤ O.faults sink.new }
    ensures no_fault { result ≢ Err FeedRefusal.WriteFault → O.faults sink.new ≡ O.faults sink.old }
{
    let Ok(lines) = lines else {
        return Err(FeedRefusal::Memory);
    };
    match write_all(sink, lines.as_bytes()) {
        Ok(()) => Ok(()),
        Err(Failed) => Err(FeedRefusal::WriteFault),
    }
}

/// Writes the first lines of a wiki's feed: a line for each row of its tables, table by table, and the line of the start. No
/// event has happened yet.
///
/// Where it is refused a prefix of the lines was taken; where memory ran out nothing was.
pub fn feed_start<K: Keeper, O: Sink>(wiki: &Wiki<K>, sink: &mut O) -> Result<(), FeedRefusal>
    requires { wiki.now.journal ≡ [] }
    ensures sent { OnOk result (Appends (O.taken sink.old) (O.taken sink.new) (feed_bytes (start_lines wiki.now.start.state))) }
    ensures fault { result ≡ Err FeedRefusal.WriteFault → Rose (O.faults sink.old) (O.faults sink.new)
        × AppendsPrefix (O.taken sink.old) (O.taken sink.new) (feed_bytes (start_lines wiki.now.start.state)) }
    ensures memory { result ≡ Err FeedRefusal.Memory → sink.new ≡ sink.old }
    ensures never_falls { O.faults sink.old ≤ O.faults sink.new }
    ensures no_fault { result ≢ Err FeedRefusal.WriteFault → O.faults sink.new ≡ O.faults sink.old }
{
    write_lines(sink, lines_of_start(wiki.allocator(), wiki))
}

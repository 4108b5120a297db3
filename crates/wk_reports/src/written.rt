//! A report that is written to an output, and how the command ends with it.
ghost use Rattle.std.specs.Prelude.{◌≡◌, ◌≢◌, ◌≤◌, IfOk, string_bytes};
ghost use Rattle.wk_base.specs.Faults.{Rose};
ghost use Rattle.wk_wiki_rules.specs.States.{world_of};
ghost use Rattle.wk_report_rules.specs.Pages.{stored_pages};
ghost use Rattle.wk_report_rules.specs.Reports.{report_lines};
ghost use Rattle.wk_report_rules.specs.Texts.{report_text};
ghost use Rattle.wk_reports.specs.Written.{HasWritten};

use crate::reports::report;
use wk_base::{Sink, write_all};
use wk_core::{Keeper, Wiki};
use wk_memory::Memory;
use wk_report_lines::report_text;
use wk_report_rules::Report;

/// How a report of a wiki ends.
#[derive(Clone, Copy)]
pub enum ReportEnd {
    /// All was written.
    Done,
    /// A write of the output failed.
    WriteFault,
    /// Memory ran out.
    Memory,
}

/// What is printed of a report of a wiki with at most so many lines.
fn text_of<K: Keeper>(wiki: &Wiki<K>, which: Report, most: usize) -> Result<String, Memory>
    ensures { IfOk result (λ text. string_bytes text
        ≡ report_text (report_lines which (world_of wiki.now.state) (stored_pages wiki.now.state) most)) }
{
    let lines = report(wiki, which, most)?;
    report_text(wiki.allocator(), &lines)
}

/// Writes a text whole.
fn write_text<O: Sink>(output: &mut O, text: &str) -> ReportEnd
    ensures written { HasWritten result text.now (O.taken output.old) (O.taken output.new) }
    ensures never_falls { O.faults output.old ≤ O.faults output.new }
    ensures no_write_fault { result ≢ ReportEnd.WriteFault → O.faults output.new ≡ O.faults output.old }
    ensures write_fault { result ≡ ReportEnd.WriteFault → Rose (O.faults output.old) (O.faults output.new) }
{
    match write_all(output, text.as_bytes()) {
        Ok(()) => ReportEnd::Done,
        Err(_) => ReportEnd::WriteFault,
    }
}

/// Writes a report of a wiki with at most so many lines: each line, its count and its shown titles with ` -> ` between them, and
/// then `lines N`, how many they are. The wiki stays as it is.
///
/// `WriteFault` comes only where the output's count of faults rose, and a prefix of the text is then written; `Memory` may come, and
/// nothing is written then.
pub fn write_report<K: Keeper, O: Sink>(
    wiki: &Wiki<K>,
    which: Report,
    most: usize,
    output: &mut O,
) -> ReportEnd
    ensures written { HasWritten result (report_text (report_lines which (world_of wiki.now.state) (stored_pages wiki.now.state) most))
        (O.taken output.old) (O.taken output.new) }
    ensures never_falls { O.faults output.old ≤ O.faults output.new }
    ensures no_write_fault { result ≢ ReportEnd.WriteFault → O.faults output.new ≡ O.faults output.old }
    ensures write_fault { result ≡ ReportEnd.WriteFault → Rose (O.faults output.old) (O.faults output.new) }
{
    match text_of(wiki, which, most) {
        Ok(text) => write_text(output, &text),
        Err(_) => ReportEnd::Memory,
    }
}

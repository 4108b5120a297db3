//! What is printed of a report.
ghost use Rattle.std.specs.Prelude.{◌≡◌, ◌++◌, ◌∷◌, codes, IfOk, OnOk, flat_map, length, map, string_bytes};
ghost use Rattle.std.specs.Fmt.{decimal};
ghost use Rattle.wk_report_rules.specs.Texts.{line_text, next_title, report_text, titles_text};
ghost use Rattle.wk_report_lines.specs.Lines.{line_of};

use crate::line::ReportLine;
use std::alloc::Global;
use wk_memory::Memory;
use wk_title::{Title, shown};

/// Appends a title behind others.
fn push_next_title(text: &mut String, title: &Title) -> Result<(), Memory>
    ensures { OnOk result (string_bytes text.new ≡ string_bytes text.old ++ next_title title.now) }
{
    text.push_str(" -> ")?;
    shown(title, text)
}

/// Appends titles behind others.
fn push_next_titles(text: &mut String, titles: &[Title]) -> Result<(), Memory>
    ensures { OnOk result (string_bytes text.new ≡ string_bytes text.old ++ flat_map next_title titles.now) }
{
    for title in titles {
        push_next_title(text, title)?;
    }
    Ok(())
}

/// Appends shown titles, with an arrow between one and the next.
fn push_titles(text: &mut String, titles: &[Title]) -> Result<(), Memory>
    ensures { OnOk result (string_bytes text.new ≡ string_bytes text.old ++ titles_text titles.now) }
{
    match titles {
        [] => Ok(()),
        [title, later @ ..] => {
            shown(title, text)?;
            push_next_titles(text, later)
        }
    }
}

/// Appends a line.
fn push_line(text: &mut String, line: &ReportLine) -> Result<(), Memory>
    ensures { OnOk result (string_bytes text.new ≡ string_bytes text.old ++ line_text (line_of line.now)) }
{
    let count = format!(in *text.allocator(); "{} ", line.count)?;
    text.push_str(&count)?;
    push_titles(text, &line.titles)?;
    text.push('\n')?;
    Ok(())
}

/// Appends lines.
fn push_lines(text: &mut String, lines: &[ReportLine]) -> Result<(), Memory>
    ensures { OnOk result (string_bytes text.new ≡ string_bytes text.old ++ flat_map line_text (map line_of lines.now)) }
{
    'lines: for line in lines {
        push_line(text, line)?;
    }
    Ok(())
}

/// What is printed of a report with these lines: each line, its count and its shown titles with ` -> ` between them, and at the end
/// `lines N`.
pub fn report_text(alloc: Global, lines: &[ReportLine]) -> Result<String, Memory>
    ensures { IfOk result (λ text. string_bytes text ≡ report_text (map line_of lines.now)) }
{
    let mut text = String::new(alloc);
    push_lines(&mut text, lines)?;
    let end = format!(in alloc; "lines {}\n", lines.len())?;
    text.push_str(&end)?;
    Ok(text)
}

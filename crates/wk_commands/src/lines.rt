//! What commands print.
ghost use Rattle.std.specs.Prelude.{◌≡◌, ◌++◌, IfOk, OnOk, flat_map, length, string_bytes};
ghost use Rattle.wk_wiki_rules.specs.States.{State};
ghost use Rattle.wk_tool_rules.specs.Checks.{differing, differ_line};
ghost use Rattle.wk_commands.specs.Texts.{check_counts, gen_counts};

use std::alloc::Global;
use wk_memory::Memory;
use wk_title::{Title, shown};

/// Appends the line of a page that differs.
fn push_differ_line(text: &mut String, title: &Title) -> Result<(), Memory>
    ensures { OnOk result (string_bytes text.new ≡ string_bytes text.old ++ differ_line title.now) }
{
    text.push_str("differ ")?;
    shown(title, text)?;
    text.push('\n')?;
    Ok(())
}

/// Appends the lines of the pages that differ.
fn push_differ_lines(text: &mut String, titles: &[Title]) -> Result<(), Memory>
    ensures { OnOk result (string_bytes text.new ≡ string_bytes text.old ++ flat_map differ_line titles.now) }
{
    for title in titles {
        push_differ_line(text, title)?;
    }
    Ok(())
}

/// What `check` prints where these pages differ, and so many exist.
pub fn check_text(alloc: Global, titles: &[Title], pages: usize) -> Result<String, Memory>
    ensures { IfOk result (λ text. string_bytes text ≡ flat_map differ_line titles.now ++ check_counts pages (length titles.now)) }
{
    let mut text = String::new(alloc);
    push_differ_lines(&mut text, titles)?;
    let counts = format!(in alloc; "pages {pages} differ {}\n", titles.len())?;
    text.push_str(&counts)?;
    Ok(text)
}

/// What `gen` prints where so many pages exist, so many revisions were made, and so many pages differ.
pub fn gen_text(
    alloc: Global,
    pages: usize,
    revisions: u64,
    differ: usize,
) -> Result<String, Memory>
    ensures { IfOk result (λ text. string_bytes text ≡ gen_counts pages revisions differ) }
{
    Ok(format!(in alloc; "pages {pages} revisions {revisions} jobs 0 differ {differ}\n")?)
}

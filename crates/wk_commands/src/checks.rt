//! The command `check`.
ghost use Rattle.std.specs.Prelude.{◌≡◌, ◌≢◌, ◌≤◌, ◌==◌, IfOk, length, string_bytes};
ghost use Rattle.wk_base.specs.Faults.{Rose};
ghost use Rattle.wk_tool_rules.specs.Checks.{check_text, differing};
ghost use Rattle.wk_commands.specs.Checked.{IsCompared};

use crate::ends::{CommandEnd, write_text};
use crate::lines::check_text;
use wk_base::Sink;
use wk_core::{Keeper, Wiki};
use wk_memory::Memory;
use wk_tools::check;

/// What `check` prints of a wiki, and whether no page differs.
fn told_pages<K: Keeper>(wiki: &Wiki<K>) -> Result<(String, bool), Memory>
    ensures text { IfOk result (λ told. string_bytes told.0 ≡ check_text wiki.now.state) }
    ensures same { IfOk result (λ told. told.1 ≡ (length (differing wiki.now.state) == 0)) }
{
    let titles = check(wiki)?;
    let text = check_text(wiki.allocator(), &titles, wiki.existing_count())?;
    Ok((text, titles.is_empty()))
}

/// Compares the link rows of each page with those of a new expansion of it, and writes a line for each page that differs,
/// `differ TITLE`, in the order of the pages, and then `pages N differ M`: how many pages exist, and how many differ.
/// The wiki stays as it is.
///
/// `Done` where no page differs, `Differs` where one does; `WriteFault` only where the output's count of faults rose, and
/// a prefix of the text is then written; `Memory` may come, and nothing is written then.
pub fn check_pages<K: Keeper, O: Sink>(wiki: &Wiki<K>, output: &mut O) -> CommandEnd
    ensures compared { IsCompared wiki.now.state (check_text wiki.now.state) (O.taken output.old) (O.taken output.new) result }
    ensures never_falls { O.faults output.old ≤ O.faults output.new }
    ensures no_write_fault { result ≢ CommandEnd.WriteFault → O.faults output.new ≡ O.faults output.old }
    ensures write_fault { result ≡ CommandEnd.WriteFault → Rose (O.faults output.old) (O.faults output.new) }
{
    match told_pages(wiki) {
        Ok((text, is_same)) => write_text(output, &text, is_same),
        Err(_) => CommandEnd::Memory,
    }
}

//! The command `gen`.
ghost use Rattle.std.specs.Prelude.{◌≡◌, ◌≢◌, ◌≤◌, ◌==◌, IfOk, None, length, string_bytes, true};
ghost use Rattle.wk_base.specs.Faults.{Rose};
ghost use Rattle.wk_wiki_rules.specs.Soundness.{IsSound};
ghost use Rattle.wk_core.specs.Loads.{HasOpened};
ghost use Rattle.wk_tool_rules.specs.Checks.{differing, gen_text};
ghost use Rattle.wk_tool_rules.specs.Generator.{generated};
ghost use Rattle.wk_commands.specs.Checked.{IsCompared};
ghost use Rattle.wk_commands.specs.Generated.{EndsDrain, IsGenerated, IsSettled, end_of_refusal};
ghost use Rattle.wk_commands.specs.Lived.{HasLivedOn};

use crate::ends::{CommandEnd, write_text};
use crate::lines::gen_text;
use std::sync::Wait;
use std::thread::Threads;
use wk_base::{Clock, Gate, Sink};
use wk_core::{Keeper, SaveRefusal, Wiki};
use wk_memory::Memory;
use wk_serving::{DrainEnd, drain_wiki};
use wk_tools::{check, generate};

/// How the command ends where a save is refused so.
fn end_of_refusal(refusal: SaveRefusal) -> CommandEnd
    ensures { result ≡ end_of_refusal refusal }
{
    match refusal {
        SaveRefusal::StoreFault => CommandEnd::StoreFault,
        SaveRefusal::Memory => CommandEnd::Memory,
        _ => CommandEnd::Full,
    }
}

/// What `gen` prints of a wiki that has no job left, and whether no page differs.
fn told_counts<K: Keeper>(wiki: &Wiki<K>) -> Result<(String, bool), Memory>
    ensures text { IfOk result (λ told. string_bytes told.0 ≡ gen_text wiki.now.state) }
    ensures same { IfOk result (λ told. told.1 ≡ (length (differing wiki.now.state) == 0)) }
{
    let titles = check(wiki)?;
    let (pages, revisions) = (wiki.existing_count(), wiki.revision_count());
    let text = gen_text(wiki.allocator(), pages, revisions, titles.len())?;
    Ok((text, titles.is_empty()))
}

/// Compares the pages of a wiki that has no job left, and writes the counts.
fn compare<K: Keeper, O: Sink>(wiki: &Wiki<K>, output: &mut O) -> CommandEnd
    ensures compared { IsCompared wiki.now.state (gen_text wiki.now.state) (O.taken output.old) (O.taken output.new) result }
    ensures never_falls { O.faults output.old ≤ O.faults output.new }
    ensures no_write_fault { result ≢ CommandEnd.WriteFault → O.faults output.new ≡ O.faults output.old }
    ensures write_fault { result ≡ CommandEnd.WriteFault → Rose (O.faults output.old) (O.faults output.new) }
{
    match told_counts(wiki) {
        Ok((text, is_same)) => write_text(output, &text, is_same),
        Err(_) => CommandEnd::Memory,
    }
}

/// How `gen` ends where its drain ended so: where no job is left, the pages are compared, and the counts written.
fn end_drain<K: Keeper, O: Sink>(wiki: &Wiki<K>, end: DrainEnd, output: &mut O) -> CommandEnd
    ensures ended { EndsDrain wiki.now.state end result (O.taken output.old) (O.taken output.new) }
    ensures never_falls { O.faults output.old ≤ O.faults output.new }
    ensures no_write_fault { result ≢ CommandEnd.WriteFault → O.faults output.new ≡ O.faults output.old }
    ensures write_fault { result ≡ CommandEnd.WriteFault → Rose (O.faults output.old) (O.faults output.new) }
{
    match end {
        DrainEnd::Done => compare(wiki, output),
        DrainEnd::JournalFull => CommandEnd::Full,
        DrainEnd::StoreFault => CommandEnd::StoreFault,
        DrainEnd::Memory => CommandEnd::Memory,
    }
}

/// Does the jobs until none is left, by so many workers, compares the pages, and writes the counts. It waits.
fn settle<K: Keeper + Send, G: Gate + Copy + Send, O: Sink, R: Threads + Wait + Sync>(
    rt: &R,
    wiki: Wiki<K>,
    gate: G,
    procs: u64,
    output: &mut O,
) -> (Wiki<K>, CommandEnd)
    requires unsealed { wiki.start.sealed ≡ None }
    ensures settled { IsSettled K.is_whole K.faults wiki result.0 (O.taken output.old) (O.taken output.new) result.1 }
    ensures never_falls { O.faults output.old ≤ O.faults output.new }
    ensures no_write_fault { result.1 ≢ CommandEnd.WriteFault → O.faults output.new ≡ O.faults output.old }
    ensures write_fault { result.1 ≡ CommandEnd.WriteFault → Rose (O.faults output.old) (O.faults output.new) }
{
    wiki.facts();
    let (wiki, end) = drain_wiki(rt, wiki, gate, procs);
    wiki.facts();
    let end = end_drain(&wiki, end, output);
    (wiki, end)
}

/// Saves the pages of the generator (`generate`) in a wiki that was just opened: so many, with texts drawn from the number.
/// Then it does all jobs by so many workers (`drain_wiki`), each with a copy of the gate, compares the link rows of each page with
/// those of a new expansion, and writes `pages N revisions R jobs 0 differ M`: the pages that exist, the revisions, and the pages
/// that differ.
///
/// `Done` where no page differs, `Differs` where one does, which can only be where the wiki's rows weren't sound. `Full` where a
/// save is refused because the journal or the wiki is full, or the drain ends so (`drain_jobs`). `StoreFault` only where the keeper's
/// count of faults rose in a save, or isn't 0 behind the drain, `WriteFault` only where the output's rose, and `Memory` may come. At
/// `WriteFault` a prefix of the line is written, at the others but `Done` and `Differs` nothing is. It waits.
pub fn generate_pages<
    K: Keeper + Send,
    G: Gate + Copy + Send,
    O: Sink,
    C: Clock,
    R: Threads + Wait + Sync,
>(
    rt: &R,
    wiki: Wiki<K>,
    gate: G,
    procs: u64,
    pages: u32,
    number: u32,
    output: &mut O,
    clock: &mut C,
) -> (Wiki<K>, CommandEnd)
    requires opened { HasOpened wiki wiki.start.limits }
    ensures generated { IsGenerated K.is_whole K.faults (generated pages number) wiki result.0 (C.left clock.old) (C.left clock.new) (O.taken output.old) (O.taken output.new) result.1 }
    ensures lived { HasLivedOn wiki.state result.0.state }
    ensures sound { IsSound wiki.state → IsSound result.0.state }
    ensures agrees { IsSound wiki.state → result.1 ≢ CommandEnd.Differs }
    ensures tells { result.0.start.tells ≡ wiki.start.tells }
    ensures stays_whole { K.is_whole result.0.keeper ≡ K.is_whole wiki.keeper }
    ensures whole_count { K.is_whole wiki.keeper ≡ true → K.faults result.0.keeper ≡ K.faults wiki.keeper }
    ensures never_falls { O.faults output.old ≤ O.faults output.new }
    ensures no_write_fault { result.1 ≢ CommandEnd.WriteFault → O.faults output.new ≡ O.faults output.old }
    ensures write_fault { result.1 ≡ CommandEnd.WriteFault → Rose (O.faults output.old) (O.faults output.new) }
{
    wiki.facts();
    let mut wiki = wiki;
    match generate(&mut wiki, pages, number, clock) {
        Ok(()) => {
            wiki.facts();
            settle(rt, wiki, gate, procs, output)
        }
        Err(refusal) => {
            wiki.facts();
            (wiki, end_of_refusal(refusal))
        }
    }
}

//! The top call of the program.
ghost use Rattle.std.specs.Prelude.{◌≡◌, ◌≤◌, ◌⊎◌, ◌==◌, true};
ghost use Rattle.std.specs.List.{list_any};
ghost use Rattle.wk_base.specs.Faults.{Rose};
ghost use Rattle.wk_words.specs.Answers.{IsInRange, texts, wanted_of};
ghost use Rattle.wk_words.specs.Verdicts.{is_refused, verdict};
ghost use Rattle.wk_cli.specs.Finished.{IsCarriedOut, IsFinished, store_named};
ghost use Rattle.wk_cli.specs.Statuses.{statuses};

use crate::ends::{Finish, unopened};
use crate::helps::show;
use crate::replicas::replica;
use crate::reports::report;
use crate::scripts::script;
use crate::serves::serve;
use crate::works::work;
use std::alloc::Global;
use std::sync::Wait;
use std::thread::Threads;
use wk_base::{Clock, Gate, Sink, Source};
use wk_commands::Work::{Check, Jobs};
use wk_commands::{Following, Hands, Serving, Work};
use wk_door::Door;
use wk_keeper::Vault;
use wk_words::{Command, CommandLine, Refusal, read};

/// Does what a legal command line asks for, over the store of its name. It waits.
fn carry_out<
    V: Vault,
    I: Source + Send,
    O: Sink + Send,
    C: Clock + Send,
    D: Door + Send,
    G: Gate + Copy + Send,
    R: Threads + Wait + Sync,
>(
    rt: &R,
    alloc: Global,
    line: &CommandLine<'_>,
    vault: &mut V,
    input: &mut I,
    output: &mut O,
    clock: &mut C,
    door: &mut D,
    gate: G,
) -> Finish<V::Store>
where
    V::Store: Send,
    D::Link: Send,
    requires within { IsInRange line.now }
    ensures carried_out { IsCarriedOut V.Store.told V.Store.faults V.Store.is_whole (wanted_of line.now)
        (store_named (record { tables = V.told vault.old; whole = V.opens_whole vault.old }) (wanted_of line.now).store) (V.faults vault.old) (V.faults vault.new)
        (record { told = D.told door.old; faults = D.faults door.old }) (record { told = D.told door.new; faults = D.faults door.new })
        (record { rest = I.rest input.old; moments = C.left clock.old; taken = O.taken output.old })
        (record { rest = I.rest input.new; moments = C.left clock.new; taken = O.taken output.new }) result }
    ensures reads_never_fall { I.faults input.old ≤ I.faults input.new }
    ensures no_read_fault { result.status ≡ 0 → I.faults input.new ≡ I.faults input.old }
    ensures read_fault { result.status ≡ 3 → Rose (I.faults input.old) (I.faults input.new) }
    ensures writes_never_fall { O.faults output.old ≤ O.faults output.new }
    ensures no_write_fault { result.status ≡ 0 → O.faults output.new ≡ O.faults output.old }
    ensures write_fault { result.status ≡ 4 → Rose (O.faults output.old) (O.faults output.new) }
    ensures opens_never_fall { V.faults vault.old ≤ V.faults vault.new }
    ensures doors_never_fall { D.faults door.old ≤ D.faults door.new }
    ensures no_door_fault { result.status ≡ 0 → D.faults door.new ≡ D.faults door.old }
    ensures door_fault { result.status ≡ 6 → Rose (D.faults door.old) (D.faults door.new) }
{
    let (name, limit) = (line.store, line.journal_limit);
    let hands = Hands {
        procs: line.procs,
        gate,
    };
    match line.command {
        Command::Script => script(alloc, vault, name, limit, input, output, clock),
        Command::Serve => {
            let asked = Serving {
                address: line.listen,
                workers: line.workers,
                most: line.max_connections,
                feed: line.feed,
            };
            serve(
                rt, alloc, vault, name, limit, asked, gate, door, clock, output,
            )
        }
        Command::Jobs => work(rt, alloc, vault, name, limit, Jobs, hands, output, clock),
        Command::Check => work(rt, alloc, vault, name, limit, Check, hands, output, clock),
        Command::Generate => {
            let pages = Work::Generate {
                pages: line.pages,
                number: line.number,
            };
            work(rt, alloc, vault, name, limit, pages, hands, output, clock)
        }
        Command::Report => report(alloc, vault, name, line.report, line.most as usize, output),
        Command::Replica => {
            let (address, workers, most) = (line.listen, line.workers, line.max_connections);
            let asked = Following {
                address,
                workers,
                most,
            };
            replica(rt, alloc, asked, input, output, door)
        }
    }
}

/// Runs the program on its words, a vault, an input, an output, a clock, a door and a gate, of which each worker has a copy. Help and the version are written to the output.
/// `script` runs the lines of the input over the wiki of the store that is named ([`run_script`](wk_script::run_script)),
/// and `jobs`, `check` and `gen` do their work over it ([`work_over`](wk_commands::work_over)), each with a journal of at most
/// as many events as the line says; `jobs` and `gen` do the jobs by as many workers as `--procs` says. `serve` serves the connections
/// that come in by the door, by as many workers as `--workers` says ([`serve_over`](wk_commands::serve_over)), and with `--feed` it
/// writes the wiki's feed in the place of its lines. `report` writes a report of the store with at most as many lines as `--most` says
/// ([`report_over`](wk_reports::report_over)), and makes no event. `replica` opens no store: it takes the lines of the input, which are
/// such a feed, and serves the connections that come in by the door from what these tell, by as many workers as `--workers` says
/// ([`follow_feed`](wk_commands::follow_feed)).
///
/// Its commands but `script`, `check` and `report` wait for each other's threads, and `serve` and `replica` for their peers too: it isn't
/// promised that it returns.
///
/// The status is
/// - 0: all was done: all lines of the input were answered, to its end; or no job is left and no page differs, where pages
///   were compared; or the report was written; or as many connections were served as were asked for, or none was left, and a feed
///   that is written tells all that was done, one that is taken was taken to the input's end;
/// - 1: memory ran out;
/// - 2: the words aren't a legal command line ([`read`]), and nothing was touched;
/// - 3: a read of the input failed;
/// - 4: a write of the output failed;
/// - 5: the store couldn't be opened, or failed when it was loaded, or in `jobs` and `gen` when it was changed (what fails for a worker is
///   tried once more, on one thread);
/// - 6: the door couldn't listen, or an accept failed;
/// - 7: the tables that were loaded break a rule of a good store;
/// - 8: `check` or `gen` found a page that differs;
/// - 9: 2^40 bytes of the input were read, by `script` or `replica`;
/// - 10: a save of `gen` met a full journal or a limit of the wiki, or a drain met a full journal in a life without events;
/// - 11: a line of the feed that `replica` takes is bad, or the input ended before the line of the start; `bad` has its number.
///
/// At 0 and 8 all is written, at every other status a prefix of it: in `script` of the replies to the whole lines that were
/// read, at 3 and 9 all of them; of a feed at 6 all or nothing, at the others a part that isn't told; in `replica` nothing but at 4.
pub fn wiki_main<
    V: Vault,
    I: Source + Send,
    O: Sink + Send,
    C: Clock + Send,
    D: Door + Send,
    G: Gate + Copy + Send,
    R: Threads + Wait + Sync,
>(
    rt: &R,
    alloc: Global,
    words: &[String],
    vault: &mut V,
    input: &mut I,
    output: &mut O,
    clock: &mut C,
    door: &mut D,
    gate: G,
) -> Finish<V::Store>
where
    V::Store: Send,
    D::Link: Send,
    ensures known { list_any (λ status. result.status == status) statuses ≡ true }
    // The words are refused at status 2 alone, and then for what they are; want of memory may come before they are read.
    ensures refused { result.status ≡ 2 → is_refused (verdict (texts words.now)) ≡ true }
    ensures only_so { is_refused (verdict (texts words.now)) ≡ true → (result.status ≡ 2) ⊎ (result.status ≡ 1) }
    // What was opened and done, by the end: what is written is what the rules say of what is read, of the store and of the
    // moments, and the store that is handed back tells the tables of the last state.
    ensures finished { IsFinished V.Store.told V.Store.faults V.Store.is_whole (verdict (texts words.now))
        (record { tables = V.told vault.old; whole = V.opens_whole vault.old }) (V.faults vault.old) (V.faults vault.new)
        (record { told = D.told door.old; faults = D.faults door.old }) (record { told = D.told door.new; faults = D.faults door.new })
        (record { rest = I.rest input.old; moments = C.left clock.old; taken = O.taken output.old })
        (record { rest = I.rest input.new; moments = C.left clock.new; taken = O.taken output.new }) result }

    ensures reads_never_fall { I.faults input.old ≤ I.faults input.new }
    ensures no_read_fault { result.status ≡ 0 → I.faults input.new ≡ I.faults input.old }
    ensures read_fault { result.status ≡ 3 → Rose (I.faults input.old) (I.faults input.new) }
    ensures writes_never_fall { O.faults output.old ≤ O.faults output.new }
    ensures no_write_fault { result.status ≡ 0 → O.faults output.new ≡ O.faults output.old }
    ensures write_fault { result.status ≡ 4 → Rose (O.faults output.old) (O.faults output.new) }
    ensures opens_never_fall { V.faults vault.old ≤ V.faults vault.new }
    ensures no_open_fault { result.status ≡ 0 → V.faults vault.new ≡ V.faults vault.old }
    ensures doors_never_fall { D.faults door.old ≤ D.faults door.new }
    ensures no_door_fault { result.status ≡ 0 → D.faults door.new ≡ D.faults door.old }
    ensures door_fault { result.status ≡ 6 → Rose (D.faults door.old) (D.faults door.new) }
{
    match read(alloc, words) {
        Ok(line) => carry_out(rt, alloc, &line, vault, input, output, clock, door, gate),
        Err(Refusal::Words(_)) => unopened(alloc, 2),
        Err(Refusal::Help(text)) => show(alloc, &text, output),
        Err(Refusal::Version(text)) => show(alloc, &text, output),
        Err(Refusal::Memory) => unopened(alloc, 1),
    }
}

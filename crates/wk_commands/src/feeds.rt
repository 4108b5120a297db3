//! The command `serve` with its feed.
ghost use Rattle.std.specs.Prelude.{◌≡◌, ◌≢◌, ◌⊎◌, ◌≤◌, ℕ, List, [], Err, IfErr, OnOk};
ghost use Rattle.std.specs.Io.KnownBytes.{Appends};
ghost use Rattle.wk_base.specs.Faults.{Rose};
ghost use Rattle.wk_wiki_rules.specs.Events.{Event};
ghost use Rattle.wk_wiki_rules.specs.States.{State};
ghost use Rattle.wk_core.specs.Loads.{HasOpened};
ghost use Rattle.wk_feed_rules.specs.Feeds.{start_lines};
ghost use Rattle.wk_feeder.specs.Bytes.{feed_bytes};
ghost use Rattle.wk_door.specs.Told.{listening};
ghost use Rattle.wk_commands.specs.Fed.{HasBegunFed, HasFedAt, IsUnfed, end_of_feeding};
ghost use Rattle.wk_commands.specs.Served.{GivesAtMost, IsServedFrom};

use crate::ends::CommandEnd;
use crate::serves::Serving;
use std::sync::Wait;
use std::thread::Threads;
use wk_base::{Clock, Gate, Sink};
use wk_core::{Keeper, Wiki};
use wk_door::Door;
use wk_feeder::feed_start;
use wk_memory::Memory;
use wk_serving::{FeedRefusal, ServedFed, Shut, Taken, serve_fed};

/// The first lines of the wiki's feed are written, or serving ends so.
fn write_start<K: Keeper, O: Sink>(wiki: &Wiki<K>, output: &mut O) -> Result<(), CommandEnd>
    requires { wiki.now.journal ≡ [] }
    ensures sent { OnOk result (Appends (O.taken output.old) (O.taken output.new) (feed_bytes (start_lines wiki.now.start.state))) }
    ensures ends { IfErr result IsUnfed }
    ensures never_falls { O.faults output.old ≤ O.faults output.new }
    ensures no_write_fault { result ≢ Err CommandEnd.WriteFault → O.faults output.new ≡ O.faults output.old }
    ensures write_fault { result ≡ Err CommandEnd.WriteFault → Rose (O.faults output.old) (O.faults output.new) }
{
    match feed_start(wiki, output) {
        Ok(()) => Ok(()),
        Err(FeedRefusal::WriteFault) => Err(CommandEnd::WriteFault),
        Err(FeedRefusal::Memory) => Err(CommandEnd::Memory),
    }
}

/// The door listens at the address, and the first lines of the wiki's feed are written. Answers how serving ends where it ends already
/// here.
fn begin_fed<K: Keeper, D: Door, O: Sink>(
    wiki: &Wiki<K>,
    address: &str,
    door: &mut D,
    output: &mut O,
) -> Result<(), CommandEnd>
    requires { wiki.now.journal ≡ [] }
    ensures begun { OnOk result (HasBegunFed address.now wiki.now.start.state (D.told door.old) (D.told door.new) (D.faults door.old) (D.faults door.new) (O.taken output.old) (O.taken output.new)) }
    ensures ended { IfErr result (λ end. (most : ℕ) (from : State) (events : List Event) → HasFedAt address.now most (D.told door.old) (D.told door.new) (D.faults door.old) (D.faults door.new)
        (O.taken output.old) (O.taken output.new) from events end) }
    ensures listens { (D.told door.new ≡ listening (D.told door.old) address.now) ⊎ (D.told door.new ≡ D.told door.old) }
    ensures never_falls { O.faults output.old ≤ O.faults output.new }
    ensures no_write_fault { result ≢ Err CommandEnd.WriteFault → O.faults output.new ≡ O.faults output.old }
    ensures write_fault { result ≡ Err CommandEnd.WriteFault → Rose (O.faults output.old) (O.faults output.new) }
    ensures door_never_falls { D.faults door.old ≤ D.faults door.new }
{
    match door.listen(address) {
        Ok(()) => write_start(wiki, output),
        Err(_) => Err(CommandEnd::DoorFault),
    }
}

/// How serving ends where this was sent of the feed and this taken of the door. What wasn't sent counts first.
fn end_feeding(sent: Result<u64, FeedRefusal>, end: Result<Taken, Memory>) -> CommandEnd
    ensures { result ≡ end_of_feeding sent end }
{
    match (sent, end) {
        (Err(FeedRefusal::WriteFault), _) => CommandEnd::WriteFault,
        (Err(FeedRefusal::Memory), _) => CommandEnd::Memory,
        (Ok(_), Err(_)) => CommandEnd::Memory,
        (Ok(_), Ok(taken)) => match taken.shut {
            Some(Shut::Broken) => CommandEnd::DoorFault,
            Some(Shut::Empty) => CommandEnd::Done,
            None => CommandEnd::Done,
        },
    }
}

/// Serves the connections that come in at an address, as `serve_plain` does, and writes the wiki's feed in the place of both lines: those
/// of its start once the door listens, and those of the events behind each session and in the end (`serve_fed`). Where that is refused no
/// worker serves a further link. It waits.
pub(crate) fn serve_feeding<
    K: Keeper + Send,
    G: Gate + Copy + Send,
    D: Door + Send,
    C: Clock + Send,
    O: Sink + Send,
    R: Threads + Wait + Sync,
>(
    rt: &R,
    wiki: Wiki<K>,
    gate: G,
    asked: Serving<'_>,
    door: &mut D,
    clock: &mut C,
    output: &mut O,
) -> (Wiki<K>, CommandEnd)
where
    D::Link: Send,
    requires opened { HasOpened wiki wiki.start.limits }
    ensures served { HasFedAt asked.entry.address.now asked.entry.most (D.told door.old) (D.told door.new) (D.faults door.old) (D.faults door.new)
        (O.taken output.old) (O.taken output.new) wiki.state result.0.journal result.1 }
    ensures links { GivesAtMost asked.entry.address.now asked.entry.most (D.told door.old) (D.told door.new) }
    ensures wiki { IsServedFrom wiki result.0 }
    ensures never_falls { O.faults output.old ≤ O.faults output.new }
    ensures no_write_fault { result.1 ≢ CommandEnd.WriteFault → O.faults output.new ≡ O.faults output.old }
    ensures write_fault { result.1 ≡ CommandEnd.WriteFault → Rose (O.faults output.old) (O.faults output.new) }
    ensures door_never_falls { D.faults door.old ≤ D.faults door.new }
{
    wiki.facts();
    match begin_fed(&wiki, asked.address, door, output) {
        Ok(()) => {
            let ServedFed { wiki, end, sent } = serve_fed(
                rt,
                wiki,
                door,
                clock,
                gate,
                asked.workers,
                asked.most,
                output,
            );
            wiki.facts();
            let end = end_feeding(sent, end);
            (wiki, end)
        }
        Err(end) => (wiki, end),
    }
}

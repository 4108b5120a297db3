//! The lines of a script, answered and written.
ghost use Rattle.std.specs.Prelude.{◌≡◌, ◌++◌, ◌∷◌, ◌≤◌, ℕ, List, [], Option, None, Err, false, IfErr, OnOk, OnErr};
ghost use Rattle.std.specs.Io.KnownBytes.{Appends};
ghost use Rattle.serde_json.specs.View.{view};
ghost use Rattle.serde_json.specs.Written.{compact_text, has_float};
ghost use Rattle.wk_base.specs.Faults.{Rose};
ghost use Rattle.wk_base.specs.Writing.{AppendsPrefix};
ghost use Rattle.wk_lines.specs.Stop.{IsWriting};
ghost use Rattle.wk_script_lines.specs.Lines.{line_meant};
ghost use Rattle.wk_script_runs.specs.Lines.{HasReply};
ghost use Rattle.wk_script_steps.specs.Seen.{Holds};
ghost use Rattle.wk_script_runs.specs.Served.{Writes};
ghost use Rattle.wk_script_runs.specs.Serving.{WritesFirst};
ghost use Rattle.wk_script_rules.specs.ScriptLines.{script_line};

use crate::answers::answer;
use crate::run::Run;
use serde_json::Value;
use std::alloc::Global;
use wk_base::{Clock, Failed, Sink, write_all};
use wk_keeper::Keeper;
use wk_lines::Stop;
use wk_memory::Memory;
use wk_script_lines::{ScriptLine, reply_line};

/// Writes the line of a reply's value.
pub fn write_reply<O: Sink>(alloc: Global, value: &Value, output: &mut O) -> Result<(), Stop>
    requires { has_float (view value.now) ≡ false }
    ensures ok { OnOk result (Appends (O.taken output.old) (O.taken output.new) (compact_text (view value.now) ++ 10 ∷ [])) }
    ensures err { OnErr result (AppendsPrefix (O.taken output.old) (O.taken output.new) (compact_text (view value.now) ++ 10 ∷ [])) }
    ensures stops { IfErr result IsWriting }
    ensures never_falls { O.faults output.old ≤ O.faults output.new }
    ensures no_fault { OnOk result (O.faults output.new ≡ O.faults output.old) }
    ensures cause { result ≡ Err Stop.WriteFault → Rose (O.faults output.old) (O.faults output.new) }
{
    match reply_line(alloc, value) {
        Err(Memory) => Err(Stop::Memory),
        Ok(line) => match write_all(output, line.as_bytes()) {
            Ok(()) => Ok(()),
            Err(Failed) => Err(Stop::WriteFault),
        },
    }
}

/// Answers a line that has a reply and is no restart, and writes the answer. Its point is put to the others.
pub fn serve<K: Keeper, O: Sink, C: Clock>(
    run: &mut Run<K>,
    line: ScriptLine<'_>,
    output: &mut O,
    clock: &mut C,
) -> Result<(), Stop>
    requires holds { Holds run.old.wiki.state run.old.tickets.items }
    requires unsealed { run.old.wiki.start.sealed ≡ None }
    requires some { HasReply line }
    ensures ok { OnOk result ((raw : Option (List ℕ)) → script_line raw ≡ line_meant line.entry
        → Writes K.told K.faults run.old.wiki run.new.wiki run.old.tickets.items run.new.tickets.items (raw ∷ [])
        (C.left clock.old) (C.left clock.new) (O.taken output.old) (O.taken output.new) run.old.points.items run.new.points.items) }
    ensures err { OnErr result ((raw : Option (List ℕ)) → script_line raw ≡ line_meant line.entry
        → WritesFirst K.told K.faults run.old.wiki run.new.wiki run.old.tickets.items run.new.tickets.items (raw ∷ [])
        (C.left clock.old) (C.left clock.new) (O.taken output.old) (O.taken output.new) run.old.points.items run.new.points.items) }
    ensures stops { IfErr result IsWriting }
    ensures never_falls { O.faults output.old ≤ O.faults output.new }
    ensures no_fault { OnOk result (O.faults output.new ≡ O.faults output.old) }
    ensures cause { result ≡ Err Stop.WriteFault → Rose (O.faults output.old) (O.faults output.new) }
{
    if let Err(_) = run.points.reserve(1) {
        return Err(Stop::Memory);
    }
    let answered = answer(&mut run.wiki, &mut run.tickets, &mut run.trees, line, clock);
    run.points.push_reserved(run.wiki.point());
    match answered {
        Ok(value) => write_reply(run.wiki.allocator(), &value, output),
        Err(Memory) => Err(Stop::Memory),
    }
}

// Writing the whole of a text.
ghost use Rattle.std.specs.Prelude.{◌≡◌, ◌≤◌, OnErr, OnOk};
ghost use Rattle.std.specs.Io.KnownBytes.{Appends};
ghost use Rattle.wk_base.specs.Faults.{Rose};
ghost use Rattle.wk_base.specs.Writing.{AppendsPrefix, EndsAtFirstFault};

use crate::{Failed, Sink};

/// Writes all the bytes, in as many writes as the sink wants. Where there are none, it writes nothing.
///
/// `Failed` is that of the first write that fails, and comes only where the sink's count of faults rose in this call,
/// or stands at its end. A prefix of the bytes was then taken, and no write was made after that one. Where the answer
/// is `Ok` the count is as it was.
pub fn write_all<O: Sink>(output: &mut O, bytes: &[u8]) -> Result<(), Failed>
    ensures ok { OnOk result (Appends (O.taken output.old) (O.taken output.new) bytes.now) }
    ensures err { OnErr result (AppendsPrefix (O.taken output.old) (O.taken output.new) bytes.now) }
    ensures never_falls { O.faults output.old ≤ O.faults output.new }
    ensures no_fault { OnOk result (O.faults output.new ≡ O.faults output.old) }
    ensures first_fault { OnErr result (EndsAtFirstFault O O.taken O.faults output.old output.new bytes.now) }
    ensures cause { OnErr result (Rose (O.faults output.old) (O.faults output.new)) }
{
    let mut at = 0;
    'writes: while at < bytes.len() {
        at += output.write(&bytes[at..])?;
    }
    Ok(())
}

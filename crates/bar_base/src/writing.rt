ghost use Rattle.std.specs.Prelude.{◌≡◌, OnOk, OnErr};
ghost use Rattle.std.specs.Io.KnownBytes.{Appends};
ghost use Rattle.bar_base.specs.Faults.{HasCause};
ghost use Rattle.bar_base.specs.Outside.{AppendsPrefix};

use crate::failed::Failed;
use crate::sink::Sink;

/// Writes the whole of `piece`, in as many writes as the sink needs. `Failed` has written a prefix of it, perhaps nothing, and is
/// answered only where a fault was counted.
pub fn write_all<S: Sink>(sink: &mut S, piece: &[u8]) -> Result<(), Failed>
    ensures whole { OnOk result (Appends (S.held sink.old) (S.held sink.new) piece.now) }
    ensures part { OnErr result (AppendsPrefix (S.held sink.old) (S.held sink.new) piece.now) }
    ensures rest { S.rest sink.new ≡ S.rest sink.old }
    ensures cause { HasCause (S.faults sink.old) (S.faults sink.new) result }
{
    let mut done = 0;
    while done < piece.len() {
        done += sink.write(&piece[done..])?;
    }
    Ok(())
}

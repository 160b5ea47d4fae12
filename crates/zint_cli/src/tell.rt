//! The line that says why a call has no whole output.
ghost use Rattle.std.specs.Prelude.{◌≡◌, ◌≢◌};
ghost use Rattle.zint_answers.specs.FaultLine.{status_of};
ghost use Rattle.zint_cli.specs.Effects.{WritesLine};

use bar_base::Sink;
use zint_answers::{Fault, write_fault};

/// Writes the line of a fault, and gives its status. It takes no memory. Where the writing fails, a prefix was written and the status
/// is the same.
pub fn tell<E: Sink>(err: &mut E, fault: &Fault) -> u8
    ensures status { result ≡ status_of fault.now }
    ensures refused { result ≢ 0 }
    ensures line { WritesLine (E.held err.old) (E.held err.new) (E.faults err.old) (E.faults err.new) fault.now }
{
    let _ = write_fault(err, fault);
    fault.status()
}

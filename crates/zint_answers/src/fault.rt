//! Why a call does not end with its whole output.
ghost use Rattle.std.specs.Prelude.{◌≡◌};
ghost use Rattle.zint_answers.specs.FaultLine.{status_of};

use crate::refusal::Refusal;
use bar_base::NoMemory;

/// Why a call does not end with its whole output.
#[derive(Debug, Drop)]
pub enum Fault {
    /// There was no memory.
    NoMemory,
    /// The input cannot be read.
    Unread,
    /// The output cannot be written whole.
    Unwritten,
    /// There is an answer, and it is this refusal.
    Refused(Refusal),
}

impl Fault {
    /// The exit status, which is never 0.
    pub fn status(&self) -> u8
        ensures { result ≡ status_of self.now }
    {
        match self {
            Fault::NoMemory => 11,
            Fault::Unread => 10,
            Fault::Unwritten => 12,
            Fault::Refused(refusal) => refusal.status(),
        }
    }
}

impl From<NoMemory> for Fault {
    ghost use Rattle.std.specs.Prelude.{◌≡◌};
    ghost use Rattle.zint_answers.specs.declared.fault.Fault.TheVariants as fault;

    ghost from_gives = { λ _ f. f ≡ fault.NoMemory };

    fn from(_none: NoMemory) -> Fault {
        Fault::NoMemory
    }
}

impl From<Refusal> for Fault {
    ghost use Rattle.std.specs.Prelude.{◌≡◌};
    ghost use Rattle.zint_answers.specs.declared.fault.Fault.TheVariants as fault;

    ghost from_gives = { λ refusal f. f ≡ fault.Refused refusal };

    fn from(refusal: Refusal) -> Fault {
        Fault::Refused(refusal)
    }
}

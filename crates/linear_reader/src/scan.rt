//! What a row reads as, and why it is not read.
use bar_base::{Elements, NoMemory, Short};
use std::alloc::{AllocError, AllocFailed};
use thiserror::Error;

/// What a row of bars reads as.
#[derive(Debug, Drop)]
pub struct Scan {
    /// The elements: bytes, and FNC1 in Code 128; in ITF-14 all fourteen digits.
    pub body: Elements,
    /// The check values, in the order in which they stand.
    pub checks: Short<2>,
    /// Whether it was read from its right end.
    pub backward: bool,
}

/// Why a row was not read.
#[derive(Debug, Clone, Copy, PartialEq, Eq, Error)]
pub enum ScanFault {
    /// No memory was found.
    #[error("NoMemory")]
    NoMemory,
    /// Neither end begins with a start.
    #[error("NoStart")]
    NoStart,
    /// At this module, counted from 0 in the direction of reading, neither a pattern stands nor an end that may stand there.
    #[error("BadPattern")]
    BadPattern(usize),
    /// The check at this place in the list of values is given as the first number where the check is the second.
    #[error("BadCheck")]
    BadCheck(usize, u8, u8),
    /// The value at this place in the list of values may not stand there, or the values may not end in front of it.
    #[error("BadSpelling")]
    BadSpelling(usize),
}

impl From<NoMemory> for ScanFault {
    ghost use Rattle.std.specs.Prelude.{◌≡◌};
    ghost use Rattle.linear_reader.specs.declared.scan.ScanFault.TheVariants as fault;

    ghost from_gives = { λ _ e. e ≡ fault.NoMemory };

    fn from(_error: NoMemory) -> ScanFault {
        ScanFault::NoMemory
    }
}

impl From<AllocError> for ScanFault {
    ghost use Rattle.std.specs.Prelude.{◌≡◌};
    ghost use Rattle.linear_reader.specs.declared.scan.ScanFault.TheVariants as fault;

    ghost from_gives = { λ _ e. e ≡ fault.NoMemory };

    fn from(_error: AllocError) -> ScanFault {
        ScanFault::NoMemory
    }
}

impl<T: Drop> From<AllocFailed<T>> for ScanFault {
    ghost use Rattle.std.specs.Prelude.{◌≡◌};
    ghost use Rattle.linear_reader.specs.declared.scan.ScanFault.TheVariants as fault;

    ghost from_gives = { λ _ e. e ≡ fault.NoMemory };

    fn from(_error: AllocFailed<T>) -> ScanFault {
        ScanFault::NoMemory
    }
}

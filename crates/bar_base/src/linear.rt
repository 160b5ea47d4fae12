//! Symbols of one kind: rows of bars and spaces, and the four-state symbol of bars of four lengths.

use crate::grid::Grid;
use crate::no_memory::NoMemory;
use crate::short::Short;
use std::alloc::{AllocError, AllocFailed};
use thiserror::Error;

/// A symbol with its check values, in the order in which they are drawn.
#[derive(Debug, Drop)]
pub struct Linear {
    pub grid: Grid,
    pub checks: Short<2>,
}

/// Why a text was not drawn.
#[derive(Debug, Clone, Copy, PartialEq, Eq, Error)]
pub enum LinearFault {
    /// There was no memory for it.
    #[error("NoMemory")]
    NoMemory,
    /// The byte at this place, counted from 0, stands for nothing in the symbol.
    #[error("BadCharacter")]
    BadCharacter(usize),
    /// It has more bytes than a symbol takes.
    #[error("TooLong")]
    TooLong,
    /// The digit at this place, counted from 0, is given as the first number where the check digit is the second.
    #[error("BadCheck")]
    BadCheck(usize, u8, u8),
}

impl From<NoMemory> for LinearFault {
    ghost use Rattle.std.specs.Prelude.{◌≡◌};
    ghost use Rattle.bar_base.specs.declared.linear.LinearFault.TheVariants as fault;

    ghost from_gives = { λ _ e. e ≡ fault.NoMemory };

    fn from(_error: NoMemory) -> LinearFault {
        LinearFault::NoMemory
    }
}

impl From<AllocError> for LinearFault {
    ghost use Rattle.std.specs.Prelude.{◌≡◌};
    ghost use Rattle.bar_base.specs.declared.linear.LinearFault.TheVariants as fault;

    ghost from_gives = { λ _ e. e ≡ fault.NoMemory };

    fn from(_error: AllocError) -> LinearFault {
        LinearFault::NoMemory
    }
}

impl<T: Drop> From<AllocFailed<T>> for LinearFault {
    ghost use Rattle.std.specs.Prelude.{◌≡◌};
    ghost use Rattle.bar_base.specs.declared.linear.LinearFault.TheVariants as fault;

    ghost from_gives = { λ _ e. e ≡ fault.NoMemory };

    fn from(_error: AllocFailed<T>) -> LinearFault {
        LinearFault::NoMemory
    }
}

//! Why a text stands for no bytes.
ghost use Rattle.std.specs.Prelude.{◌≡◌};
ghost use Rattle.input_escapes.specs.declared.fault.EscapeFault.TheVariants as fault;

use std::alloc::{AllocError, AllocFailed};
use thiserror::Error;

/// Why a text stands for no bytes, with the place of the first backslash that begins no piece, counted from 0 in bytes.
#[derive(Debug, Drop, Error)]
pub enum EscapeFault {
    /// There was no memory.
    #[error("NoMemory")]
    NoMemory,
    /// No form has the letter after the backslash.
    #[error("UnknownEscape")]
    UnknownEscape(usize),
    /// The text ends after the backslash, or fewer digits of the base stand there than the form has.
    #[error("ShortEscape")]
    ShortEscape(usize),
    /// The number is past the bound of its form, or a surrogate.
    #[error("OutOfRange")]
    OutOfRange(usize),
}

impl From<AllocError> for EscapeFault {
    ghost from_gives = { λ _ e. e ≡ fault.NoMemory };

    fn from(_error: AllocError) -> EscapeFault {
        EscapeFault::NoMemory
    }
}

impl<T: Drop> From<AllocFailed<T>> for EscapeFault {
    ghost from_gives = { λ _ e. e ≡ fault.NoMemory };

    fn from(_error: AllocFailed<T>) -> EscapeFault {
        EscapeFault::NoMemory
    }
}

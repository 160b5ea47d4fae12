//! Why a text has no bytes in a set, and bytes no text.
ghost use Rattle.std.specs.Prelude.{◌≡◌};
ghost use Rattle.eci_sets.specs.declared.fault.SetFault.TheVariants as fault;

use std::alloc::AllocError;
use thiserror::Error;

/// Why a text has no bytes in a set, or bytes have no text; a place is counted from 0 in bytes of the text or of the
/// bytes.
#[derive(Debug, Drop, Error)]
pub enum SetFault {
    /// There was no memory.
    #[error("NoMemory")]
    NoMemory,
    /// The number names none of the ten sets.
    #[error("UnknownEci")]
    UnknownEci,
    /// The set lacks the character that begins at this place of the text.
    #[error("NoCharacter")]
    NoCharacter(usize),
    /// At this place of the bytes begins no character of the set.
    #[error("BadBytes")]
    BadBytes(usize),
}

impl From<AllocError> for SetFault {
    ghost from_gives = { λ _ e. e ≡ fault.NoMemory };

    fn from(_error: AllocError) -> SetFault {
        SetFault::NoMemory
    }
}

//! Why a text has no body.
ghost use Rattle.std.specs.Prelude.{◌≡◌};
ghost use Rattle.gs1_check.specs.declared.fault.Gs1Fault.TheVariants as fault;

use bar_base::NoMemory;
use thiserror::Error;

/// Why a text has no body; a place is counted from 0 in bytes of the text.
#[derive(Debug, Drop, Error)]
pub enum Gs1Fault {
    /// There was no memory.
    #[error("NoMemory")]
    NoMemory,
    /// At this place a bracket is missing.
    #[error("BadBracket")]
    BadBracket(usize),
    /// The digits from this place on are no identifier.
    #[error("UnknownIdentifier")]
    UnknownIdentifier(usize),
    /// The value that begins at this place is too short or too long.
    #[error("BadLength")]
    BadLength(usize),
    /// The byte at this place is outside the character set, or no digit in a numeric part.
    #[error("BadCharacter")]
    BadCharacter(usize),
    /// The value that begins at this place is no date.
    #[error("BadDate")]
    BadDate(usize),
    /// At this place the check digit is the first number, 0 to 9, where the second is wanted.
    #[error("BadCheck")]
    BadCheck(usize, u8, u8),
}

impl From<NoMemory> for Gs1Fault {
    ghost from_gives = { λ _ e. e ≡ fault.NoMemory };

    fn from(_error: NoMemory) -> Gs1Fault {
        Gs1Fault::NoMemory
    }
}

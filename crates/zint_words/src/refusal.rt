//! Why words are refused.
ghost use Rattle.std.specs.Prelude.{◌≡◌};
ghost use Rattle.zint_words.specs.declared.refusal.Refusal.TheVariants as refusal;

use std::alloc::AllocError;
use thiserror::Error;

/// Why the words give no settings.
#[derive(Debug, Drop, Error)]
pub enum Refusal {
    /// The command does not take the words.
    #[error("Usage")]
    Usage,
    /// A rule on the options is broken; the text names it, as in `--secure=5`.
    #[error("BadOption")]
    BadOption(String),
    /// There was no memory.
    #[error("NoMemory")]
    NoMemory,
}

impl From<AllocError> for Refusal {
    ghost from_gives = { λ _ e. e ≡ refusal.NoMemory };

    fn from(_error: AllocError) -> Refusal {
        Refusal::NoMemory
    }
}

//! Why no values are drawn.
use bar_base::NoMemory;
use thiserror::Error;

/// Why no values are drawn.
#[derive(Debug, Drop, Error)]
pub enum CodeFault {
    /// No memory was found.
    #[error("NoMemory")]
    NoMemory,
    /// There are more than 256 elements.
    #[error("TooLong")]
    TooLong,
}

impl From<NoMemory> for CodeFault {
    ghost use Rattle.std.specs.Prelude.{◌≡◌};
    ghost use Rattle.code128_best.specs.declared.code_fault.CodeFault.TheVariants.{NoMemory as Wanting};

    ghost from_gives = { λ _ fault. fault ≡ Wanting };

    fn from(_: NoMemory) -> CodeFault {
        CodeFault::NoMemory
    }
}

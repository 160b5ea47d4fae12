use bar_base::NoMemory;
use thiserror::Error;

/// Why bytes are not read as a grid.
#[derive(Debug, Drop, Error)]
pub enum TextFault {
    /// No memory was found.
    #[error("NoMemory")]
    NoMemory,
    /// The byte at this place, counted from 0, cannot stand there; or the bytes, which are so many, cannot end there.
    #[error("BadText")]
    BadText(usize),
    /// The rows have so many modules, and there are so many rows; one of both is above 151.
    #[error("BadSide")]
    BadSide(u32, u32),
}

impl From<NoMemory> for TextFault {
    ghost use Rattle.std.specs.Prelude.{◌≡◌};
    ghost use Rattle.symbol_reader.specs.declared.text_fault.TextFault.TheVariants.{NoMemory as Wanting};

    ghost from_gives = { λ _ fault. fault ≡ Wanting };

    fn from(_: NoMemory) -> TextFault {
        TextFault::NoMemory
    }
}

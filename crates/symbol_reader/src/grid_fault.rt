use bar_base::{NoMemory, Short};
use thiserror::Error;

/// Why a picture is not read.
#[derive(Debug, Drop, Error)]
pub enum GridFault {
    /// No memory was found.
    #[error("NoMemory")]
    NoMemory,
    /// No size of a symbol has the picture's width and number of rows, which are these.
    #[error("BadSide")]
    BadSide(u32, u32),
    /// No finder with its orientation marks stands; the column and row of the first module that differs.
    #[error("NoFinder")]
    NoFinder(u32, u32),
    /// These words, as the picture shows them, are near no mode message of its size.
    #[error("BadMode")]
    BadMode(Short<10>),
    /// Of so many codewords, so many of them check codewords, too many are wrong.
    #[error("TooDamaged")]
    TooDamaged(u32, u32),
    /// No reading goes past this bit, counted from 0 in the bits that the data codewords carry.
    #[error("BadSpelling")]
    BadSpelling(usize),
    /// The data codeword at this place, counted from 0, is all zeros or all ones.
    #[error("BadWord")]
    BadWord(usize),
}

impl From<NoMemory> for GridFault {
    ghost use Rattle.std.specs.Prelude.{◌≡◌};
    ghost use Rattle.symbol_reader.specs.declared.grid_fault.GridFault.TheVariants.{NoMemory as Wanting};

    ghost from_gives = { λ _ fault. fault ≡ Wanting };

    fn from(_: NoMemory) -> GridFault {
        GridFault::NoMemory
    }
}

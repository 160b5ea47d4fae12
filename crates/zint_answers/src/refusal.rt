//! Why a call is refused, as a value.
ghost use Rattle.std.specs.Prelude.{◌≡◌};
ghost use Rattle.zint_answers.specs.Refusals.{refusal_status};

use crate::detail::{Kind, Unit};
use crate::image_fault::ImageFault;
use crate::symbol_fault::SymbolFault;
use aztec_layout::NoFit;

/// Why a call is refused: what the words, the input and the files decide.
#[derive(Debug, Drop)]
pub enum Refusal {
    /// The command takes no such words.
    Usage,
    /// The data is longer than a limit.
    TooLong(u64, Unit),
    /// The data is none that the symbol takes, from a place on, in bytes from 0.
    BadData(Kind, u64),
    /// The data of a segment behind the first, counted from 1, is none that the symbol takes, from a place on, in bytes from 0.
    BadSegment(Kind, u64, u32),
    /// The check digit at a place, in bytes from 0, is not the one that the digits before it make.
    BadCheck { given: u8, place: u64, wanted: u8 },
    /// A rule on the options is broken; the text names it.
    BadOption(String),
    /// No allowed size holds the data: what the last one, by side, needs for it and holds.
    NoFit(NoFit),
    /// The bytes show no picture with the side of a symbol.
    BadImage(ImageFault),
    /// The picture cannot be read.
    BadSymbol(SymbolFault),
}

impl Refusal {
    /// The exit status.
    pub fn status(&self) -> u8
        ensures { result ≡ refusal_status self.now }
    {
        match self {
            Refusal::Usage => 1,
            Refusal::TooLong(_, _) => 5,
            Refusal::BadData(_, _) => 6,
            Refusal::BadSegment(_, _, _) => 6,
            Refusal::BadCheck { .. } => 7,
            Refusal::BadOption(_) => 8,
            Refusal::NoFit(_) => 9,
            Refusal::BadImage(fault) => fault.status(),
            Refusal::BadSymbol(fault) => fault.status(),
        }
    }
}

//! What a reading looks for, and in which way.
ghost use Rattle.std.specs.Prelude.{◌≡◌};
ghost use Rattle.zint_settings.specs.Looks.{row_number, row_symbology_numbered};

use bar_base::Paint;

/// How an Aztec symbol stands in the image.
#[derive(Clone, Copy, Debug, PartialEq, Eq)]
pub enum Frame {
    /// The symbol is the whole image: the text of a grid, or a bitmap file that was painted so (`--scale`, `--whitesp`,
    /// `--vwhitesp`).
    Whole(Paint),
    /// The same, and in a text the character `?` is a module that could not be seen (`--erasures`).
    Unknown(Paint),
    /// The symbol stands anywhere in a bitmap file, as large and as turned as may be (`--find`).
    Anywhere,
}

/// What is looked for in an image.
#[derive(Clone, Copy, Debug, PartialEq, Eq)]
pub enum Look {
    /// An Aztec symbol, in this frame (`--read`).
    Aztec(Frame),
    /// A row of bars of this symbology, in a line of text (`--scan`).
    Row(RowSymbology),
}

/// A symbology whose rows of bars are read.
#[derive(Clone, Copy, Debug, PartialEq, Eq)]
pub enum RowSymbology {
    Code39,
    ExtendedCode39,
    Code128,
    Code93,
    Itf14,
}

/// The symbologies whose rows are read.
pub const ROW_SYMBOLOGIES: &[RowSymbology] = &[
    RowSymbology::Code39,
    RowSymbology::ExtendedCode39,
    RowSymbology::Code128,
    RowSymbology::Code93,
    RowSymbology::Itf14,
];

impl RowSymbology {
    /// The number that `--scan` takes.
    pub fn number(self) -> u32
        ensures { result ≡ row_number self }
    {
        match self {
            RowSymbology::Code39 => 8,
            RowSymbology::ExtendedCode39 => 9,
            RowSymbology::Code128 => 20,
            RowSymbology::Code93 => 25,
            RowSymbology::Itf14 => 89,
        }
    }
}

/// The symbology with the number that `--scan` takes.
#[tactic(auto, unfolding(crate::specs::Looks::row_symbology_numbered))]
pub fn row_symbology_numbered(number: u64) -> Option<RowSymbology>
    ensures { result ≡ row_symbology_numbered number }
{
    ROW_SYMBOLOGIES
        .iter()
        .copied()
        .find(|symbology| u64::from(symbology.number()) == number)
}

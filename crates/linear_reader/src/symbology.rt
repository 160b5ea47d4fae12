//! The symbologies whose rows are read.
ghost use Rattle.std.specs.Prelude.{◌≡◌};
ghost use Rattle.linear_reader.specs.Patterns.{symbology_of};

/// A symbology, as a row is read by it.
#[derive(Debug, Clone, Copy, PartialEq, Eq)]
pub(crate) enum RowSymbology {
    /// Code 39, each value a character.
    Code39,
    /// Code 39 in its full ASCII form.
    Code39Full,
    /// Code 93.
    Code93,
    /// Code 128.
    Code128,
    /// ITF-14.
    Itf14,
}

/// The symbology of its number: 8, 9, 20, 25 or 89.
#[tactic(auto, unfolding(crate::specs::Patterns::symbology_of))]
pub(crate) fn symbology_of(symbol: u32) -> RowSymbology
    ensures { result ≡ symbology_of symbol }
{
    if symbol == 8 {
        RowSymbology::Code39
    } else if symbol == 9 {
        RowSymbology::Code39Full
    } else if symbol == 20 {
        RowSymbology::Code128
    } else if symbol == 25 {
        RowSymbology::Code93
    } else {
        RowSymbology::Itf14
    }
}

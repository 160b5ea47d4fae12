//! The symbologies, by their numbers.
ghost use Rattle.std.specs.Prelude.{◌≡◌, ◌≤◌};
ghost use Rattle.zint_settings.specs.Symbologies.{
  greatest_version,
  symbology_name,
  symbology_number,
  symbology_numbered,
};

/// A kind of symbol.
#[derive(Clone, Copy, Debug, PartialEq, Eq)]
pub enum Symbology {
    /// Code 39 (ISO/IEC 16388).
    Code39,
    /// Code 39 with its full ASCII extension.
    ExtendedCode39,
    /// Code 128 of GS1 element strings.
    Gs1Code128,
    /// Code 128 (ISO/IEC 15417).
    Code128,
    /// Code 93.
    Code93,
    /// The four-state customer code of the Royal Mail.
    Rm4scc,
    /// Interleaved 2 of 5 (ISO/IEC 16390) with fourteen digits.
    Itf14,
    /// Aztec Code (ISO/IEC 24778).
    Aztec,
    /// An Aztec rune: a number from 0 to 255 in the smallest Aztec symbol.
    AztecRune,
}

// The table: a row for each symbology, in the order of the variants. It has the variant, the number that `-b` takes, the
// name, and the greatest value of `--vers`. Code 39 has one version, Aztec Code 36; where a symbology has no versions, the
// value is tested as for Aztec Code.
macro_rules! symbologies {
    ($column:ident) => {
        &[
            $column!(Code39, 8, "Code 39", 1),
            $column!(ExtendedCode39, 9, "Extended Code 39", 36),
            $column!(Gs1Code128, 16, "GS1-128", 36),
            $column!(Code128, 20, "Code 128", 36),
            $column!(Code93, 25, "Code 93", 36),
            $column!(Rm4scc, 70, "RM4SCC", 36),
            $column!(Itf14, 89, "ITF-14", 36),
            $column!(Aztec, 92, "Aztec Code", 36),
            $column!(AztecRune, 128, "Aztec rune", 36),
        ]
    };
}

macro_rules! variant {
    ($symbology:ident, $number:literal, $name:literal, $versions:literal) => {
        Symbology::$symbology
    };
}

macro_rules! row {
    ($symbology:ident, $number:literal, $name:literal, $versions:literal) => {
        (
            Symbology::$symbology,
            $number,
            $name,
            $versions,
        )
    };
}

/// The symbologies, by rising numbers.
pub const SYMBOLOGIES: &[Symbology] = symbologies!(variant);

/// The rows of the symbologies, in the order of their variants.
pub const SYMBOLOGY_ROWS: &[(Symbology, u32, &str, u32)] = symbologies!(row);

impl Symbology {
    /// The number that `-b` takes.
    #[tactic(auto, unfolding(crate::specs::Symbologies::symbology_number, crate::specs::Symbologies::symbology_row))]
    pub fn number(self) -> u32
        ensures { result ≡ symbology_number self }
    {
        SYMBOLOGY_ROWS[self as usize].1
    }

    /// The name, as people write it.
    #[tactic(auto, unfolding(crate::specs::Symbologies::symbology_name, crate::specs::Symbologies::symbology_row))]
    pub fn name(self) -> &'static str
        ensures { result.now ≡ symbology_name self }
    {
        SYMBOLOGY_ROWS[self as usize].2
    }

    /// The greatest value of `--vers`.
    #[tactic(auto, unfolding(crate::specs::Symbologies::greatest_version, crate::specs::Symbologies::symbology_row))]
    pub fn greatest_version(self) -> u32
        ensures greatest { result ≡ greatest_version self }
        ensures within { result ≤ 36 }
    {
        SYMBOLOGY_ROWS[self as usize].3
    }
}

/// The symbology with the number that `-b` takes.
#[tactic(auto, unfolding(crate::specs::Symbologies::symbology_numbered))]
pub fn symbology_numbered(number: u64) -> Option<Symbology>
    ensures { result ≡ symbology_numbered number }
{
    SYMBOLOGIES
        .iter()
        .copied()
        .find(|symbology| u64::from(symbology.number()) == number)
}

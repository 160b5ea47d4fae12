//! The options of a drawing, as fields.
ghost use Rattle.std.specs.Prelude.{◌≡◌};
ghost use Rattle.zint_settings.specs.DrawingOptions.{check_character};

use crate::form::Form;
use crate::symbology::Symbology;
use bar_base::Paint;

/// The brackets round the application identifiers of GS1 element strings.
#[derive(Clone, Copy, Debug, PartialEq, Eq)]
pub enum Gs1Brackets {
    /// `[` and `]`.
    Square,
    /// `(` and `)`.
    Round,
}

/// What is drawn and how, one field for an option.
#[derive(Clone, Copy, Debug)]
pub struct DrawingOptions {
    /// The kind of symbol (`--barcode`); Code 128 where none is named.
    pub symbology: Symbology,
    /// The form of the output (`--filetype`, or the ending of the file's name); the grid where none is named.
    pub form: Form,
    /// Whether the message is written with escapes (`--esc`).
    pub escapes: bool,
    /// Whether the message is bytes and no text (`--binary`).
    pub binary: bool,
    /// How GS1 element strings are written in the message (`--gs1`, `--gs1parens`, and always in GS1-128); none where the
    /// message is none.
    pub gs1: Option<Gs1Brackets>,
    /// The ECI number of the character set that the text is encoded in (`--eci`); none where the text chooses the set.
    pub eci: Option<u32>,
    /// The share of check codewords in percent (`--secure`): 10, 23, 36 or 50.
    pub share: u32,
    /// The version of the symbol (`--vers`): for Aztec Code 1 to 4 are the compact sizes and 5 to 36 the full ones; for
    /// Code 39 it is 1, which adds the check character.
    pub version: Option<u32>,
    /// How a picture is painted (`--scale`, `--whitesp`, `--vwhitesp`): at scale 1 and with no white space where nothing
    /// else is named.
    pub paint: Paint,
    /// The height of a linear symbol in modules (`--height`): 1 to 200; 50 where none is named.
    pub height: u32,
}

impl DrawingOptions {
    /// Whether Code 39 has its check character: `--vers=1` asks for it.
    #[tactic(auto, unfolding(crate::specs::DrawingOptions::check_character))]
    pub fn check_character(&self) -> bool
        ensures { result ≡ check_character self.now }
    {
        match self.symbology {
            Symbology::Code39 => self.version.is_some(),
            _ => false,
        }
    }
}

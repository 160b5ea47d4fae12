//! The brackets of a text.
ghost use Rattle.std.specs.Prelude.{◌≡◌};
ghost use Rattle.gs1_check.specs.Sections.{closing_bracket, opening_bracket};

/// The brackets in which the identifiers of a text are.
#[derive(Clone, Copy, Debug)]
pub enum Brackets {
    /// `[` and `]`.
    Square,
    /// `(` and `)`.
    Round,
}

impl Brackets {
    /// The opening bracket.
    pub fn opening(self) -> u8
        ensures { result ≡ opening_bracket self }
    {
        match self {
            Brackets::Square => b'[',
            Brackets::Round => b'(',
        }
    }

    /// The closing bracket.
    pub fn closing(self) -> u8
        ensures { result ≡ closing_bracket self }
    {
        match self {
            Brackets::Square => b']',
            Brackets::Round => b')',
        }
    }
}

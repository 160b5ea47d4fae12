/// The five modes of the encoding, each with a code table of its own (ISO/IEC 24778, Character encodation).
#[derive(Debug, Clone, Copy, PartialEq, Eq)]
pub enum Mode {
    /// Capital letters. Each symbol starts here.
    Upper,
    /// Small letters.
    Lower,
    /// Control characters and rare signs.
    Mixed,
    /// Punctuation, alone and in pairs of two bytes.
    Punct,
    /// Digits, with codes of 4 bits.
    Digit,
}

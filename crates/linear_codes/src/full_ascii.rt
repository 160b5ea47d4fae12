//! How the bytes of ASCII are spelled by characters.
ghost use Rattle.std.specs.Prelude.{◌≡◌};
ghost use Rattle.linear_codes.specs.FullAscii.{full_ascii_signs, full_ascii_letters, full_ascii_sign, full_ascii_letter};

/// The signs that spell the bytes 0 to 127 with the letters of `FULL_ASCII_LETTERS`, 32 bytes a line; `=` where a byte is a character
/// of its own (ISO/IEC 16388, full ASCII character set; AIM Code 93).
pub const FULL_ASCII_SIGNS: [u8; 128] = *b"\
    %$$$$$$$$$$$$$$$$$$$$$$$$$$%%%%%\
    =////////////==/==========/%%%%%\
    %==========================%%%%%\
    %++++++++++++++++++++++++++%%%%%";

/// The letters behind those signs.
pub const FULL_ASCII_LETTERS: [u8; 128] = *b"\
    UABCDEFGHIJKLMNOPQRSTUVWXYZABCDE\
    =ABCDEFGHIJKL==O==========ZFGHIJ\
    V==========================KLMNO\
    WABCDEFGHIJKLMNOPQRSTUVWXYZPQRST";

/// The sign of a byte that is a character of its own.
pub(crate) const OWN: u8 = b'=';

/// The signs.
#[tactic(auto, unfolding(crate::specs::FullAscii::full_ascii_signs))]
fn full_ascii_signs() -> &'static [u8]
    ensures { result.now ≡ full_ascii_signs }
{
    &FULL_ASCII_SIGNS
}

/// The letters.
#[tactic(auto, unfolding(crate::specs::FullAscii::full_ascii_letters))]
fn full_ascii_letters() -> &'static [u8]
    ensures { result.now ≡ full_ascii_letters }
{
    &FULL_ASCII_LETTERS
}

/// The sign of a byte, or `=`; 0 from byte 128 on.
#[tactic(auto, unfolding(crate::specs::FullAscii::full_ascii_sign))]
pub(crate) fn full_ascii_sign(byte: u8) -> u8
    ensures { result ≡ full_ascii_sign byte }
{
    full_ascii_signs().get(byte as usize).copied().unwrap_or(0)
}

/// The letter of a byte, or `=`; 0 from byte 128 on.
#[tactic(auto, unfolding(crate::specs::FullAscii::full_ascii_letter))]
pub(crate) fn full_ascii_letter(byte: u8) -> u8
    ensures { result ≡ full_ascii_letter byte }
{
    full_ascii_letters()
        .get(byte as usize)
        .copied()
        .unwrap_or(0)
}

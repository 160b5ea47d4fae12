//! The characters that Code 39 and Code 93 share.
ghost use Rattle.std.specs.Prelude.{◌≡◌, ◌<◌, IfSome, length};
ghost use Rattle.linear_codes.specs.Characters.{characters, character_value};

/// The characters in the order of their values, which are the same in Code 39 (ISO/IEC 16388, symbol characters) and in Code 93 (AIM
/// Code 93).
pub const CHARACTERS: [u8; 43] = *b"0123456789ABCDEFGHIJKLMNOPQRSTUVWXYZ-. $/+%";

/// The characters.
#[tactic(auto, unfolding(crate::specs::Characters::characters))]
fn characters() -> &'static [u8]
    ensures table { result.now ≡ characters }
    ensures long { length result.now ≡ 43 }
{
    &CHARACTERS
}

/// The place of a character in the table.
#[tactic(auto, unfolding(crate::specs::Characters::character_value))]
fn place_of(byte: u8) -> Option<usize>
    ensures value { result ≡ character_value byte }
    ensures bounded { IfSome result (λ place. place < 43) }
{
    characters().iter().position(|character| *character == byte)
}

/// The value of a character, which is its place in the table, below 43; None for any other byte.
pub(crate) fn character_value(byte: u8) -> Option<u8>
    ensures value { result ≡ character_value byte }
    ensures bounded { IfSome result (λ value. value < 43) }
{
    match place_of(byte) {
        Some(place) => Some(place as u8),
        None => None,
    }
}

//! The characters and their places in the table of six rows and six columns.
ghost use Rattle.std.specs.Prelude.{◌≡◌, ◌<◌, IfSome, length};
ghost use Rattle.four_state.specs.FourState.{four_state_characters, index_of, indices_of};

use bar_base::{Characters, Short};

/// The characters row by row, six in each of six rows (RM4SCC, symbol characters).
pub const CHARACTERS: [u8; 36] = *b"0123456789ABCDEFGHIJKLMNOPQRSTUVWXYZ";

/// The table of characters.
#[tactic(auto, unfolding(crate::specs::FourState::four_state_characters))]
fn characters() -> &'static [u8]
    ensures table { result.now ≡ four_state_characters }
    ensures long { length result.now ≡ 36 }
{
    &CHARACTERS
}

/// The index of a character in the table.
#[tactic(auto, unfolding(crate::specs::FourState::index_of))]
fn index_of(byte: u8) -> Option<usize>
    ensures index { result ≡ index_of byte }
    ensures bounded { IfSome result (λ index. index < 36) }
{
    characters().iter().position(|character| *character == byte)
}

/// The bytes of RM4SCC: digits and letters, lower-case letters standing for upper-case ones.
pub(crate) struct DigitsAndLetters;

impl Characters for DigitsAndLetters {
    ghost values = { indices_of };

    ghost bound = { 36 };

    ghost longest = { 1 };

    #[tactic(auto, unfolding(crate::specs::FourState::indices_of))]
    fn values(byte: u8) -> Short<2> {
        let mut indices = Short::new();
        if let Some(index) = index_of(byte.to_ascii_uppercase()) {
            indices.push(index as u8);
        }
        indices
    }
}

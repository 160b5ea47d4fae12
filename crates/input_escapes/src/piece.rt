//! The piece with which a text begins.
ghost use Rattle.std.specs.Prelude.{◌≡◌, ◌+◌, ◌≤◌, ◌<◌, IfOk, IfSome, length};
ghost use Rattle.input_escapes.specs.Escapes.{after_backslash, form_head, form_of, head, number_at, number_head, number_written, seen};

use crate::form::{NumberForm, Value, byte_of, form_of};

/// A piece: how many bytes of the text it has, and what it stands for.
#[derive(Clone, Copy, Debug)]
pub struct Piece {
    pub length: usize,
    pub value: Value,
}

/// Why a text begins with no piece.
#[derive(Clone, Copy, Debug)]
pub enum NoPiece {
    Unknown,
    Short,
    OutOfRange,
}

/// The piece with which the text begins.
#[tactic(auto, unfolding(crate::specs::Escapes::head))]
pub fn first_piece(text: &[u8]) -> Result<Piece, NoPiece>
    requires { 0 < length text.now }
    ensures piece { seen result ≡ head text.now }
    ensures within { IfOk result (λ p. (1 ≤ p.length) × (p.length ≤ length text.now)) }
{
    if text[0] == b'\\' {
        escape_after(&text[1..])
    } else {
        Ok(Piece {
            length: 1,
            value: Value::Byte(text[0]),
        })
    }
}

// The piece of a backslash and the text after it.
#[tactic(auto, unfolding(crate::specs::Escapes::after_backslash))]
fn escape_after(rest: &[u8]) -> Result<Piece, NoPiece>
    ensures piece { seen result ≡ after_backslash rest.now }
    ensures within { IfOk result (λ p. (1 ≤ p.length) × (p.length ≤ length rest.now + 1)) }
{
    if rest.is_empty() {
        return Err(NoPiece::Short);
    }
    match byte_of(rest[0]) {
        Some(byte) => Ok(Piece {
            length: 2,
            value: Value::Byte(byte),
        }),
        None => number_after(rest[0], &rest[1..]),
    }
}

// The piece of a backslash, a letter that stands for no byte, and the text after it.
fn number_after(letter: u8, rest: &[u8]) -> Result<Piece, NoPiece>
    ensures piece { seen result ≡ form_head (form_of letter) rest.now }
    ensures within { IfOk result (λ p. (1 ≤ p.length) × (p.length ≤ length rest.now + 2)) }
{
    match form_of(letter) {
        Some(form) => number_piece(form, rest),
        None => Err(NoPiece::Unknown),
    }
}

#[tactic(auto, unfolding(crate::specs::Escapes::number_head))]
fn number_piece(form: NumberForm, rest: &[u8]) -> Result<Piece, NoPiece>
    ensures piece { seen result ≡ number_head form rest.now }
    ensures within { IfOk result (λ p. (1 ≤ p.length) × (p.length ≤ length rest.now + 2)) }
{
    match number_at(form.base(), form.digits(), rest) {
        Some(number) => match form.value(number) {
            Some(value) => Ok(Piece {
                length: form.digits() + 2,
                value,
            }),
            None => Err(NoPiece::OutOfRange),
        },
        None => Err(NoPiece::Short),
    }
}

/// The number that so many digits at the front of the text write.
#[tactic(auto, unfolding(crate::specs::Escapes::number_at))]
fn number_at(base: u32, count: usize, text: &[u8]) -> Option<u32>
    requires base { (2 ≤ base) × (base ≤ 16) }
    requires count { count ≤ 6 }
    ensures number { result ≡ number_at base count text.now }
    ensures within { IfSome result (λ _. count ≤ length text.now) }
{
    if text.len() < count {
        return None;
    }
    number_written(base, &text[..count])
}

fn number_written(base: u32, digits: &[u8]) -> Option<u32>
    requires base { (2 ≤ base) × (base ≤ 16) }
    requires few { length digits.now ≤ 6 }
    ensures { result ≡ number_written base digits.now }
{
    let mut number = 0;
    for digit in digits {
        number = number * base + char::from(*digit).to_digit(base)?;
    }
    Some(number)
}

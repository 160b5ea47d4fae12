//! From a text with escapes to the bytes that it stands for.
ghost use Rattle.std.specs.Prelude.{◌≡◌, ◌≢◌, ◌⊎◌, ◌+◌, ◌++◌, ◌≤◌, ◌<◌, ℕ, List, IfErr, IfOk, IsErrAnd, MatchResult, OnOk, drop, length};
ghost use Rattle.input_escapes.specs.Escapes.{bytes_of, head, piece};
ghost use Rattle.input_escapes.specs.declared.fault.EscapeFault.{EscapeFault};
ghost use Rattle.input_escapes.specs.Texts.{IsFaultAt, IsFaultOf, StandsFor};

use crate::fault::EscapeFault;
use crate::form::Value;
use crate::piece::{NoPiece, Piece, first_piece};
use std::alloc::{AllocError, Global};

/// The bytes that the text stands for: each of its pieces is a byte other than the backslash, which stands for itself, or an escape.
///
/// `UnknownEscape`, `ShortEscape` and `OutOfRange` come exactly where the text stands for no bytes, with the place of the first backslash
/// that begins no piece; `NoMemory` may come for any text.
pub fn unescape(alloc: Global, text: &[u8]) -> Result<Vec<u8>, EscapeFault>
    ensures bytes { IfOk result (λ v. StandsFor text.now v.items) }
    ensures refused { IfErr result (IsFaultOf text.now) }

    // A text that stands for bytes gives them, or finds no memory; a text with a fault gives that fault, or finds no memory.
    ensures given { (bytes : List ℕ) → StandsFor text.now bytes
        → MatchResult result (λ v. v.items ≡ bytes) (λ e. e ≡ EscapeFault.NoMemory) }
    ensures faulty { (fault : EscapeFault) → IsFaultOf text.now fault → fault ≢ EscapeFault.NoMemory
        → IsErrAnd result (λ e. (e ≡ fault) ⊎ (e ≡ EscapeFault.NoMemory)) }
{
    let mut bytes = Vec::new(alloc);
    let mut place = 0;
    while place < text.len() {
        let piece = piece_at(text, place)?;
        push_value(&mut bytes, piece.value)?;
        place += piece.length;
    }
    Ok(bytes)
}

// The piece that begins at the place.
fn piece_at(text: &[u8], place: usize) -> Result<Piece, EscapeFault>
    requires { place < length text.now }
    ensures piece { IfOk result (λ p. head (drop place text.now) ≡ piece p.length (bytes_of p.value)) }
    ensures within { IfOk result (λ p. (1 ≤ p.length) × (place + p.length ≤ length text.now)) }
    ensures refused { IfErr result (IsFaultAt place (head (drop place text.now))) }
{
    match first_piece(&text[place..]) {
        Ok(piece) => Ok(piece),
        Err(NoPiece::Unknown) => Err(EscapeFault::UnknownEscape(place)),
        Err(NoPiece::Short) => Err(EscapeFault::ShortEscape(place)),
        Err(NoPiece::OutOfRange) => Err(EscapeFault::OutOfRange(place)),
    }
}

fn push_value(bytes: &mut Vec<u8>, value: Value) -> Result<(), AllocError>
    ensures { OnOk result (bytes.new.items ≡ bytes.old.items ++ bytes_of value) }
{
    match value {
        Value::Byte(byte) => {
            bytes.push(byte)?;
            Ok(())
        }
        Value::Character(character) => {
            let mut room = [0u8; 4];
            bytes.extend_from_slice(character.encode_utf8(&mut room).as_bytes())
        }
    }
}

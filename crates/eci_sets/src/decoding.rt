//! From the bytes of a set to a text.
ghost use Rattle.std.specs.Prelude.{◌≡◌, ◌<◌, ◌⊎◌, ℕ, List, IfOk, IfErr, IsErrAnd, MatchResult, Some};
ghost use Rattle.std.specs.String.{string_bytes};
ghost use Rattle.eci_sets.specs.CharacterSets.{set_numbered};
ghost use Rattle.eci_sets.specs.Encodings.{Encoded, IsDecodingFault, IsEncodedIn};
ghost use Rattle.eci_sets.specs.declared.character_set.CharacterSet.TheVariants as set;
ghost use Rattle.eci_sets.specs.declared.fault.SetFault.{SetFault as FaultValue};
ghost use Rattle.eci_sets.specs.declared.fault.SetFault.TheVariants as fault;

use crate::character_set::{CharacterSet, set_numbered};
use crate::code_page::CodePage;
use crate::fault::SetFault;
use crate::utf16::first_character;
use std::alloc::Global;

/// The text that the bytes encode in the set of the number; it is the only one.
///
/// `UnknownEci` comes exactly where the number names none of the ten sets, and `BadBytes` exactly where the bytes
/// encode no text, with the place of the first byte (in UTF-16BE the first unit, in UTF-8 the first sequence) at
/// which no character begins; `NoMemory` may come for any bytes.
#[tactic(auto, using(crate::proofs::OneText::one_encoded_in))]
pub fn decode(alloc: Global, bytes: &[u8], eci: u32) -> Result<String, SetFault>
    ensures encoded { IfOk result (λ text. IsEncodedIn (set_numbered eci) (string_bytes text) bytes.now) }
    ensures refused { IfErr result (λ e. (e ≡ fault.NoMemory) ⊎ IsDecodingFault (set_numbered eci) bytes.now e) }

    // Bytes that encode a text give it back, or find no memory; bytes with a fault give that fault, or find no
    // memory.
    ensures given { (text : List ℕ) → IsEncodedIn (set_numbered eci) text bytes.now
        → MatchResult result (λ s. string_bytes s ≡ text) (λ e. e ≡ fault.NoMemory) }
    ensures faulty { (f : FaultValue) → IsDecodingFault (set_numbered eci) bytes.now f
        → IsErrAnd result (λ e. (e ≡ f) ⊎ (e ≡ fault.NoMemory)) }

    // Bytes encode one text at most.
    ensures one_text { (text other : List ℕ) → IsEncodedIn (set_numbered eci) text bytes.now
        → IsEncodedIn (set_numbered eci) other bytes.now → other ≡ text }
{
    match set_numbered(eci) {
        Some(set) => decode_in(alloc, bytes, set),
        None => Err(SetFault::UnknownEci),
    }
}

// The text that the bytes encode in the set.
fn decode_in(alloc: Global, bytes: &[u8], set: CharacterSet) -> Result<String, SetFault>
    ensures encoded { IfOk result (λ text. Encoded set (string_bytes text) bytes.now) }
    ensures refused { IfErr result (λ e. (e ≡ fault.NoMemory) ⊎ IsDecodingFault (Some set) bytes.now e) }
{
    match set {
        CharacterSet::SingleByte(page) => decode_page(alloc, bytes, page),
        CharacterSet::Utf16Be => decode_utf16(alloc, bytes),
        CharacterSet::Utf8 => decode_utf8(alloc, bytes),
    }
}

#[tactic(auto, using(crate::proofs::Utf8Texts::utf8_encoded, crate::proofs::Utf8Texts::utf8_stops))]
fn decode_utf8(alloc: Global, bytes: &[u8]) -> Result<String, SetFault>
    ensures encoded { IfOk result (λ text. Encoded set.Utf8 (string_bytes text) bytes.now) }
    ensures refused { IfErr result (λ e. (e ≡ fault.NoMemory) ⊎ IsDecodingFault (Some set.Utf8) bytes.now e) }
{
    match str::from_utf8(bytes) {
        Ok(text) => Ok(String::from_str(alloc, text)?),
        Err(error) => Err(SetFault::BadBytes(error.valid_up_to())),
    }
}

fn decode_page(alloc: Global, bytes: &[u8], page: CodePage) -> Result<String, SetFault>
    ensures encoded { IfOk result (λ text. Encoded (set.SingleByte page) (string_bytes text) bytes.now) }
    ensures refused { IfErr result (λ e. (e ≡ fault.NoMemory)
        ⊎ IsDecodingFault (Some (set.SingleByte page)) bytes.now e) }
{
    let mut text = String::new(alloc);
    for (place, byte) in bytes.iter().enumerate() {
        match page.character_for(*byte) {
            Some(character) => text.push(character)?,
            None => return Err(SetFault::BadBytes(place)),
        }
    }
    Ok(text)
}

fn decode_utf16(alloc: Global, bytes: &[u8]) -> Result<String, SetFault>
    ensures encoded { IfOk result (λ text. Encoded set.Utf16Be (string_bytes text) bytes.now) }
    ensures refused { IfErr result (λ e. (e ≡ fault.NoMemory) ⊎ IsDecodingFault (Some set.Utf16Be) bytes.now e) }
{
    let mut text = String::new(alloc);
    let mut place = 0;
    while place < bytes.len() {
        match first_character(&bytes[place..]) {
            Some(first) => {
                text.push(first.character)?;
                place += first.size;
            }
            None => return Err(SetFault::BadBytes(place)),
        }
    }
    Ok(text)
}

//! From a text to the bytes of a set.
ghost use Rattle.std.specs.Prelude.{◌≡◌, ℕ, List, find, IfOk, MatchResult, Some};
ghost use Rattle.std.specs.Str.{chars};
ghost use Rattle.bar_base.specs.Results.{Gives};
ghost use Rattle.eci_sets.specs.CharacterSets.{set_numbered};
ghost use Rattle.eci_sets.specs.Encodings.{Encoded, IsEncodedIn, chosen_eci, has_characters, set_refusal, text_encoding};
ghost use Rattle.eci_sets.specs.declared.character_set.CharacterSet.TheVariants as set;
ghost use Rattle.eci_sets.specs.declared.fault.SetFault.TheVariants as fault;

use crate::character_set::{CharacterSet, set_numbered};
use crate::fault::SetFault;
use std::alloc::Global;

/// The bytes that encode the text in the set of the number.
///
/// `UnknownEci` comes exactly where the number names none of the ten sets, and `NoCharacter` exactly where the set
/// lacks a character, with the place of the first one, counted from 0 in bytes of the text; `NoMemory` may come for
/// any text.
#[tactic(auto, unfolding(crate::specs::Encodings::text_encoding))]
pub fn encode(alloc: Global, text: &str, eci: u32) -> Result<Vec<u8>, SetFault>
    ensures gives { Gives set_refusal (λ bytes. bytes.items) result
        (text_encoding (set_numbered eci) (chars text.now)) }
    ensures encoded { IfOk result (λ bytes. IsEncodedIn (set_numbered eci) text.now bytes.items) }

    // A text that has bytes in the set gives these, or finds no memory.
    ensures given { (bytes : List ℕ) → IsEncodedIn (set_numbered eci) text.now bytes
        → MatchResult result (λ v. v.items ≡ bytes) (λ e. e ≡ fault.NoMemory) }
{
    match set_numbered(eci) {
        Some(set) => encode_in(alloc, text, set),
        None => Err(SetFault::UnknownEci),
    }
}

// The bytes of the text in the set; in UTF-8 they are the text as it is.
fn encode_in(alloc: Global, text: &str, set: CharacterSet) -> Result<Vec<u8>, SetFault>
    ensures encoded { IfOk result (λ bytes. Encoded set text.now bytes.items) }
    ensures gives { Gives set_refusal (λ bytes. bytes.items) result (text_encoding (Some set) (chars text.now)) }
{
    match set {
        CharacterSet::Utf8 => encode_utf8(alloc, text),
        _ => encode_each(alloc, text, set),
    }
}

#[tactic(auto, using(crate::proofs::Utf8Texts::utf8_encoded, crate::proofs::Utf8Texts::utf8_defined))]
fn encode_utf8(alloc: Global, text: &str) -> Result<Vec<u8>, SetFault>
    ensures encoded { IfOk result (λ bytes. Encoded set.Utf8 text.now bytes.items) }
    ensures gives { Gives set_refusal (λ bytes. bytes.items) result (text_encoding (Some set.Utf8) (chars text.now)) }
{
    Ok(Vec::from_slice(alloc, text.as_bytes())?)
}

// The bytes of the text, character by character; most sets have at most one byte for each byte of the text.
fn encode_each(alloc: Global, text: &str, set: CharacterSet) -> Result<Vec<u8>, SetFault>
    ensures encoded { IfOk result (λ bytes. Encoded set text.now bytes.items) }
    ensures gives { Gives set_refusal (λ bytes. bytes.items) result (text_encoding (Some set) (chars text.now)) }
{
    let mut bytes = Vec::with_capacity(alloc, text.len())?;
    let mut place = 0;
    for character in text.chars() {
        if !set.push_character(&mut bytes, character)? {
            return Err(SetFault::NoCharacter(place));
        }
        place += character.len_utf8();
    }
    Ok(bytes)
}

/// The number of the first of the sets 3, 7, 11, 17, 22, 23 and 26 that has every character of the text; it takes no
/// memory.
#[tactic(auto, unfolding(crate::specs::Encodings::chosen_eci))]
pub fn choose(text: &str) -> u32
    ensures { result ≡ chosen_eci (chars text.now) }
{
    first_with(text, &[3, 7, 11, 17, 22, 23]).unwrap_or(26)
}

// The first of the numbers that names a set with every character of the text.
fn first_with(text: &str, numbers: &[u32]) -> Option<u32>
    ensures { result ≡ find (λ eci. has_characters (chars text.now) (set_numbered eci)) numbers.now }
{
    numbers
        .iter()
        .copied()
        .find(|eci| names_set_with(text, *eci))
}

// Whether the number names a set that has every character of the text.
fn names_set_with(text: &str, eci: u32) -> bool
    ensures { result ≡ has_characters (chars text.now) (set_numbered eci) }
{
    match set_numbered(eci) {
        Some(set) => has_characters(text, set),
        None => false,
    }
}

fn has_characters(text: &str, set: CharacterSet) -> bool
    ensures { result ≡ has_characters (chars text.now) (Some set) }
{
    text.chars().all(|character| set.has_character(character))
}

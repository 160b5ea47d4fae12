//! The text of a body whose parts are in sets of their own.
ghost use Rattle.std.specs.Prelude.{◌≡◌, ◌++◌, ℕ, List, [], ◌∷◌, IfOk, OnOk, MatchOption, MatchBool};
ghost use Rattle.std.specs.String.{string_bytes};
ghost use Rattle.eci_sets.specs.JoinedTexts.{Advances, Blocks, IsJoinedText, IsPartText};

use crate::decoding::decode;
use crate::fault::SetFault;
use bar_base::{Element, Elements, NoMemory};
use std::alloc::Global;

// ISO/IEC 8859-1, by which bytes are read before the first extended channel interpretation (ECI).
const DEFAULT_ECI: u32 = 3;

/// The text of the body: of its parts of bytes between ECIs, each read by the ECI before it, and the first by the
/// number given, or by 3 without one.
///
/// None comes exactly where the body has an FNC1, where the number of a part that isn't empty names none of the ten
/// sets, or where the bytes of a part encode no text in its set; `NoMemory` may come for any body.
pub fn text_of(alloc: Global, body: &Elements, eci: Option<u32>) -> Result<Option<String>, NoMemory>
    ensures text { IfOk result (λ o. MatchOption o ((text : List ℕ) → IsJoinedText eci body.now text → ⊥)
        (λ text. IsJoinedText eci body.now (string_bytes text))) }
    ensures one_text { (text other : List ℕ) → IsJoinedText eci body.now text → IsJoinedText eci body.now other
        → other ≡ text }
{
    text_of_elements(alloc, body.as_slice(), eci)
}

// The text of the elements, part by part.
fn text_of_elements(
    alloc: Global,
    elements: &[Element],
    eci: Option<u32>,
) -> Result<Option<String>, NoMemory>
    ensures { IfOk result (λ o. MatchOption o ((text : List ℕ) → IsJoinedText eci elements.now text → ⊥)
        (λ text. IsJoinedText eci elements.now (string_bytes text))) }
{
    let mut text = String::new(alloc);
    let mut part = Vec::new(alloc);
    let mut number = eci.unwrap_or(DEFAULT_ECI);
    for element in elements {
        match advance(alloc, &mut text, &mut part, number, *element)? {
            Some(next) => number = next,
            None => return Ok(None),
        }
    }
    if push_part(alloc, &mut text, &part, number)? {
        Ok(Some(text))
    } else {
        Ok(None)
    }
}

// Goes over one element, and answers the number by which the bytes behind it are read; None where the body has no
// text.
fn advance(
    alloc: Global,
    text: &mut String,
    part: &mut Vec<u8>,
    number: u32,
    element: Element,
) -> Result<Option<u32>, NoMemory>
    ensures { IfOk result (λ o. MatchOption o (Blocks number part.old.items element)
        (λ next. Advances number part.old.items (string_bytes text.old) element
        next part.new.items (string_bytes text.new))) }
{
    match element {
        Element::Byte(byte) => {
            part.push(byte)?;
            Ok(Some(number))
        }
        Element::Eci(next) => {
            if push_part(alloc, text, part, number)? {
                part.clear();
                Ok(Some(next))
            } else {
                Ok(None)
            }
        }
        Element::Fnc1 => Ok(None),
    }
}

// Appends the text of the part; false where it has none.
fn push_part(alloc: Global, text: &mut String, part: &[u8], number: u32) -> Result<bool, NoMemory>
    ensures { IfOk result (λ has_text. MatchBool has_text
        ((t : List ℕ) × IsPartText number part.now t × (string_bytes text.new ≡ string_bytes text.old ++ t))
        ((t : List ℕ) → IsPartText number part.now t → ⊥)) }
{
    if part.is_empty() {
        return Ok(true);
    }
    match decode(alloc, part, number) {
        Ok(read) => {
            text.push_str(&read)?;
            Ok(true)
        }
        Err(SetFault::NoMemory) => Err(NoMemory),
        Err(SetFault::UnknownEci) => Ok(false),
        Err(SetFault::NoCharacter(_)) => Ok(false),
        Err(SetFault::BadBytes(_)) => Ok(false),
    }
}

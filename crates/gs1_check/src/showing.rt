//! From a body to the text in square brackets that has it.
ghost use Rattle.std.specs.Prelude.{◌≡◌, ◌++◌, ◌<◌, ◌+◌, ◌≤◌, ◌↔◌, IsTrue, List, [], ◌∷◌, drop, length, slice_get, Some, IfOk, OnOk, MatchOption};
ghost use Rattle.bar_base.specs.declared.element.Element.{Element as ElementValue};
ghost use Rattle.bar_base.specs.declared.element.Element.TheVariants as element;
ghost use Rattle.gs1_check.specs.ElementStrings.{IsElementString, needs_separator, separator, string_text};
ghost use Rattle.gs1_check.specs.Identifiers.{identifier_format};
ghost use Rattle.gs1_check.specs.LeadingStrings.{HasNoText, IsOnlyText, fixed_length, leading_bytes, leading_string, leading_value, string_at, string_length};
ghost use Rattle.gs1_check.specs.declared.brackets.Brackets.TheVariants as bracket;

use crate::brackets::Brackets;
use crate::identifiers::{has_predefined_length, identifier_format, identifier_size};
use crate::slices::{behind, front, two_digits};
use crate::value::value_fault;
use bar_base::{Element, Elements, NoMemory};
use std::alloc::{AllocError, Global};

/// The text in square brackets whose body this is, by `parse`; it is the only one.
///
/// None comes exactly where no text has the body; `NoMemory` may come for any body.
pub fn show(alloc: Global, body: &Elements) -> Result<Option<Vec<u8>>, NoMemory>
    ensures { IfOk result (λ o. MatchOption o (HasNoText body.now) (λ text. IsOnlyText text.items body.now)) }
{
    show_elements(alloc, body.as_slice())
}

fn show_elements(alloc: Global, body: &[Element]) -> Result<Option<Vec<u8>>, NoMemory>
    ensures { IfOk result (λ o. MatchOption o (HasNoText body.now) (λ text. IsOnlyText text.items body.now)) }
{
    let mut text = Vec::new(alloc);
    let mut place = 0;
    loop {
        match show_string(alloc, &mut text, body, place)? {
            None => return Ok(None),
            Some(shown) => {
                if shown.end == body.len() {
                    return Ok(Some(text));
                }
                match next_place(body, shown.end, shown.owed) {
                    None => return Ok(None),
                    Some(next) => place = next,
                }
            }
        }
    }
}

/// An element string that was shown: the place behind it, and whether it needs a separator there.
#[derive(Clone, Copy, Debug)]
struct Shown {
    end: usize,
    owed: bool,
}

// Where the next string begins, behind the separator where one is needed.
fn next_place(body: &[Element], end: usize, owed: bool) -> Option<usize>
    requires { end < length body.now }
    ensures { MatchOption result ((behind : List ElementValue) → drop end body.now ≡ separator owed ++ behind → ⊥)
        (λ next. (drop end body.now ≡ separator owed ++ drop next body.now) × (end ≤ next) × (next ≤ length body.now)) }
{
    if !owed {
        Some(end)
    } else if is_fnc1(body, end) {
        Some(end + 1)
    } else {
        None
    }
}

fn is_fnc1(body: &[Element], at: usize) -> bool
    ensures { IsTrue result ↔ (slice_get body.now at ≡ Some element.Fnc1) }
{
    match element_at(body, at) {
        Some(Element::Fnc1) => true,
        Some(Element::Byte(_)) => false,
        Some(Element::Eci(_)) => false,
        None => false,
    }
}

// The element at the place.
fn element_at(body: &[Element], at: usize) -> Option<Element>
    ensures { result ≡ slice_get body.now at }
{
    body.get(at).copied()
}

// Writes the element string with which the body goes on at the place; None where it goes on with none.
fn show_string(
    alloc: Global,
    text: &mut Vec<u8>,
    body: &[Element],
    place: usize,
) -> Result<Option<Shown>, NoMemory>
    requires { place ≤ length body.now }
    ensures string { IfOk result (λ o. MatchOption o (IsElementString bracket.Square (string_at body.now place) → ⊥)
        (λ _. IsElementString bracket.Square (string_at body.now place))) }
    ensures text { IfOk result (λ o. MatchOption o (text.new ≡ text.old)
        (λ _. text.new.items ≡ text.old.items ++ string_text bracket.Square (string_at body.now place))) }
    ensures end { IfOk result (λ o. MatchOption o (Unit {0})
        (λ s. (s.end ≡ place + string_length (string_at body.now place)) × (s.end ≤ length body.now))) }
    ensures owed { IfOk result (λ o. MatchOption o (Unit {0})
        (λ s. s.owed ≡ needs_separator (string_at body.now place))) }
{
    let bytes = bytes_from(alloc, body, place)?;
    let first = leading_string(&bytes);
    if !is_string(first.identifier, first.value) {
        return Ok(None);
    }
    push_string(text, first.identifier, first.value)?;
    Ok(Some(Shown {
        end: place + (first.identifier.len() + first.value.len()),
        owed: !has_predefined_length(first.identifier),
    }))
}

#[derive(Clone, Copy)]
struct Cut<'a> {
    identifier: &'a [u8],
    value: &'a [u8],
}

// The identifier and the value with which the bytes begin.
#[tactic(auto, unfolding(crate::specs::LeadingStrings::leading_string), using(crate::proofs::ShownBodies::leading_fits))]
fn leading_string(bytes: &[u8]) -> Cut<'_>
    ensures identifier { result.identifier.now ≡ (leading_string bytes.now).identifier }
    ensures value { result.value.now ≡ (leading_string bytes.now).value }
    ensures within { string_length (leading_string bytes.now) ≤ length bytes.now }
{
    let size = identifier_size(two_digits(bytes, 0));
    let identifier = front(bytes, size);
    Cut {
        identifier,
        value: leading_value(identifier, behind(bytes, size)),
    }
}

// The bytes from the place on, up to the first element that is none.
fn bytes_from(alloc: Global, body: &[Element], place: usize) -> Result<Vec<u8>, NoMemory>
    requires { place ≤ length body.now }
    ensures bytes { IfOk result (λ v. v.items ≡ leading_bytes (drop place body.now)) }
    ensures within { IfOk result (λ v. place + length v.items ≤ length body.now) }
{
    let mut bytes = Vec::new(alloc);
    let mut at = place;
    while let Some(byte) = byte_at(body, at) {
        bytes.push(byte)?;
        at += 1;
    }
    Ok(bytes)
}

#[tactic(auto, using(crate::proofs::ShownBodies::byte_here, crate::proofs::ShownBodies::bytes_fnc1, crate::proofs::ShownBodies::bytes_eci, crate::proofs::ShownBodies::bytes_none))]
fn byte_at(body: &[Element], at: usize) -> Option<u8>
    ensures { MatchOption result (leading_bytes (drop at body.now) ≡ [])
        (λ byte. (leading_bytes (drop at body.now) ≡ byte ∷ leading_bytes (drop (at + 1) body.now))
        × (at < length body.now)) }
{
    match element_at(body, at) {
        Some(Element::Byte(byte)) => Some(byte),
        Some(Element::Fnc1) => None,
        Some(Element::Eci(_)) => None,
        None => None,
    }
}

fn leading_value<'a>(identifier: &[u8], bytes: &'a [u8]) -> &'a [u8]
    ensures { result.now ≡ leading_value identifier.now bytes.now }
{
    if has_predefined_length(identifier) {
        front(bytes, fixed_length(identifier))
    } else {
        bytes
    }
}

fn fixed_length(identifier: &[u8]) -> usize
    ensures { result ≡ fixed_length (identifier_format identifier.now) }
{
    match identifier_format(identifier) {
        Some(format) => usize::from(format.most),
        None => 0,
    }
}

#[tactic(auto, using(crate::proofs::SectionStrings::is_string, crate::proofs::SectionStrings::is_no_string, crate::proofs::SectionStrings::is_unknown))]
fn is_string(identifier: &[u8], value: &[u8]) -> bool
    ensures { IsTrue result ↔ IsElementString bracket.Square
        (record { identifier = identifier.now; value = value.now }) }
{
    match identifier_format(identifier) {
        Some(format) => match value_fault(Brackets::Square, 0, format, value) {
            Some(_) => false,
            None => true,
        },
        None => false,
    }
}

fn push_string(text: &mut Vec<u8>, identifier: &[u8], value: &[u8]) -> Result<(), AllocError>
    ensures { OnOk result (text.new.items ≡ text.old.items
        ++ string_text bracket.Square (record { identifier = identifier.now; value = value.now })) }
{
    text.push(b'[')?;
    text.extend_from_slice(identifier)?;
    text.push(b']')?;
    text.extend_from_slice(value)
}

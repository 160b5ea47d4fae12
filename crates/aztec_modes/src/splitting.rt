ghost use Rattle.std.specs.Prelude.{◌≡◌, All, ◌<◌, ◌≤◌, ◌+◌, ◌++◌, ◌^◌, ◌↔◌, IfOk, IfSome, OnOk, IsTrue, drop, length, slice_get, ℕ, List, Bool};
ghost use Rattle.bar_base.specs.Elements.{IsElement};
ghost use Rattle.aztec_modes.specs.Spelling.{IsMarked};
ghost use Rattle.aztec_modes.specs.Reading.{SplitsSo};
ghost use Rattle.aztec_modes.specs.Split.{as_eci, element_byte_at, header_in, header_length, id_in, ids_in, is_fnc1, is_space, are_letters, letters_in, named_by, part_size};

use bar_base::{Append, Element, Elements, Ident, Message, NoMemory};
use std::alloc::Global;

/// The byte at a place, where a byte stands there.
#[tactic(auto, unfolding(crate::specs::Split::element_byte_at, crate::specs::Split::as_byte))]
fn byte_at(elements: &Elements, at: usize) -> Option<u8>
    ensures { result ≡ element_byte_at elements.now at }
{
    match elements.get(at) {
        Some(Element::Byte(byte)) => Some(byte),
        Some(Element::Eci(_)) | Some(Element::Fnc1) | None => None,
    }
}

/// The byte at a place, where it is one of an identifier.
#[tactic(auto, unfolding(crate::specs::Split::id_in, crate::specs::Split::as_id))]
fn id_at(elements: &Elements, at: usize) -> Option<u8>
    ensures { result ≡ id_in elements.now at }
{
    match byte_at(elements, at) {
        None => None,
        Some(byte) => {
            if 33 <= byte && byte <= 126 {
                Some(byte)
            } else {
                None
            }
        }
    }
}

/// Puts the bytes of an identifier from a place on at the end, at most so many.
#[tactic(auto, unfolding(crate::specs::Split::ids_in, crate::specs::Split::ids_from))]
fn push_ids(elements: &Elements, at: usize, most: u8, id: &mut Ident)
    requires room { length id.old + most ≤ 32 }
    requires small { at + most < 100 }
    ensures { id.new ≡ id.old ++ ids_in most elements.now at }
{
    if most == 0 {
        return;
    }
    match id_at(elements, at) {
        None => {}
        Some(byte) => {
            id.push(byte);
            push_ids(elements, at + 1, most - 1, id);
        }
    }
}

/// Whether two bytes are letters of a place in a set.
#[tactic(auto, unfolding(crate::specs::Split::are_letters))]
fn is_place(first: u8, second: u8) -> bool
    ensures { result ≡ are_letters first second }
{
    if first < 65 {
        return false;
    }
    if second < first {
        return false;
    }
    if second < 66 {
        return false;
    }
    second <= 90
}

/// The place in a set that two letters name.
#[tactic(auto, unfolding(crate::specs::Split::letters_in, crate::specs::Split::letters_of, crate::specs::Split::are_letters))]
fn letters_at(id: Ident, elements: &Elements, at: usize) -> Option<Append>
    requires { at < 100 }
    ensures { result ≡ letters_in id elements.now at }
{
    let Some(first) = byte_at(elements, at) else {
        return None;
    };
    let Some(second) = byte_at(elements, at + 1) else {
        return None;
    };
    if !is_place(first, second) {
        return None;
    }
    Some(Append {
        index: first - 64,
        count: second - 64,
        id,
    })
}

/// Whether a space stands at a place.
#[tactic(auto, unfolding(crate::specs::Split::is_space))]
fn space_at(elements: &Elements, at: usize) -> bool
    ensures { result ≡ is_space (element_byte_at elements.now at) }
{
    match byte_at(elements, at) {
        None => false,
        Some(byte) => byte == 32,
    }
}

/// The header behind an identifier.
#[tactic(auto, unfolding(crate::specs::Split::named_by))]
fn named_at(id: Ident, elements: &Elements) -> Option<Append>
    ensures { result ≡ named_by id elements.now }
{
    let length = id.len();
    if length == 0 {
        return None;
    }
    if !space_at(elements, length + 1) {
        return None;
    }
    letters_at(id, elements, length + 2)
}

/// The header that elements begin with.
#[tactic(auto, unfolding(crate::specs::Split::header_in))]
pub(crate) fn header_of(elements: &Elements) -> Option<Append>
    ensures { result ≡ header_in elements.now }
{
    if !space_at(elements, 0) {
        return letters_at(Ident::new(), elements, 0);
    }
    let mut id = Ident::new();
    push_ids(elements, 1, 32, &mut id);
    named_at(id, elements)
}

/// How many elements a header has.
#[tactic(auto, unfolding(crate::specs::Split::header_length))]
pub(crate) fn header_size(append: &Append) -> usize
    ensures { result ≡ header_length append.now.id }
{
    let length = append.id.len();
    if length == 0 { 2 } else { length + 4 }
}

/// Whether FNC1 stands at a place.
#[tactic(auto, unfolding(crate::specs::Split::is_fnc1))]
fn fnc1_at(elements: &[Element], at: usize) -> bool
    ensures { result ≡ is_fnc1 (slice_get elements.now at) }
{
    match elements.get(at).copied() {
        Some(Element::Fnc1) => true,
        Some(Element::Byte(_)) | Some(Element::Eci(_)) | None => false,
    }
}

/// The number of the ECI at a place, where one stands there.
#[tactic(auto, unfolding(crate::specs::Split::as_eci))]
fn eci_at(elements: &[Element], at: usize) -> Option<u32>
    ensures { result ≡ as_eci (slice_get elements.now at) }
{
    match elements.get(at).copied() {
        Some(Element::Eci(number)) => Some(number),
        Some(Element::Byte(_)) | Some(Element::Fnc1) | None => None,
    }
}

/// How many elements a part has that is there or not.
#[tactic(auto, unfolding(crate::specs::Split::part_size))]
fn part_length(there: bool) -> usize
    ensures size { result ≡ part_size there }
    ensures small { result ≤ 1 }
{
    if there { 1 } else { 0 }
}

/// The elements from a place on.
#[tactic(auto, using(crate::proofs::Steps::push_steps))]
fn rest_from(alloc: Global, elements: &[Element], at: usize) -> Result<Elements, NoMemory>
    requires within { at ≤ length elements.now }
    requires valid { All IsElement elements.now }
    ensures { IfOk result (λ rest. rest ≡ drop at elements.now) }
{
    let mut rest = Elements::new(alloc);
    for element in &elements[at..] {
        rest.push(*element)?;
    }
    Ok(rest)
}

/// The message whose elements are those of a header and the elements from a place on.
pub(crate) fn message_from(
    alloc: Global,
    append: Option<Append>,
    elements: &Elements,
    at: usize,
) -> Result<Message, NoMemory>
    requires within { at ≤ length elements.now }
    ensures append { IfOk result (λ message. message.append ≡ append) }
    ensures split { IfOk result (λ message. SplitsSo message (drop at elements.now)) }
{
    let items = elements.as_slice();
    let gs1 = fnc1_at(items, at);
    let after = at + part_length(gs1);
    let eci = eci_at(items, after);
    let last = after + part_length(eci.is_some());
    let body = rest_from(alloc, items, last)?;
    Ok(Message {
        append,
        gs1,
        eci,
        body,
    })
}

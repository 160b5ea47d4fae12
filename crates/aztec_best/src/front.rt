ghost use Rattle.std.specs.Prelude.{◌≡◌, ◌<◌, ◌+◌, ◌^◌, drop, length};
ghost use Rattle.std.specs.Bool.{OnTrue, OnFalse};
ghost use Rattle.aztec_best.specs.Front.{bytes_ahead, front_of};

use bar_base::{Element, Elements};

/// What decides which codes stand at a place.
#[derive(Clone, Copy)]
pub(crate) struct Front {
    /// The element at the place.
    pub(crate) first: Option<Element>,
    /// The element after it.
    pub(crate) second: Option<Element>,
    /// How many bytes stand from the place on, up to the longest binary run.
    pub(crate) ahead: u32,
}

/// The longest binary run.
const LONGEST_RUN: u32 = 2078;

/// Whether a byte stands at a place.
fn is_byte_at(elements: &Elements, place: usize) -> bool
    ensures yes { OnTrue result
        (bytes_ahead (drop place elements.now) ≡ bytes_ahead (drop (place + 1) elements.now) + 1) }
    ensures no { OnFalse result (bytes_ahead (drop place elements.now) ≡ 0) }
{
    match elements.get(place) {
        Some(Element::Byte(_)) => true,
        Some(Element::Eci(_)) => false,
        Some(Element::Fnc1) => false,
        None => false,
    }
}

/// How many bytes stand from a place on, where `after` stand from the next place on.
pub(crate) fn bytes_from(elements: &Elements, place: usize, after: u32) -> u32
    requires within { place < length elements.now }
    requires few { after < 2 ^ 31 }
    requires counted { after ≡ bytes_ahead (drop (place + 1) elements.now) }
    ensures { result ≡ bytes_ahead (drop place elements.now) }
{
    if is_byte_at(elements, place) {
        after + 1
    } else {
        0
    }
}

/// What decides which codes stand at a place, before which so many bytes stand.
pub(crate) fn front_at(elements: &Elements, place: usize, bytes: u32) -> Front
    requires within { place < length elements.now }
    requires counted { bytes ≡ bytes_ahead (drop place elements.now) }
    ensures { result ≡ front_of (drop place elements.now) }
{
    prove!(place < elements.len());
    Front {
        first: elements.get(place),
        second: elements.get(place + 1),
        ahead: bytes.min(LONGEST_RUN),
    }
}

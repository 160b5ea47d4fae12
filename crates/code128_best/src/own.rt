//! The only value that can spell a character, or two digits, at a stand.
ghost use Rattle.std.specs.Prelude.{◌≡◌, ◌<◌, ◌≤◌, length};
ghost use Rattle.code128_best.specs.Own as own;

use crate::effect::{after_character, reading, reads_high};
use crate::state::{CodeSet, State};
use crate::stepping::Stand;
use bar_base::Element;

/// The value below 96 whose character this is in a code set; 0 where the set lacks it.
#[tactic(auto, unfolding(crate::specs::Own::set_value))]
fn set_value(set: CodeSet, character: u8) -> u8
    requires { character < 128 }
    ensures value { result ≡ own.set_value set character }
    ensures small { result < 98 }
{
    match set {
        CodeSet::A => {
            if character < 32 {
                character + 64
            } else if character < 96 {
                character - 32
            } else {
                0
            }
        }
        CodeSet::B => { if character < 32 { 0 } else { character - 32 } }
        CodeSet::C => { if character < 96 { character } else { 0 } }
    }
}

/// The value below 96 of a byte in a code set, where 128 is added or not.
#[tactic(auto, unfolding(crate::specs::Own::value_by))]
fn value_by(high: bool, set: CodeSet, byte: u8) -> u8
    ensures value { result ≡ own.value_by high set byte }
    ensures small { result < 98 }
{
    if high {
        if byte < 128 {
            0
        } else {
            set_value(set, byte - 128)
        }
    } else {
        if byte < 128 { set_value(set, byte) } else { 0 }
    }
}

/// The value below 96 of an element in a state; 0 where there is none.
#[tactic(auto, unfolding(crate::specs::Own::value_of_byte))]
fn value_of_byte(element: Option<Element>, state: State) -> u8
    ensures value { result ≡ own.value_of_byte element state }
    ensures small { result < 98 }
{
    match element {
        None => 0,
        Some(Element::Byte(byte)) => value_by(reads_high(state), reading(state), byte),
        Some(Element::Eci(_)) => 0,
        Some(Element::Fnc1) => 0,
    }
}

/// The digit that an element is; 0 where it is none.
#[tactic(auto, unfolding(crate::specs::Own::digit_of))]
fn digit_of(element: Option<Element>) -> u8
    ensures value { result ≡ own.digit_of element }
    ensures small { result < 10 }
{
    match element {
        None => 0,
        Some(Element::Byte(byte)) => {
            if byte < 48 {
                0
            } else if byte < 58 {
                byte - 48
            } else {
                0
            }
        }
        Some(Element::Eci(_)) => 0,
        Some(Element::Fnc1) => 0,
    }
}

/// The value of two digits.
#[tactic(auto, unfolding(crate::specs::Own::value_of_pair))]
fn value_of_pair(first: Option<Element>, second: Option<Element>) -> u8
    ensures value { result ≡ own.value_of_pair first second }
    ensures small { result < 100 }
{
    10 * digit_of(first) + digit_of(second)
}

/// The only value that can spell characters or digits at a stand.
#[tactic(auto, unfolding(crate::specs::Own::own_of))]
pub(crate) fn own_value(elements: &[Element], at: Stand) -> u8
    requires { at.place ≤ length elements.now }
    ensures value { result ≡ own.own_of elements.now at }
    ensures small { result < 100 }
{
    match at.state.set {
        CodeSet::A => value_of_byte(elements.get(at.place).copied(), at.state),
        CodeSet::B => value_of_byte(elements.get(at.place).copied(), at.state),
        CodeSet::C => value_of_pair(
            elements.get(at.place).copied(),
            elements.get(at.place + 1).copied(),
        ),
    }
}

/// Whether a code set has a character.
#[inline(always)]
#[tactic(auto, unfolding(crate::specs::Own::set_has_character))]
fn set_has_character(set: CodeSet, character: u8) -> bool
    requires { character < 128 }
    ensures { result ≡ own.set_has_character set character }
{
    match set {
        CodeSet::A => character < 96,
        CodeSet::B => character >= 32,
        CodeSet::C => character < 96,
    }
}

/// Whether a code set has a byte, where 128 is added or not.
#[inline(always)]
#[tactic(auto, unfolding(crate::specs::Own::set_has_byte))]
fn set_has_byte(high: bool, set: CodeSet, byte: u8) -> bool
    ensures { result ≡ own.set_has_byte high set byte }
{
    if high {
        if byte < 128 {
            false
        } else {
            set_has_character(set, byte - 128)
        }
    } else {
        if byte < 128 {
            set_has_character(set, byte)
        } else {
            false
        }
    }
}

/// Whether an element is spelled by one character in a state.
#[inline(always)]
#[tactic(auto, unfolding(crate::specs::Own::element_fits))]
fn element_fits(element: Option<Element>, state: State) -> bool
    ensures { result ≡ own.element_fits element state }
{
    match element {
        None => false,
        Some(Element::Byte(byte)) => set_has_byte(reads_high(state), reading(state), byte),
        Some(Element::Eci(_)) => false,
        Some(Element::Fnc1) => false,
    }
}

/// Whether an element is a digit.
#[inline(always)]
#[tactic(auto, unfolding(crate::specs::Own::is_digit))]
fn is_digit(element: Option<Element>) -> bool
    ensures { result ≡ own.is_digit element }
{
    match element {
        None => false,
        Some(Element::Byte(byte)) => { if byte < 48 { false } else { byte < 58 } }
        Some(Element::Eci(_)) => false,
        Some(Element::Fnc1) => false,
    }
}

/// The stand after one character.
#[inline(always)]
#[tactic(auto, unfolding(crate::specs::Own::text_step))]
fn text_step(elements: &[Element], at: Stand) -> Option<Stand>
    requires { at.place ≤ length elements.now }
    ensures { result ≡ own.text_step elements.now at }
{
    if element_fits(elements.get(at.place).copied(), at.state) {
        Some(Stand {
            place: at.place + 1,
            state: after_character(at.state),
        })
    } else {
        None
    }
}

/// The stand after two digits.
#[inline(always)]
#[tactic(auto, unfolding(crate::specs::Own::pair_step))]
fn pair_step(elements: &[Element], at: Stand) -> Option<Stand>
    requires { at.place ≤ length elements.now }
    ensures { result ≡ own.pair_step elements.now at }
{
    if is_digit(elements.get(at.place).copied()) && is_digit(elements.get(at.place + 1).copied()) {
        Some(Stand {
            place: at.place + 2,
            state: at.state,
        })
    } else {
        None
    }
}

/// The stand after the only value that can spell characters or digits.
#[inline(always)]
#[tactic(auto, unfolding(crate::specs::Own::own_step_of))]
pub(crate) fn own_step(elements: &[Element], at: Stand) -> Option<Stand>
    requires { at.place ≤ length elements.now }
    ensures { result ≡ own.own_step_of elements.now at }
{
    match at.state.set {
        CodeSet::A => text_step(elements, at),
        CodeSet::B => text_step(elements, at),
        CodeSet::C => pair_step(elements, at),
    }
}

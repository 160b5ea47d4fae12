ghost use Rattle.std.specs.Prelude.{◌≡◌, ◌<◌, ◌≤◌};
ghost use Rattle.aztec_best.specs.Numbers.{numbers_of, data_number, punct_length, capital_length, byte_length, fewest_digits, is_pair, has_pair, own_number, pair_of, pair_from, pair_number, controls_from};

use crate::lows::NO_COST;
use aztec_modes::{Mode, width};
use bar_base::Element;

/// The number of each byte's data code in Upper mode, 0 where it has none.
pub const UPPER_NUMBERS: [u8; 128] = [
    0, 0, 0, 0, 0, 0, 0, 0, 0, 0, 0, 0, 0, 0, 0, 0, 0, 0, 0, 0, 0, 0, 0, 0, 0, 0, 0, 0, 0, 0, 0, 0,
    1, 0, 0, 0, 0, 0, 0, 0, 0, 0, 0, 0, 0, 0, 0, 0, 0, 0, 0, 0, 0, 0, 0, 0, 0, 0, 0, 0, 0, 0, 0, 0,
    0, 2, 3, 4, 5, 6, 7, 8, 9, 10, 11, 12, 13, 14, 15, 16, 17, 18, 19, 20, 21, 22, 23, 24, 25, 26,
    27, 0, 0, 0, 0, 0, 0, 0, 0, 0, 0, 0, 0, 0, 0, 0, 0, 0, 0, 0, 0, 0, 0, 0, 0, 0, 0, 0, 0, 0, 0,
    0, 0, 0, 0, 0, 0, 0,
];

/// The number of each byte's data code in Lower mode, 0 where it has none.
pub const LOWER_NUMBERS: [u8; 128] = [
    0, 0, 0, 0, 0, 0, 0, 0, 0, 0, 0, 0, 0, 0, 0, 0, 0, 0, 0, 0, 0, 0, 0, 0, 0, 0, 0, 0, 0, 0, 0, 0,
    1, 0, 0, 0, 0, 0, 0, 0, 0, 0, 0, 0, 0, 0, 0, 0, 0, 0, 0, 0, 0, 0, 0, 0, 0, 0, 0, 0, 0, 0, 0, 0,
    0, 0, 0, 0, 0, 0, 0, 0, 0, 0, 0, 0, 0, 0, 0, 0, 0, 0, 0, 0, 0, 0, 0, 0, 0, 0, 0, 0, 0, 0, 0, 0,
    0, 2, 3, 4, 5, 6, 7, 8, 9, 10, 11, 12, 13, 14, 15, 16, 17, 18, 19, 20, 21, 22, 23, 24, 25, 26,
    27, 0, 0, 0, 0, 0,
];

/// The number of each byte's data code in Mixed mode, 0 where it has none.
pub const MIXED_NUMBERS: [u8; 128] = [
    0, 2, 3, 4, 5, 6, 7, 8, 9, 10, 11, 12, 13, 14, 0, 0, 0, 0, 0, 0, 0, 0, 0, 0, 0, 0, 0, 15, 16,
    17, 18, 19, 1, 0, 0, 0, 0, 0, 0, 0, 0, 0, 0, 0, 0, 0, 0, 0, 0, 0, 0, 0, 0, 0, 0, 0, 0, 0, 0, 0,
    0, 0, 0, 0, 20, 0, 0, 0, 0, 0, 0, 0, 0, 0, 0, 0, 0, 0, 0, 0, 0, 0, 0, 0, 0, 0, 0, 0, 0, 0, 0,
    0, 21, 0, 22, 23, 24, 0, 0, 0, 0, 0, 0, 0, 0, 0, 0, 0, 0, 0, 0, 0, 0, 0, 0, 0, 0, 0, 0, 0, 0,
    0, 0, 0, 25, 0, 26, 27,
];

/// The number of each byte's data code in Punct mode, 0 where it has none.
pub const PUNCT_NUMBERS: [u8; 128] = [
    0, 0, 0, 0, 0, 0, 0, 0, 0, 0, 0, 0, 0, 1, 0, 0, 0, 0, 0, 0, 0, 0, 0, 0, 0, 0, 0, 0, 0, 0, 0, 0,
    0, 6, 7, 8, 9, 10, 11, 12, 13, 14, 15, 16, 17, 18, 19, 20, 0, 0, 0, 0, 0, 0, 0, 0, 0, 0, 21,
    22, 23, 24, 25, 26, 0, 0, 0, 0, 0, 0, 0, 0, 0, 0, 0, 0, 0, 0, 0, 0, 0, 0, 0, 0, 0, 0, 0, 0, 0,
    0, 0, 27, 0, 28, 0, 0, 0, 0, 0, 0, 0, 0, 0, 0, 0, 0, 0, 0, 0, 0, 0, 0, 0, 0, 0, 0, 0, 0, 0, 0,
    0, 0, 0, 29, 0, 30, 0, 0,
];

/// The number of each byte's data code in Digit mode, 0 where it has none.
pub const DIGIT_NUMBERS: [u8; 128] = [
    0, 0, 0, 0, 0, 0, 0, 0, 0, 0, 0, 0, 0, 0, 0, 0, 0, 0, 0, 0, 0, 0, 0, 0, 0, 0, 0, 0, 0, 0, 0, 0,
    1, 0, 0, 0, 0, 0, 0, 0, 0, 0, 0, 0, 12, 0, 13, 0, 2, 3, 4, 5, 6, 7, 8, 9, 10, 11, 0, 0, 0, 0,
    0, 0, 0, 0, 0, 0, 0, 0, 0, 0, 0, 0, 0, 0, 0, 0, 0, 0, 0, 0, 0, 0, 0, 0, 0, 0, 0, 0, 0, 0, 0, 0,
    0, 0, 0, 0, 0, 0, 0, 0, 0, 0, 0, 0, 0, 0, 0, 0, 0, 0, 0, 0, 0, 0, 0, 0, 0, 0, 0, 0, 0, 0, 0, 0,
    0, 0,
];

/// The numbers of the bytes in a mode.
#[tactic(auto, unfolding(crate::specs::Numbers::numbers_of))]
#[inline(always)]
fn numbers(mode: Mode) -> &'static [u8]
    ensures { result.now ≡ numbers_of mode }
{
    match mode {
        Mode::Upper => &UPPER_NUMBERS,
        Mode::Lower => &LOWER_NUMBERS,
        Mode::Mixed => &MIXED_NUMBERS,
        Mode::Punct => &PUNCT_NUMBERS,
        Mode::Digit => &DIGIT_NUMBERS,
    }
}

/// The number of a byte's data code in a mode, 0 where it has none.
#[tactic(auto, unfolding(crate::specs::Numbers::data_number))]
#[inline(always)]
pub(crate) fn data_number(mode: Mode, byte: u8) -> u8
    ensures { result ≡ data_number mode byte }
{
    match numbers(mode).get(byte as usize) {
        Some(number) => *number,
        None => 0,
    }
}

/// The bits of a data code of Punct, with the shift that it needs outside Punct.
#[tactic(auto, unfolding(crate::specs::Numbers::punct_length))]
#[inline(always)]
pub(crate) fn punct_length(mode: Mode) -> u32
    ensures value { result ≡ punct_length mode }
    ensures few { result ≤ 10 }
{
    match mode {
        Mode::Upper | Mode::Lower | Mode::Mixed => 10,
        Mode::Punct => 5,
        Mode::Digit => 9,
    }
}

/// The bits of a shift to Upper and a data code, where the mode has that shift.
#[tactic(auto, unfolding(crate::specs::Numbers::capital_length))]
#[inline(always)]
fn capital_length(mode: Mode) -> u32
    ensures value { result ≡ capital_length mode }
    ensures few { result ≤ 1073741824 }
{
    match mode {
        Mode::Lower => 10,
        Mode::Digit => 9,
        Mode::Upper | Mode::Mixed | Mode::Punct => NO_COST,
    }
}

/// The fewest bits of a data code, or of a shift and one, that spells a byte alone.
#[tactic(auto, unfolding(crate::specs::Numbers::byte_length))]
#[inline(always)]
pub(crate) fn byte_length(mode: Mode, byte: u8) -> u32
    ensures value { result ≡ byte_length mode byte }
    ensures few { result ≤ 1073741824 }
{
    if data_number(mode, byte) != 0 {
        width(mode)
    } else if data_number(Mode::Punct, byte) != 0 {
        punct_length(mode)
    } else if data_number(Mode::Upper, byte) != 0 {
        capital_length(mode)
    } else {
        NO_COST
    }
}

/// The fewest digits of an ECI.
#[tactic(auto, unfolding(crate::specs::Numbers::fewest_digits))]
#[inline(always)]
pub(crate) fn fewest_digits(number: u32) -> u32
    ensures value { result ≡ fewest_digits number }
    ensures few { result ≤ 6 }
{
    if number < 10 {
        1
    } else if number < 100 {
        2
    } else if number < 1000 {
        3
    } else if number < 10_000 {
        4
    } else if number < 100_000 {
        5
    } else {
        6
    }
}

/// Whether one code of Punct spells two bytes.
#[tactic(auto, unfolding(crate::specs::Numbers::is_pair))]
#[inline(always)]
fn is_pair(first: u8, second: u8) -> bool
    ensures { result ≡ is_pair first second }
{
    (first == b'\r' && second == b'\n')
        || ((first == b'.' || first == b',' || first == b':') && second == b' ')
}

/// Whether two elements are such bytes.
#[tactic(auto, unfolding(crate::specs::Numbers::has_pair))]
#[inline(always)]
pub(crate) fn has_pair(first: Option<Element>, second: Option<Element>) -> bool
    ensures { result ≡ has_pair first second }
{
    match first {
        None => false,
        Some(Element::Eci(_)) => false,
        Some(Element::Fnc1) => false,
        Some(Element::Byte(byte)) => match second {
            None => false,
            Some(Element::Eci(_)) => false,
            Some(Element::Fnc1) => false,
            Some(Element::Byte(other)) => is_pair(byte, other),
        },
    }
}

/// The number of the data code for an element alone, 0 where it has none.
#[tactic(auto, unfolding(crate::specs::Numbers::own_number))]
#[inline(always)]
pub(crate) fn own_number(mode: Mode, element: Option<Element>) -> u8
    ensures { result ≡ own_number mode element }
{
    match element {
        None => 0,
        Some(Element::Byte(byte)) => data_number(mode, byte),
        Some(Element::Eci(_)) => 0,
        Some(Element::Fnc1) => 0,
    }
}

/// The number of the code of Punct for two bytes, by the first of them.
#[tactic(auto, unfolding(crate::specs::Numbers::pair_of))]
#[inline(always)]
fn pair_of(byte: u8) -> u8
    ensures { result ≡ pair_of byte }
{
    if byte == b'\r' {
        2
    } else if byte == b'.' {
        3
    } else if byte == b',' {
        4
    } else {
        5
    }
}

/// The same by an element, 0 where it is no byte.
#[tactic(auto, unfolding(crate::specs::Numbers::pair_from))]
#[inline(always)]
fn pair_from(first: Option<Element>) -> u8
    ensures { result ≡ pair_from first }
{
    match first {
        None => 0,
        Some(Element::Byte(byte)) => pair_of(byte),
        Some(Element::Eci(_)) => 0,
        Some(Element::Fnc1) => 0,
    }
}

/// The number of the data code for two elements, 0 where they have none.
#[tactic(auto, unfolding(crate::specs::Numbers::pair_number))]
#[inline(always)]
pub(crate) fn pair_number(mode: Mode, first: Option<Element>, second: Option<Element>) -> u8
    ensures { result ≡ pair_number mode first second }
{
    match mode {
        Mode::Upper | Mode::Lower | Mode::Mixed | Mode::Digit => 0,
        Mode::Punct => {
            if has_pair(first, second) {
                pair_from(first)
            } else {
                0
            }
        }
    }
}

/// The number from which on the codes of a mode are latches, shifts and B/S: behind its data codes.
#[tactic(auto, unfolding(crate::specs::Numbers::controls_from))]
#[inline(always)]
pub(crate) fn controls_from(mode: Mode) -> u8
    ensures { result ≡ controls_from mode }
{
    match mode {
        Mode::Upper | Mode::Lower | Mode::Mixed => 28,
        Mode::Punct => 31,
        Mode::Digit => 14,
    }
}

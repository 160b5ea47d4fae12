//! The fewest bits of codes that spell one element or a pair of bytes, in each mode.
ghost use Rattle.std.specs.Prelude.{◌≡◌, ◌≤◌, ◌+◌};
ghost use Rattle.aztec_modes.specs.declared.mode.Mode.{Mode as ModeValue};
ghost use Rattle.aztec_modes.specs.Entry.{flag_width};
ghost use Rattle.aztec_best.specs.Numbers.{byte_length, punct_length, single_length};
ghost use Rattle.aztec_best.specs.Start.{start_of};

use crate::lows::NO_COST;
use crate::numbers::{byte_length, fewest_digits, punct_length};
use crate::starts::Starts;
use aztec_modes::{Mode, flag_width};
use bar_base::Element;

/// No code in any mode.
const NO_STARTS: Starts = Starts {
    upper: NO_COST,
    lower: NO_COST,
    mixed: NO_COST,
    punct: NO_COST,
    digit: NO_COST,
};

/// Those of a byte.
#[tactic(auto, unfolding(crate::specs::Start::start_of))]
#[inline(always)]
fn byte_lengths(byte: u8) -> Starts
    ensures value { (mode : ModeValue) → start_of result mode ≡ byte_length mode byte }
    ensures few { (mode : ModeValue) → start_of result mode ≤ 1073741824 }
{
    Starts {
        upper: byte_length(Mode::Upper, byte),
        lower: byte_length(Mode::Lower, byte),
        mixed: byte_length(Mode::Mixed, byte),
        punct: byte_length(Mode::Punct, byte),
        digit: byte_length(Mode::Digit, byte),
    }
}

/// Those of FLG(n) with so many bits behind it.
#[tactic(auto, unfolding(crate::specs::Start::start_of))]
#[inline(always)]
fn flag_lengths(behind: u32) -> Starts
    requires { behind ≤ 24 }
    ensures value { (mode : ModeValue) → start_of result mode ≡ flag_width mode + behind }
    ensures few { (mode : ModeValue) → start_of result mode ≤ 1073741824 }
{
    Starts {
        upper: flag_width(Mode::Upper) + behind,
        lower: flag_width(Mode::Lower) + behind,
        mixed: flag_width(Mode::Mixed) + behind,
        punct: flag_width(Mode::Punct) + behind,
        digit: flag_width(Mode::Digit) + behind,
    }
}

/// Those of an element.
#[tactic(auto, unfolding(crate::specs::Numbers::single_length, crate::specs::Start::start_of))]
#[inline(always)]
pub(crate) fn single_lengths(element: Option<Element>) -> Starts
    ensures value { (mode : ModeValue) → start_of result mode ≡ single_length mode element }
    ensures few { (mode : ModeValue) → start_of result mode ≤ 1073741824 }
{
    match element {
        None => NO_STARTS,
        Some(Element::Byte(byte)) => byte_lengths(byte),
        Some(Element::Eci(number)) => flag_lengths(4 * fewest_digits(number)),
        Some(Element::Fnc1) => flag_lengths(0),
    }
}

/// Those of a code that spells two bytes.
#[tactic(auto, unfolding(crate::specs::Start::start_of))]
#[inline(always)]
pub(crate) fn pair_lengths() -> Starts
    ensures value { (mode : ModeValue) → start_of result mode ≡ punct_length mode }
    ensures few { (mode : ModeValue) → start_of result mode ≤ 1073741824 }
{
    Starts {
        upper: punct_length(Mode::Upper),
        lower: punct_length(Mode::Lower),
        mixed: punct_length(Mode::Mixed),
        punct: punct_length(Mode::Punct),
        digit: punct_length(Mode::Digit),
    }
}

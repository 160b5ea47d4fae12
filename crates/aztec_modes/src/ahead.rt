ghost use Rattle.std.specs.Prelude.{◌≡◌, ◌<◌, ◌≤◌, ◌+◌, ◌-◌, ◌*◌, ◌^◌, Some, IfSome, drop, length, slice_get};
ghost use Rattle.aztec_modes.specs.Ahead.{code_ahead, digit_ahead, code_digit, digits_ahead, flag_ahead, flag_by, first_by, long_ahead, number_ahead, run_ahead, run_by, second_ahead, second_by};
ghost use Rattle.bar_base.specs.Bits.{number_after};
ghost use Rattle.std.specs.Prelude.{take};

use crate::code::Code;
use crate::mode::Mode;
use crate::table::{Symbol, symbol_at, width};

/// The bit at a place below the length.
pub(crate) fn bit_at(bits: &[bool], at: usize) -> bool
    requires { at < length bits.now }
    ensures { slice_get bits.now at ≡ Some result }
{
    bits[at]
}

/// The number that `count` bits from a place on write.
pub(crate) fn number_from(bits: &[bool], at: usize, count: u32) -> u32
    requires there { at + count ≤ length bits.now }
    requires small { count ≤ 16 }
    ensures number { result ≡ number_after 0 (take count (drop at bits.now)) }
    ensures below { result < 2 ^ count }
{
    let mut number = 0;
    for i in 0..count {
        number = number * 2 + u32::from(bit_at(bits, at + i as usize));
    }
    number
}

/// The number that `count` bits from a place on write; None where fewer are left.
#[tactic(auto, using(crate::proofs::NumbersAhead::narrow), unfolding(crate::specs::Ahead::number_ahead))]
fn number_at(bits: &[bool], at: usize, count: u32) -> Option<u32>
    requires within { at ≤ length bits.now }
    requires small { count ≤ 16 }
    ensures number { result ≡ number_ahead count (drop at bits.now) }
    ensures below { IfSome result (λ number. number < 2 ^ count) }
    ensures there { IfSome result (λ number. at + count ≤ length bits.now) }
    ensures fits { IfSome result (λ number. at + count < 2 ^ 63) }
    ensures narrow { IfSome result (λ number. count ≤ 5 → number < 32) }
{
    if bits.len() - at < count as usize {
        return None;
    }
    Some(number_from(bits, at, count))
}

/// The digit that four bits stand for from a place on.
#[tactic(auto, unfolding(crate::specs::Ahead::digit_ahead, crate::specs::Ahead::code_digit, crate::specs::Ahead::onward_from))]
fn digit_at(bits: &[bool], at: usize) -> Option<u32>
    requires within { at ≤ length bits.now }
    ensures digit { result ≡ digit_ahead (drop at bits.now) }
    ensures below { IfSome result (λ digit. digit ≤ 9) }
    ensures there { IfSome result (λ digit. at + 4 ≤ length bits.now) }
    ensures fits { IfSome result (λ digit. at + 4 < 2 ^ 63) }
{
    match number_at(bits, at, 4) {
        None => None,
        Some(number) => {
            if number < 2 {
                return None;
            }
            if 11 < number {
                return None;
            }
            Some(number - 2)
        }
    }
}

/// The number that `count` digits from a place on make behind a number.
#[tactic(auto, unfolding(crate::specs::Ahead::digits_ahead))]
fn digits_at(bits: &[bool], at: usize, count: u8, front: u32) -> Option<u32>
    requires within { at ≤ length bits.now }
    requires small { (front + 1) * 10 ^ count ≤ 1000000 }
    ensures digits { result ≡ digits_ahead count front (drop at bits.now) }
    ensures below { IfSome result (λ number. number ≤ 999999) }
{
    if count == 0 {
        return Some(front);
    }
    match digit_at(bits, at) {
        None => None,
        Some(digit) => digits_at(bits, at + 4, count - 1, front * 10 + digit),
    }
}

/// FLG(n) from n on.
#[tactic(auto, unfolding(crate::specs::Ahead::flag_by, crate::specs::Ahead::onward_from))]
fn flag_from(bits: &[bool], at: usize, n: u8) -> Option<Code>
    requires within { at ≤ length bits.now }
    requires small { n < 8 }
    ensures { result ≡ flag_by n (drop at bits.now) }
{
    if n == 0 {
        return Some(Code::Fnc1);
    }
    if n == 7 {
        return None;
    }
    match digits_at(bits, at, n, 0) {
        None => None,
        Some(number) => Some(Code::Eci(number, n)),
    }
}

/// FLG(n), from the three bits of n on.
#[tactic(auto, using(crate::proofs::NumbersAhead::drop_on), unfolding(crate::specs::Ahead::flag_ahead, crate::specs::Ahead::onward_from))]
fn flag_at(bits: &[bool], at: usize) -> Option<Code>
    requires within { at ≤ length bits.now }
    ensures { result ≡ flag_ahead (drop at bits.now) }
{
    match number_at(bits, at, 3) {
        None => None,
        Some(n) => flag_from(bits, at + 3, n as u8),
    }
}

/// A run of so many bytes, where they are there.
#[tactic(auto, unfolding(crate::specs::Ahead::run_by))]
fn run_from(bits: &[bool], at: usize, count: u32, long: bool) -> Option<Code>
    requires within { at ≤ length bits.now }
    requires small { count ≤ 2078 }
    ensures { result ≡ run_by count long (drop at bits.now) }
{
    if bits.len() - at < 8 * count as usize {
        return None;
    }
    Some(Code::Run(count, long))
}

/// A run whose length has the long form.
#[tactic(auto, using(crate::proofs::NumbersAhead::drop_on), unfolding(crate::specs::Ahead::long_ahead, crate::specs::Ahead::onward_from))]
fn long_at(bits: &[bool], at: usize) -> Option<Code>
    requires within { at ≤ length bits.now }
    ensures { result ≡ long_ahead (drop at bits.now) }
{
    match number_at(bits, at, 11) {
        None => None,
        Some(n) => run_from(bits, at + 11, n + 31, true),
    }
}

/// A run, from its length on.
#[tactic(auto, using(crate::proofs::NumbersAhead::drop_on), unfolding(crate::specs::Ahead::run_ahead, crate::specs::Ahead::onward_from))]
fn run_at(bits: &[bool], at: usize) -> Option<Code>
    requires within { at ≤ length bits.now }
    ensures { result ≡ run_ahead (drop at bits.now) }
{
    match number_at(bits, at, 5) {
        None => None,
        Some(n) => {
            if n == 0 {
                return long_at(bits, at + 5);
            }
            run_from(bits, at + 5, n, false)
        }
    }
}

/// The code after a shift, from its symbol on.
#[tactic(auto, unfolding(crate::specs::Ahead::second_by))]
fn second_from(bits: &[bool], at: usize, to: Mode, number: u8, symbol: Symbol) -> Option<Code>
    requires within { at ≤ length bits.now }
    ensures { result ≡ second_by to number (drop at bits.now) symbol }
{
    match symbol {
        Symbol::One(_) | Symbol::Two(_, _) => Some(Code::Shift(to, number)),
        Symbol::Flag => flag_at(bits, at),
        Symbol::Absent | Symbol::LatchTo(_) | Symbol::ShiftTo(_) | Symbol::Binary => None,
    }
}

/// The code after a shift.
#[tactic(auto, using(crate::proofs::NumbersAhead::drop_on), unfolding(crate::specs::Ahead::second_ahead, crate::specs::Ahead::onward_from))]
fn second_at(bits: &[bool], at: usize, to: Mode) -> Option<Code>
    requires within { at ≤ length bits.now }
    ensures { result ≡ second_ahead to (drop at bits.now) }
{
    let wide = width(to);
    match number_at(bits, at, wide) {
        None => None,
        Some(number) => second_from(
            bits,
            at + wide as usize,
            to,
            number as u8,
            symbol_at(to, number as u8),
        ),
    }
}

/// The code of a symbol, and of what follows it.
#[tactic(auto, unfolding(crate::specs::Ahead::first_by))]
fn first_from(bits: &[bool], at: usize, number: u8, symbol: Symbol) -> Option<Code>
    requires within { at ≤ length bits.now }
    ensures { result ≡ first_by number (drop at bits.now) symbol }
{
    match symbol {
        Symbol::One(_) | Symbol::Two(_, _) => Some(Code::Plain(number)),
        Symbol::LatchTo(to) => Some(Code::Latch(to)),
        Symbol::ShiftTo(to) => second_at(bits, at, to),
        Symbol::Binary => run_at(bits, at),
        Symbol::Flag => flag_at(bits, at),
        Symbol::Absent => None,
    }
}

/// The code that stands at a place; None where no code does.
#[tactic(auto, using(crate::proofs::NumbersAhead::drop_on), unfolding(crate::specs::Ahead::code_ahead, crate::specs::Ahead::onward_from))]
pub(crate) fn code_at_bits(bits: &[bool], at: usize, mode: Mode) -> Option<Code>
    requires within { at ≤ length bits.now }
    ensures { result ≡ code_ahead mode (drop at bits.now) }
{
    let wide = width(mode);
    match number_at(bits, at, wide) {
        None => None,
        Some(number) => first_from(
            bits,
            at + wide as usize,
            number as u8,
            symbol_at(mode, number as u8),
        ),
    }
}

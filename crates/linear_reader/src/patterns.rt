//! Starts, patterns and ends of the symbologies.
ghost use Rattle.std.specs.Prelude.{◌≡◌, ◌<◌, ◌≤◌, ◌==◌, IfSome, length};
ghost use Rattle.linear_reader.specs.Patterns.{start_modules, value_if, start_value, start_of, pattern_modules, pattern_count, value_pattern, value_of, value_in_front, end_modules, end_pattern};
ghost use Rattle.linear_reader.specs.declared.symbology.RowSymbology.TheVariants.{Code128};
ghost use Rattle.linear_reader.specs.Row.{is_end};

use crate::modules::{front_number, number_of};
use crate::symbology::RowSymbology;
use code128_best::pattern;
use linear_codes::{pattern_pair, pattern39, pattern93};

/// The value of `*` of Code 39, which starts and ends a row.
const STAR: u8 = 43;

/// The value of the start of Code 93.
const START93: u8 = 47;

/// The start of ITF-14: narrow elements, dark, light, dark, light.
const START_ITF: u32 = 0b1010;

/// The end of ITF-14: a wide bar, a narrow space, a narrow bar.
const END_ITF: u32 = 0b11101;

/// The stop of Code 128.
const STOP128: u32 = 0b11_000_111_0_1_0_11;

/// How many modules a start has.
#[tactic(auto, unfolding(crate::specs::Patterns::start_modules))]
pub(crate) fn start_modules(symbology: RowSymbology) -> usize
    ensures value { result ≡ start_modules symbology }
    ensures small { result ≤ 18 }
{
    match symbology {
        RowSymbology::Code39 => 12,
        RowSymbology::Code39Full => 12,
        RowSymbology::Code93 => 9,
        RowSymbology::Code128 => 11,
        RowSymbology::Itf14 => 4,
    }
}

/// The value of the start with these modules.
#[tactic(auto, unfolding(crate::specs::Patterns::start_value))]
fn start_value(symbology: RowSymbology, number: u32) -> Option<u8>
    ensures value { result ≡ start_value symbology number }
    ensures small { IfSome result (λ start. start < 106) }
{
    match symbology {
        RowSymbology::Code39 => value_if(u32::from(pattern39(STAR)) == number, STAR),
        RowSymbology::Code39Full => value_if(u32::from(pattern39(STAR)) == number, STAR),
        RowSymbology::Code93 => value_if(u32::from(pattern93(START93)) == number, START93),
        RowSymbology::Code128 => start_value128(number),
        RowSymbology::Itf14 => value_if(START_ITF == number, 0),
    }
}

/// A value, where a test passes.
fn value_if(test: bool, value: u8) -> Option<u8>
    ensures value { result ≡ value_if test value }
    ensures same { IfSome result (λ given. given ≡ value) }
{
    if test { Some(value) } else { None }
}

/// The start value of Code 128 with these modules.
#[tactic(auto, unfolding(crate::specs::Patterns::start_value))]
fn start_value128(number: u32) -> Option<u8>
    ensures value { result ≡ start_value Code128 number }
    ensures small { IfSome result (λ start. start < 106) }
{
    if u32::from(pattern(103)) == number {
        Some(103)
    } else if u32::from(pattern(104)) == number {
        Some(104)
    } else {
        value_if(u32::from(pattern(105)) == number, 105)
    }
}

/// The value of the start with which modules begin.
#[tactic(auto, unfolding(crate::specs::Patterns::start_of))]
pub(crate) fn start_of(symbology: RowSymbology, modules: &[bool]) -> Option<u8>
    ensures start { result ≡ start_of symbology modules.now }
    ensures small { IfSome result (λ start. start < 106) }
    ensures within { IfSome result (λ _. start_modules symbology ≤ length modules.now) }
{
    match front_number(modules, start_modules(symbology)) {
        None => None,
        Some(number) => start_value(symbology, number),
    }
}

/// How many modules a pattern has, the light one in front of it among them.
#[tactic(auto, unfolding(crate::specs::Patterns::pattern_modules))]
pub(crate) fn pattern_modules(symbology: RowSymbology) -> usize
    ensures value { result ≡ pattern_modules symbology }
    ensures some { 1 ≤ result }
    ensures small { result ≤ 18 }
{
    match symbology {
        RowSymbology::Code39 => 13,
        RowSymbology::Code39Full => 13,
        RowSymbology::Code93 => 9,
        RowSymbology::Code128 => 11,
        RowSymbology::Itf14 => 18,
    }
}

/// How many patterns there are.
#[tactic(auto, unfolding(crate::specs::Patterns::pattern_count))]
fn pattern_count(symbology: RowSymbology) -> u8
    ensures { result ≡ pattern_count symbology }
{
    match symbology {
        RowSymbology::Code39 => 43,
        RowSymbology::Code39Full => 43,
        RowSymbology::Code93 => 47,
        RowSymbology::Code128 => 106,
        RowSymbology::Itf14 => 100,
    }
}

/// The pattern of a value as a number.
#[tactic(auto, unfolding(crate::specs::Patterns::value_pattern, crate::specs::Patterns::pattern_count))]
fn value_pattern(symbology: RowSymbology, value: u8) -> u32
    requires { value < pattern_count symbology }
    ensures { result ≡ value_pattern symbology value }
{
    match symbology {
        RowSymbology::Code39 => u32::from(pattern39(value)),
        RowSymbology::Code39Full => u32::from(pattern39(value)),
        RowSymbology::Code93 => u32::from(pattern93(value)),
        RowSymbology::Code128 => u32::from(pattern(value)),
        RowSymbology::Itf14 => pattern_pair(value / 10, value % 10),
    }
}

/// The value with this pattern.
#[tactic(auto, unfolding(crate::specs::Patterns::value_of))]
fn value_of(symbology: RowSymbology, number: u32) -> Option<u8>
    ensures value { result ≡ value_of symbology number }
    ensures small { IfSome result (λ value. value < pattern_count symbology) }
{
    for value in 0..pattern_count(symbology) {
        if value_pattern(symbology, value) == number {
            return Some(value);
        }
    }
    None
}

/// The value of the pattern with which modules begin.
#[tactic(auto, unfolding(crate::specs::Patterns::value_in_front))]
pub(crate) fn value_in_front(symbology: RowSymbology, modules: &[bool]) -> Option<u8>
    ensures value { result ≡ value_in_front symbology modules.now }
    ensures small { IfSome result (λ value. value < pattern_count symbology) }
    ensures within { IfSome result (λ _. pattern_modules symbology ≤ length modules.now) }
{
    match front_number(modules, pattern_modules(symbology)) {
        None => None,
        Some(number) => value_of(symbology, number),
    }
}

/// How many modules an end has, the light one in front of it among them.
#[tactic(auto, unfolding(crate::specs::Patterns::end_modules))]
fn end_modules(symbology: RowSymbology) -> usize
    ensures value { result ≡ end_modules symbology }
    ensures small { result ≤ 18 }
{
    match symbology {
        RowSymbology::Code39 => 13,
        RowSymbology::Code39Full => 13,
        RowSymbology::Code93 => 10,
        RowSymbology::Code128 => 13,
        RowSymbology::Itf14 => 5,
    }
}

/// The end as a number.
#[tactic(auto, unfolding(crate::specs::Patterns::end_pattern, code128_best::specs::Symbol::stop_widths128, bar_base::specs::Stripes::stripes, bar_base::specs::Bits::number_after))]
fn end_pattern(symbology: RowSymbology) -> u32
    ensures { result ≡ end_pattern symbology }
{
    match symbology {
        RowSymbology::Code39 => u32::from(pattern39(STAR)),
        RowSymbology::Code39Full => u32::from(pattern39(STAR)),
        RowSymbology::Code93 => u32::from(pattern93(START93)) * 2 + 1,
        RowSymbology::Code128 => STOP128,
        RowSymbology::Itf14 => END_ITF,
    }
}

/// Whether modules are an end, and no more.
#[tactic(auto, unfolding(crate::specs::Row::is_end))]
pub(crate) fn is_end(symbology: RowSymbology, modules: &[bool]) -> bool
    ensures { result ≡ is_end symbology modules.now }
{
    if modules.len() == end_modules(symbology) {
        number_of(modules) == end_pattern(symbology)
    } else {
        false
    }
}

//! The faults of a value.
ghost use Rattle.std.specs.Prelude.{◌≡◌, ◌==◌, ◌≤◌, ◌<◌, ◌+◌, ◌^◌, IfSome, length, position};
ghost use Rattle.std.specs.List.{list_any};
ghost use Rattle.gs1_check.specs.Sections.{character_fault, check_fault, date_fault, is_in_set_82, is_outside, length_fault, numeric_fault, rule_fault, signs, value_fault};

use crate::brackets::Brackets;
use crate::fault::Gs1Fault;
use crate::identifiers::{Format, Rule};
use crate::slices::{digit_at, first_no_digit, front, two_digits};
use bar_base::check_digit_of_text;

static SIGNS: [u8; 20] = *b"!\"%&'()*+,-./:;<=>?_";

/// The first fault of a value whose first byte is at the place `at`.
#[tactic(auto, unfolding(crate::specs::Sections::value_fault))]
pub fn value_fault(brackets: Brackets, at: usize, format: Format, value: &[u8]) -> Option<Gs1Fault>
    requires small { at + length value.now ≤ 2 ^ 63 }
    ensures { result ≡ value_fault brackets at format value.now }
{
    match character_fault(brackets, at, value) {
        Some(fault) => Some(fault),
        None => match length_fault(at, format, value) {
            Some(fault) => Some(fault),
            None => match numeric_fault(at, format, value) {
                Some(fault) => Some(fault),
                None => rule_fault(at, format, value),
            },
        },
    }
}

fn character_fault(brackets: Brackets, at: usize, value: &[u8]) -> Option<Gs1Fault>
    requires small { at + length value.now ≤ 2 ^ 63 }
    ensures { result ≡ character_fault brackets at value.now }
{
    match first_outside(brackets, value) {
        Some(place) => Some(Gs1Fault::BadCharacter(at + place)),
        None => None,
    }
}

fn first_outside(brackets: Brackets, bytes: &[u8]) -> Option<usize>
    ensures place { result ≡ position (is_outside brackets) bytes.now }
    ensures within { IfSome result (λ place. place < length bytes.now) }
{
    bytes.iter().position(|byte| is_outside(brackets, *byte))
}

#[tactic(auto, unfolding(crate::specs::Sections::is_outside))]
fn is_outside(brackets: Brackets, byte: u8) -> bool
    ensures { result ≡ is_outside brackets byte }
{
    !is_in_set_82(byte) || byte == brackets.opening() || byte == brackets.closing()
}

#[tactic(auto, unfolding(crate::specs::Sections::is_in_set_82))]
fn is_in_set_82(byte: u8) -> bool
    ensures { result ≡ is_in_set_82 byte }
{
    byte.is_ascii_alphanumeric() || is_sign(byte)
}

fn is_sign(byte: u8) -> bool
    ensures { result ≡ list_any (λ sign. sign == byte) signs }
{
    SIGNS.contains(&byte)
}

fn length_fault(at: usize, format: Format, value: &[u8]) -> Option<Gs1Fault>
    ensures { result ≡ length_fault at format value.now }
{
    if usize::from(format.least) <= value.len() && value.len() <= usize::from(format.most) {
        None
    } else {
        Some(Gs1Fault::BadLength(at))
    }
}

fn numeric_fault(at: usize, format: Format, value: &[u8]) -> Option<Gs1Fault>
    requires small { at + length value.now ≤ 2 ^ 63 }
    ensures { result ≡ numeric_fault at format value.now }
{
    match first_no_digit(front(value, usize::from(format.digits))) {
        Some(place) => Some(Gs1Fault::BadCharacter(at + place)),
        None => None,
    }
}

fn rule_fault(at: usize, format: Format, value: &[u8]) -> Option<Gs1Fault>
    requires small { at ≤ 2 ^ 63 }
    ensures { result ≡ rule_fault at format value.now format.rule }
{
    match format.rule {
        Rule::Plain => None,
        Rule::Date => date_fault(at, value),
        Rule::Check => check_fault(at, format, value),
    }
}

fn date_fault(at: usize, value: &[u8]) -> Option<Gs1Fault>
    ensures { result ≡ date_fault at value.now }
{
    let month = two_digits(value, 2);
    if 1 <= month && month <= 12 && two_digits(value, 4) <= 31 {
        None
    } else {
        Some(Gs1Fault::BadDate(at))
    }
}

fn check_fault(at: usize, format: Format, value: &[u8]) -> Option<Gs1Fault>
    requires small { at ≤ 2 ^ 63 }
    ensures { result ≡ check_fault at format value.now }
{
    let place = usize::from(format.digits).saturating_sub(1);
    let given = digit_at(value, place);
    let wanted = check_digit_of_text(front(value, place));
    if given == wanted {
        None
    } else {
        Some(Gs1Fault::BadCheck(at + place, given, wanted))
    }
}

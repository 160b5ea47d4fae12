//! The faults of a section: what is behind an opening bracket, up to the next one or the end.
ghost use Rattle.std.specs.Prelude.{◌≡◌, ◌≤◌, ◌<◌, ◌+◌, ◌^◌, length};
ghost use Rattle.std.specs.List.{position_or_len};
ghost use Rattle.gs1_check.specs.Sections.{is_no_digit, section_fault, sized_fault};

use crate::brackets::Brackets;
use crate::fault::Gs1Fault;
use crate::identifiers::identifier_format;
use crate::slices::first_no_digit;
use crate::value::value_fault;

/// The first fault of the section behind the opening bracket at the place `at`.
#[tactic(auto, unfolding(crate::specs::Sections::section_fault))]
pub fn section_fault(brackets: Brackets, at: usize, section: &[u8]) -> Option<Gs1Fault>
    requires { at + length section.now < 2 ^ 63 }
    ensures { result ≡ section_fault brackets at section.now }
{
    sized_fault(brackets, at, section, count_digits(section))
}

/// How many digits the section begins with.
pub fn count_digits(section: &[u8]) -> usize
    ensures count { result ≡ position_or_len is_no_digit section.now }
    ensures within { result ≤ length section.now }
{
    match first_no_digit(section) {
        Some(place) => place,
        None => section.len(),
    }
}

// The same, where the identifier has so many digits.
#[tactic(auto, unfolding(crate::specs::Sections::sized_fault))]
fn sized_fault(brackets: Brackets, at: usize, section: &[u8], size: usize) -> Option<Gs1Fault>
    requires small { at + length section.now < 2 ^ 63 }
    requires within { size ≤ length section.now }
    ensures { result ≡ sized_fault brackets at section.now size }
{
    if size == section.len() || section[size] != brackets.closing() {
        return Some(Gs1Fault::BadBracket(at + 1 + size));
    }
    match identifier_format(&section[..size]) {
        Some(format) => value_fault(brackets, at + 2 + size, format, &section[size + 1..]),
        None => Some(Gs1Fault::UnknownIdentifier(at + 1)),
    }
}

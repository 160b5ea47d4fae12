//! From a text to the body of its element strings.
ghost use Rattle.std.specs.Prelude.{◌≡◌, ◌==◌, ◌++◌, ◌<◌, ◌+◌, ◌≤◌, List, Some, None, IfOk, IfSome, MatchResult, OnOk, length, map};
ghost use Rattle.std.specs.List.{position, position_or_len};
ghost use Rattle.bar_base.specs.Results.{Gives};
ghost use Rattle.bar_base.specs.declared.element.Element.{Element as ElementValue};
ghost use Rattle.bar_base.specs.declared.element.Element.TheVariants as element;
ghost use Rattle.gs1_check.specs.ElementStrings.{HasBody, brackets_of, gs1_refusal, needs_separator, section_at, section_string, separator, string_elements, text_body};
ghost use Rattle.gs1_check.specs.declared.fault.Gs1Fault.TheVariants as fault;

use crate::brackets::Brackets;
use crate::fault::Gs1Fault;
use crate::identifiers::has_predefined_length;
use crate::section::{count_digits, section_fault};
use crate::slices::{behind, front};
use bar_base::{Element, Elements, NoMemory};
use std::alloc::Global;

/// The body of the element strings of a text, whose identifiers are in round brackets, or else in square ones: the
/// bytes of each identifier and value, and FNC1 behind a string that isn't the last and has no predefined length.
///
/// The first fault of the first faulty string comes exactly where the text has no body. The faults of a string are
/// tested in this order: `BadBracket` where no opening bracket is, where no closing bracket is behind the digits, or
/// where the text ends before it; `UnknownIdentifier` at the first place behind the bracket; `BadCharacter` at the
/// first byte outside character set 82, to which the brackets in use don't belong; `BadLength` at the first place of
/// the value; `BadCharacter` at the first byte of a numeric part that is no digit; `BadDate` at the first place of
/// the value; `BadCheck` at the place of the check digit. `NoMemory` may come for any text.
#[tactic(auto, using(crate::proofs::TextBodies::sound_body))]
pub fn parse(alloc: Global, text: &[u8], parens: bool) -> Result<Elements, Gs1Fault>
    ensures gives { Gives gs1_refusal (λ body. body) result (text_body (brackets_of parens) text.now) }
    ensures body { IfOk result (λ body. HasBody (brackets_of parens) text.now body) }

    // A text that has a body gives it, or finds no memory.
    ensures given { (body : List ElementValue) → HasBody (brackets_of parens) text.now body
        → MatchResult result (λ v. v ≡ body) (λ e. e ≡ fault.NoMemory) }
{
    body_in(alloc, brackets_of(parens), text)
}

fn brackets_of(parens: bool) -> Brackets
    ensures { result ≡ brackets_of parens }
{
    if parens {
        Brackets::Round
    } else {
        Brackets::Square
    }
}

// The body of a text in such brackets.
fn body_in(alloc: Global, brackets: Brackets, text: &[u8]) -> Result<Elements, Gs1Fault>
    ensures { Gives gs1_refusal (λ body. body) result (text_body brackets text.now) }
{
    if text.is_empty() || text[0] != brackets.opening() {
        return Err(Gs1Fault::BadBracket(0));
    }
    let mut body = Elements::new(alloc);
    let mut owed = false;
    let mut place = 0;
    while place < text.len() {
        let section = section_at(brackets, text, place);
        match section_fault(brackets, place, section) {
            Some(fault) => return Err(fault),
            None => {}
        }
        push_string(&mut body, owed, section)?;
        owed = needs_separator(section);
        place += 1 + section.len();
    }
    Ok(body)
}

// The section behind the opening bracket at the place.
fn section_at(brackets: Brackets, text: &[u8], place: usize) -> &[u8]
    requires { place < length text.now }
    ensures section { result.now ≡ section_at brackets text.now place }
    ensures within { place + length result.now < length text.now }
{
    let rest = &text[place + 1..];
    &rest[..place_of(rest, brackets.opening())]
}

// The first place of the byte, or the end.
fn place_of(bytes: &[u8], mark: u8) -> usize
    ensures place { result ≡ position_or_len (λ d. d == mark) bytes.now }
    ensures within { result ≤ length bytes.now }
{
    match first_of(bytes, mark) {
        Some(place) => place,
        None => bytes.len(),
    }
}

fn first_of(bytes: &[u8], mark: u8) -> Option<usize>
    ensures place { result ≡ position (λ d. d == mark) bytes.now }
    ensures within { IfSome result (λ place. place < length bytes.now) }
{
    bytes.iter().position(|byte| *byte == mark)
}

// The separator where the string before needs one, and the string of the section.
#[tactic(auto, unfolding(crate::specs::ElementStrings::section_string))]
fn push_string(body: &mut Elements, owed: bool, section: &[u8]) -> Result<(), NoMemory>
    ensures { OnOk result (body.new ≡ body.old ++ separator owed ++ string_elements (section_string section.now)) }
{
    push_separator(body, owed)?;
    let size = count_digits(section);
    push_bytes(body, front(section, size))?;
    push_bytes(body, behind(section, size + 1))
}

fn push_separator(body: &mut Elements, owed: bool) -> Result<(), NoMemory>
    ensures { OnOk result (body.new ≡ body.old ++ separator owed) }
{
    if owed {
        body.push(Element::Fnc1)
    } else {
        Ok(())
    }
}

fn push_bytes(body: &mut Elements, bytes: &[u8]) -> Result<(), NoMemory>
    ensures { OnOk result (body.new ≡ body.old ++ map (λ byte. element.Byte byte) bytes.now) }
{
    for byte in bytes {
        body.push(Element::Byte(*byte))?;
    }
    Ok(())
}

// Whether the string of the section needs a separator before the next one.
#[tactic(auto, unfolding(crate::specs::ElementStrings::section_string))]
fn needs_separator(section: &[u8]) -> bool
    ensures { result ≡ needs_separator (section_string section.now) }
{
    !has_predefined_length(front(section, count_digits(section)))
}

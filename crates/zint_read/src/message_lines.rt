//! The four lines of a read report that tell the message.
ghost use Rattle.std.specs.Prelude.{◌≡◌, ◌++◌, ◌+◌, ◌<◌, [], OnOk};
ghost use Rattle.zint_read.specs.ReadReport.{append_line, append_text, body_text, body_line, digit_for, eci_line, eci_text, element_text, escaped_bytes, fnc1_line, identifier_text, message_lines, place_text, six_digits};

use bar_base::{Append, Element, Elements, Ident, Message, NoMemory};
use input_escapes::escape;
use std::alloc::Global;
use zint_answers::{put_number, put_text};

/// Puts the four lines of a message at the end of `report`.
pub(crate) fn put_message_lines(
    alloc: Global,
    report: &mut Vec<u8>,
    message: &Message,
) -> Result<(), NoMemory>
    ensures { OnOk result (report.new.items ≡ report.old.items ++ message_lines message.now) }
{
    put_append_line(alloc, report, &message.append)?;
    put_fnc1_line(report, message.gs1)?;
    put_eci_line(report, message.eci)?;
    put_data_line(alloc, report, &message.body)?;
    Ok(())
}

/// Puts the line of the place in a set at the end of `report`.
#[tactic(auto, unfolding(crate::specs::ReadReport::append_line))]
fn put_append_line(
    alloc: Global,
    report: &mut Vec<u8>,
    append: &Option<Append>,
) -> Result<(), NoMemory>
    ensures { OnOk result (report.new.items ≡ report.old.items ++ append_line append.now) }
{
    put_text(report, b"append=")?;
    put_append(alloc, report, append)?;
    put_text(report, b"\n")?;
    Ok(())
}

/// Puts the place in a set at the end of `report`, or a hyphen.
fn put_append(alloc: Global, report: &mut Vec<u8>, append: &Option<Append>) -> Result<(), NoMemory>
    ensures { OnOk result (report.new.items ≡ report.old.items ++ append_text append.now) }
{
    match append {
        None => put_text(report, b"-"),
        Some(append) => put_place(alloc, report, append),
    }
}

/// Puts a place in a set at the end of `report`.
fn put_place(alloc: Global, report: &mut Vec<u8>, append: &Append) -> Result<(), NoMemory>
    ensures { OnOk result (report.new.items ≡ report.old.items ++ place_text append.now) }
{
    put_number(report, u64::from(append.index))?;
    put_text(report, b",")?;
    put_number(report, u64::from(append.count))?;
    put_identifier(alloc, report, &append.id)?;
    Ok(())
}

/// Puts the identifier of a set, where it has one, behind a comma at the end of `report`.
#[tactic(auto, unfolding(crate::specs::ReadReport::identifier_text))]
fn put_identifier(alloc: Global, report: &mut Vec<u8>, id: &Ident) -> Result<(), NoMemory>
    ensures { OnOk result (report.new.items ≡ report.old.items ++ identifier_text id.now) }
{
    if id.is_empty() {
        return Ok(());
    }
    put_text(report, b",")?;
    put_escaped(alloc, report, id.as_slice())?;
    Ok(())
}

/// Puts bytes as a text of ASCII characters at the end of `report`.
fn put_escaped(alloc: Global, report: &mut Vec<u8>, bytes: &[u8]) -> Result<(), NoMemory>
    ensures { OnOk result (report.new.items ≡ report.old.items ++ escaped_bytes bytes.now) }
{
    let text = escape(alloc, bytes)?;
    put_text(report, &text)
}

/// Puts the line that says whether the data is GS1 element strings at the end of `report`.
#[tactic(auto, unfolding(crate::specs::ReadReport::fnc1_line))]
fn put_fnc1_line(report: &mut Vec<u8>, gs1: bool) -> Result<(), NoMemory>
    ensures { OnOk result (report.new.items ≡ report.old.items ++ fnc1_line gs1) }
{
    put_text(report, b"fnc1=")?;
    put_text(report, if gs1 { b"yes" } else { b"no" })?;
    put_text(report, b"\n")?;
    Ok(())
}

/// Puts the line of the ECI at the end of `report`.
#[tactic(auto, unfolding(crate::specs::ReadReport::eci_line))]
fn put_eci_line(report: &mut Vec<u8>, eci: Option<u32>) -> Result<(), NoMemory>
    ensures { OnOk result (report.new.items ≡ report.old.items ++ eci_line eci) }
{
    put_text(report, b"eci=")?;
    put_eci(report, eci)?;
    put_text(report, b"\n")?;
    Ok(())
}

/// Puts the number of an ECI at the end of `report`, or a hyphen.
fn put_eci(report: &mut Vec<u8>, eci: Option<u32>) -> Result<(), NoMemory>
    ensures { OnOk result (report.new.items ≡ report.old.items ++ eci_text eci) }
{
    match eci {
        None => put_text(report, b"-"),
        Some(number) => put_number(report, u64::from(number)),
    }
}

/// Puts the line of the body at the end of `report`.
#[tactic(auto, unfolding(crate::specs::ReadReport::body_line))]
pub(crate) fn put_data_line(
    alloc: Global,
    report: &mut Vec<u8>,
    body: &Elements,
) -> Result<(), NoMemory>
    ensures { OnOk result (report.new.items ≡ report.old.items ++ body_line body.now) }
{
    put_text(report, b"data=")?;
    put_body(alloc, report, body.as_slice())?;
    put_text(report, b"\n")?;
    Ok(())
}

/// Puts the elements of a body at the end of `report`. Bytes one behind the other are escaped at once.
#[tactic(auto, using(crate::proofs::BodyTexts::body_begins, crate::proofs::BodyTexts::body_next))]
fn put_body(alloc: Global, report: &mut Vec<u8>, body: &[Element]) -> Result<(), NoMemory>
    ensures { OnOk result (report.new.items ≡ report.old.items ++ body_text body.now) }
{
    let mut bytes = Vec::new(alloc);
    for element in body {
        put_element(alloc, report, &mut bytes, *element)?;
    }
    put_escaped(alloc, report, &bytes)
}

/// Puts an element behind the bytes that wait to be escaped: a byte waits with them, before any other element they are
/// put at the end of `report`.
#[tactic(auto, using(crate::proofs::BodyTexts::byte_waits), unfolding(crate::specs::ReadReport::element_text))]
fn put_element(
    alloc: Global,
    report: &mut Vec<u8>,
    bytes: &mut Vec<u8>,
    element: Element,
) -> Result<(), NoMemory>
    ensures { OnOk result (report.new.items ++ escaped_bytes bytes.new.items
        ≡ (report.old.items ++ escaped_bytes bytes.old.items) ++ element_text element) }
{
    match element {
        Element::Byte(byte) => bytes.push(byte)?,
        Element::Eci(number) => {
            put_waiting(alloc, report, bytes)?;
            put_eci_element(report, number)?;
        }
        Element::Fnc1 => {
            put_waiting(alloc, report, bytes)?;
            put_text(report, b"\\F")?;
        }
    }
    Ok(())
}

/// Puts the bytes that wait at the end of `report`; none wait then.
fn put_waiting(alloc: Global, report: &mut Vec<u8>, bytes: &mut Vec<u8>) -> Result<(), NoMemory>
    ensures put { OnOk result (report.new.items ≡ report.old.items ++ escaped_bytes bytes.old.items) }
    ensures none { OnOk result (bytes.new.items ≡ []) }
{
    put_escaped(alloc, report, bytes)?;
    bytes.clear();
    Ok(())
}

/// Puts an ECI of the body at the end of `report`.
#[tactic(auto, unfolding(crate::specs::ReadReport::element_text))]
fn put_eci_element(report: &mut Vec<u8>, number: u32) -> Result<(), NoMemory>
    ensures { OnOk result (report.new.items ≡ report.old.items ++ element_text (Element.Eci number)) }
{
    put_text(report, b"\\K")?;
    put_six_digits(report, number)?;
    Ok(())
}

/// Puts the last six digits of a number at the end of `report`.
#[tactic(auto, unfolding(crate::specs::ReadReport::six_digits))]
fn put_six_digits(report: &mut Vec<u8>, number: u32) -> Result<(), NoMemory>
    ensures { OnOk result (report.new.items ≡ report.old.items ++ six_digits number) }
{
    let digits = [
        digit_for(number, 100_000),
        digit_for(number, 10_000),
        digit_for(number, 1_000),
        digit_for(number, 100),
        digit_for(number, 10),
        digit_for(number, 1),
    ];
    put_text(report, &digits)
}

/// The digit of a number that counts for `weight`, as a character.
fn digit_for(number: u32, weight: u32) -> u8
    requires { 0 < weight }
    ensures { result ≡ digit_for number weight }
{
    48 + (number / weight % 10) as u8
}

ghost use Rattle.std.specs.Prelude.{◌≡◌, ◌<◌, ◌≤◌, ◌++◌, Some, OnOk, IfOk, IfSome, length, slice_get};
ghost use Rattle.bar_base.specs.Elements.{IsElement};
ghost use Rattle.aztec_modes.specs.Entry.{bytes_as_elements};
ghost use Rattle.aztec_modes.specs.Message.{IsMessage, IsAppendPlace, eci_elements, gs1_elements, header_bytes, header_elements, identifier_bytes, message_elements};

use bar_base::{Append, Element, Elements, Ident, Message, NoMemory};
use std::alloc::Global;

/// Puts the bytes of an identifier at the end.
#[tactic(auto, using(crate::proofs::Steps::push_steps), unfolding(crate::specs::Entry::bytes_as_elements))]
fn push_bytes(elements: &mut Elements, id: &Ident) -> Result<(), NoMemory>
    ensures { OnOk result (elements.new ≡ elements.old ++ bytes_as_elements id.now) }
{
    for byte in id.as_slice() {
        elements.push(Element::Byte(*byte))?;
    }
    Ok(())
}

/// Puts an identifier between two spaces at the end, or nothing where it is empty.
#[tactic(auto, unfolding(crate::specs::Message::identifier_bytes, crate::specs::Entry::bytes_as_elements))]
fn push_identifier(elements: &mut Elements, id: &Ident) -> Result<(), NoMemory>
    ensures { OnOk result (elements.new ≡ elements.old ++ bytes_as_elements (identifier_bytes id.now)) }
{
    if id.is_empty() {
        return Ok(());
    }
    elements.push(Element::Byte(b' '))?;
    push_bytes(elements, id)?;
    elements.push(Element::Byte(b' '))?;
    Ok(())
}

/// Puts the header of a symbol of a set at the end.
#[tactic(auto, unfolding(crate::specs::Message::header_bytes, crate::specs::Entry::bytes_as_elements))]
fn push_header(elements: &mut Elements, append: &Append) -> Result<(), NoMemory>
    requires { IsAppendPlace append.now }
    ensures { OnOk result (elements.new ≡ elements.old ++ bytes_as_elements (header_bytes append.now)) }
{
    push_identifier(elements, &append.id)?;
    elements.push(Element::Byte(64 + append.index))?;
    elements.push(Element::Byte(64 + append.count))?;
    Ok(())
}

/// Puts the header at the end where there is one.
#[tactic(auto, unfolding(crate::specs::Message::header_elements))]
fn push_append(elements: &mut Elements, append: &Option<Append>) -> Result<(), NoMemory>
    requires { IfSome append.now IsAppendPlace }
    ensures { OnOk result (elements.new ≡ elements.old ++ header_elements append.now) }
{
    match append {
        Some(append) => push_header(elements, append),
        None => Ok(()),
    }
}

/// Puts FNC1 at the end of GS1 data's header.
#[tactic(auto, unfolding(crate::specs::Message::gs1_elements))]
fn push_gs1(elements: &mut Elements, gs1: bool) -> Result<(), NoMemory>
    ensures { OnOk result (elements.new ≡ elements.old ++ gs1_elements gs1) }
{
    if gs1 {
        elements.push(Element::Fnc1)?;
        return Ok(());
    }
    Ok(())
}

/// Puts the ECI at the end where there is one.
#[tactic(auto, unfolding(crate::specs::Message::eci_elements))]
fn push_eci(elements: &mut Elements, eci: Option<u32>) -> Result<(), NoMemory>
    requires { IfSome eci (λ number. number ≤ 999999) }
    ensures { OnOk result (elements.new ≡ elements.old ++ eci_elements eci) }
{
    match eci {
        Some(number) => {
            elements.push(Element::Eci(number))?;
            Ok(())
        }
        None => Ok(()),
    }
}

/// Puts a body at the end.
#[tactic(auto, using(crate::proofs::Steps::push_steps))]
fn push_body(elements: &mut Elements, body: &Elements) -> Result<(), NoMemory>
    ensures { OnOk result (elements.new ≡ elements.old ++ body.now) }
{
    for element in body.as_slice() {
        elements.push(*element)?;
    }
    Ok(())
}

/// The elements of a message (ISO/IEC 24778, Structured append): the header of a symbol of a set as bytes, FNC1 in GS1 data, the ECI if
/// there is one, then the body. The place is 1 to the count, the count 2 to 26, and the ECI at most 999,999.
#[tactic(auto, unfolding(crate::specs::Message::message_elements))]
pub fn elements_of(alloc: Global, message: &Message) -> Result<Elements, NoMemory>
    requires { IsMessage message.now }
    ensures { IfOk result (λ elements. elements ≡ message_elements message.now) }
{
    let mut elements = Elements::new(alloc);
    push_append(&mut elements, &message.append)?;
    push_gs1(&mut elements, message.gs1)?;
    push_eci(&mut elements, message.eci)?;
    push_body(&mut elements, &message.body)?;
    Ok(elements)
}

/// The same of a message that is given up: where nothing stands before its body, its body.
#[tactic(auto, unfolding(crate::specs::Message::message_elements, crate::specs::Message::header_elements, crate::specs::Message::gs1_elements, crate::specs::Message::eci_elements))]
pub fn into_elements(alloc: Global, message: Message) -> Result<Elements, NoMemory>
    requires { IsMessage message }
    ensures { IfOk result (λ elements. elements ≡ message_elements message) }
{
    if message.append.is_some() || message.gs1 || message.eci.is_some() {
        return elements_of(alloc, &message);
    }
    Ok(message.body)
}

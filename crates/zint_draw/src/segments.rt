//! Segments behind the data of a message, each in a character set of its own (ISO/IEC 24778, ECI), and the whole message.
ghost use Rattle.std.specs.Prelude.{◌≡◌, ◌<◌, ◌≤◌, ◌++◌, IfOk, IfSome, OnOk, length, map, nat_le, true};
ghost use Rattle.aztec_modes.specs.Message.{IsAppendPlace};
ghost use Rattle.bar_base.specs.Steps.{only};
ghost use Rattle.zint_answers.specs.Steps.{MayAnswer};
ghost use Rattle.zint_settings.specs.CharacterSets.{is_character_set};
ghost use Rattle.zint_settings.specs.Settings.{append_in, drawing_in, segment_in};
ghost use Rattle.zint_draw.specs.Message.{CanBeDrawn, IsDataKind};
ghost use Rattle.zint_draw.specs.Segments.{bytes_in_segments, continued, fault_in, in_segment, message_of, segment_elements, segment_kind, segments_elements, within_bytes};

use crate::data::{data_of, not_empty};
use crate::message::{DataKind, data_kind, message_for};
use aztec_modes::elements_of;
use bar_base::{Append, Elements, Ident, MOST_BYTES, Message, NoMemory};
use std::alloc::Global;
use zint_answers::{Fault, Refusal, Unit};
use zint_settings::{DrawingOptions, DrawingSettings, Segment, SetPlace};

/// The content, which has at most 65,536 bytes together with the segments behind it.
pub fn within_bytes(settings: &DrawingSettings<'_>, raw: Vec<u8>) -> Result<Vec<u8>, Fault>
    ensures given { MayAnswer (λ whole. whole.items) result
        (only (within_bytes (drawing_in settings.now).segments raw.items)) }
    ensures few { IfOk result (λ _. bytes_in_segments (drawing_in settings.now).segments ≤ MOST_BYTES) }
{
    if raw.len() > MOST_BYTES {
        return Err(Fault::Refused(Refusal::TooLong(MOST_BYTES as u64, Unit::Bytes)));
    }
    if !are_within(&settings.segments, MOST_BYTES - raw.len()) {
        return Err(Fault::Refused(Refusal::TooLong(MOST_BYTES as u64, Unit::Bytes)));
    }
    Ok(raw)
}

/// Whether the texts of the segments have at most so many bytes together.
fn are_within(segments: &[Segment<'_>], most: usize) -> bool
    ensures { result ≡ nat_le (bytes_in_segments (map segment_in segments.now)) most }
{
    let mut room = most;
    for segment in segments {
        if segment.text.len() > room {
            return false;
        }
        room -= segment.text.len();
    }
    true
}

/// The message of data that is not empty, and of the segments behind it, each of which is numbered from 1. The refusals are those of the
/// data, and then of each segment in order: it is empty, has a backslash that begins no escape or a byte that begins no whole character of
/// UTF-8, or its set lacks a character.
#[tactic(auto, using(zint_answers::proofs::Steps::stepping), unfolding(crate::specs::Segments::message_of))]
pub fn message_of(
    alloc: Global,
    settings: &DrawingSettings<'_>,
    bytes: &[u8],
) -> Result<Message, Fault>
    requires some { 0 < length bytes.now }
    requires few { bytes_in_segments (drawing_in settings.now).segments ≤ MOST_BYTES }
    ensures given { MayAnswer (λ message. message) result (message_of (drawing_in settings.now) bytes.now) }
    ensures can_be_drawn { IfOk result CanBeDrawn }
{
    let plain = message_for(alloc, data_kind(settings), bytes)?;
    let more = segments_elements(alloc, settings.options, &settings.segments)?;
    let message = continued(plain, place_of(settings), &more)?;
    Ok(message)
}

/// The place in a structured append set, where there is one.
fn place_of(settings: &DrawingSettings<'_>) -> Option<Append>
    ensures place { result ≡ (drawing_in settings.now).append }
    ensures in_set { IfSome result IsAppendPlace }
{
    match settings.append {
        Some(place) => Some(append_of(&place)),
        None => None,
    }
}

/// The place in a structured append set, with its identifier as a list of bytes.
fn append_of(place: &SetPlace<'_>) -> Append
    ensures place { result ≡ append_in place.now }
    ensures in_set { IsAppendPlace result }
{
    Append {
        index: place.index,
        count: place.count,
        id: identifier_of(place.id),
    }
}

/// The bytes of an identifier.
fn identifier_of(text: &str) -> Ident
    requires { length text.now ≤ 32 }
    ensures { result ≡ text.now }
{
    let mut id = Ident::new();
    for byte in text.as_bytes() {
        id.push(*byte);
    }
    id
}

/// The message in its place in a structured append set, where it has one, with more elements behind its body.
fn continued(plain: Message, append: Option<Append>, more: &Elements) -> Result<Message, NoMemory>
    ensures { IfOk result (λ message. message ≡ continued plain append more.now) }
{
    let mut body = plain.body;
    push_elements(&mut body, more)?;
    Ok(Message {
        append,
        gs1: plain.gs1,
        eci: plain.eci,
        body,
    })
}

/// Puts elements at the end of others.
fn push_elements(elements: &mut Elements, more: &Elements) -> Result<(), NoMemory>
    ensures { OnOk result (elements.new ≡ elements.old ++ more.now) }
{
    for element in more.as_slice() {
        elements.push(*element)?;
    }
    Ok(())
}

/// The elements of the segments, joined in their order; they are numbered from 1.
fn segments_elements(
    alloc: Global,
    options: DrawingOptions,
    segments: &[Segment<'_>],
) -> Result<Elements, Fault>
    requires { bytes_in_segments (map segment_in segments.now) ≤ MOST_BYTES }
    ensures { MayAnswer (λ elements. elements) result (segments_elements options 1 (map segment_in segments.now)) }
{
    let mut elements = Elements::new(alloc);
    let mut number = 1;
    for segment in segments {
        let own = numbered_elements(alloc, options, number, segment)?;
        push_elements(&mut elements, &own)?;
        number += 1;
    }
    Ok(elements)
}

/// The elements of the segment with a number, which a refusal of its data tells.
#[tactic(auto, using(crate::proofs::SegmentSteps::refuses_in))]
fn numbered_elements(
    alloc: Global,
    options: DrawingOptions,
    number: u32,
    segment: &Segment<'_>,
) -> Result<Elements, Fault>
    ensures { MayAnswer (λ elements. elements) result
        (in_segment number (segment_elements options (segment_in segment.now))) }
{
    match segment_elements(alloc, options, segment) {
        Ok(elements) => Ok(elements),
        Err(fault) => Err(in_segment(number, fault)),
    }
}

/// A fault of the data of a segment, whose number a refusal tells.
fn in_segment(number: u32, fault: Fault) -> Fault
    ensures { result ≡ fault_in number fault }
{
    match fault {
        Fault::Refused(Refusal::BadData(kind, place)) => {
            Fault::Refused(Refusal::BadSegment(kind, place, number))
        }
        other => other,
    }
}

/// The elements of a segment: its ECI, and its bytes in the character set of that.
#[tactic(auto, using(zint_answers::proofs::Steps::stepping), unfolding(crate::specs::Segments::segment_elements))]
fn segment_elements(
    alloc: Global,
    options: DrawingOptions,
    segment: &Segment<'_>,
) -> Result<Elements, Fault>
    ensures { MayAnswer (λ elements. elements) result (segment_elements options (segment_in segment.now)) }
{
    let text = copied(alloc, segment.text)?;
    let data = data_of(alloc, options.escapes, text)?;
    let bytes = not_empty(&data)?;
    let message = message_for(alloc, segment_kind(options.binary, segment.eci), bytes)?;
    let elements = elements_of(alloc, &message)?;
    Ok(elements)
}

/// What the data of a segment is: bytes, or text in the set of its ECI, which is written.
fn segment_kind(binary: bool, eci: u32) -> DataKind
    requires { is_character_set eci ≡ true }
    ensures kind { result ≡ segment_kind binary eci }
    ensures known { IsDataKind result }
{
    if binary {
        DataKind::Bytes { eci: Some(eci) }
    } else {
        DataKind::Text { eci: Some(eci) }
    }
}

/// The bytes of a text.
fn copied(alloc: Global, text: &str) -> Result<Vec<u8>, NoMemory>
    ensures { IfOk result (λ bytes. bytes.items ≡ text.now) }
{
    Ok(Vec::from_slice(alloc, text.as_bytes())?)
}

//! From data to the message of a symbol: GS1 element strings, bytes, or text in a character set.
ghost use Rattle.std.specs.Prelude.{◌≡◌, ◌<◌, All, IfOk, None, Ok, false, length, true};
ghost use Rattle.aztec_modes.specs.Entry.{bytes_as_elements};
ghost use Rattle.aztec_modes.specs.Message.{message_elements};
ghost use Rattle.code128_best.specs.Spelling.{IsCode128Element};
ghost use Rattle.gs1_check.specs.ElementStrings.{brackets_of, text_body};
ghost use Rattle.bar_base.specs.Steps.{only};
ghost use Rattle.zint_answers.specs.Steps.{MayAnswer, answered};
ghost use Rattle.zint_settings.specs.CharacterSets.{is_character_set};
ghost use Rattle.zint_draw.specs.Message.{CanBeDrawn, IsDataKind, IsKnownEci, WritesNoEci, data_kind, encoded_in, gs1_fault, gs1_message, latin1_message, message_for, message_with, set_for, text_message, whole_text, written_eci};

use bar_base::{Element, Elements, Message, NoMemory};
use eci_sets::{SetFault, choose, encode};
use gs1_check::{Gs1Fault, parse};
use std::alloc::Global;
use zint_answers::{Fault, Kind, Refusal};
use zint_settings::{DrawingSettings, Gs1Brackets};

/// What the data of a message is.
#[derive(Clone, Copy, Debug)]
pub enum DataKind {
    /// GS1 element strings, with their identifiers in round brackets or else in square ones.
    Gs1 { parens: bool },
    /// Bytes; an ECI is written where one is named.
    Bytes { eci: Option<u32> },
    /// Text (UTF-8), in the character set of the ECI that is named, or in the first one that has every character.
    Text { eci: Option<u32> },
    /// Text (UTF-8) in ISO/IEC 8859-1, whose ECI is not written.
    Latin1,
}

/// What the data is, by the settings.
#[tactic(auto, using(crate::proofs::Messages::known_sets))]
pub fn data_kind(settings: &DrawingSettings<'_>) -> DataKind
    ensures kind { result ≡ data_kind settings.now.options }
    ensures known { IsDataKind result }
{
    let options = settings.options;
    match options.gs1 {
        Some(Gs1Brackets::Round) => DataKind::Gs1 { parens: true },
        Some(Gs1Brackets::Square) => DataKind::Gs1 { parens: false },
        None => {
            if options.binary {
                DataKind::Bytes { eci: options.eci }
            } else {
                DataKind::Text { eci: options.eci }
            }
        }
    }
}

/// The character set whose ECI is not written where it is chosen: ISO/IEC 8859-1, in which symbols without an ECI are read.
const UNWRITTEN_ECI: u32 = 3;

/// The message of data that is not empty, outside every structured append set. For GS1 data the first fault of its element strings is the
/// refusal; for text it is the first byte that begins no whole character of UTF-8, and then the first character that the set lacks.
#[tactic(auto, unfolding(crate::specs::Message::message_for))]
pub fn message_for(alloc: Global, kind: DataKind, bytes: &[u8]) -> Result<Message, Fault>
    requires kind { IsDataKind kind }
    requires some { 0 < length bytes.now }
    ensures given { MayAnswer (λ message. message) result (message_for kind bytes.now) }
    ensures can_be_drawn { IfOk result CanBeDrawn }
    ensures plain { IfOk result (λ message. WritesNoEci kind → All IsCode128Element (message_elements message)) }
{
    match kind {
        DataKind::Gs1 { parens } => gs1_message(alloc, parens, bytes),
        DataKind::Bytes { eci } => bytes_message(alloc, eci, bytes),
        DataKind::Text { eci } => text_message(alloc, eci, bytes),
        DataKind::Latin1 => latin1_message(alloc, bytes),
    }
}

/// A message outside every structured append set.
fn message_with(gs1: bool, eci: Option<u32>, body: Elements) -> Message
    ensures { result ≡ message_with gs1 eci body }
{
    Message {
        append: None,
        gs1,
        eci,
        body,
    }
}

/// The message of GS1 element strings.
#[tactic(auto, using(zint_answers::proofs::Steps::stepping, crate::proofs::Messages::gs1_drawable, crate::proofs::Messages::plain), unfolding(crate::specs::Message::gs1_message))]
fn gs1_message(alloc: Global, parens: bool, bytes: &[u8]) -> Result<Message, Fault>
    ensures given { MayAnswer (λ message. message) result (gs1_message parens bytes.now) }
    ensures can_be_drawn { IfOk result CanBeDrawn }
    ensures plain { IfOk result (λ message. All IsCode128Element (message_elements message)) }
{
    let body = gs1_body(alloc, parens, bytes)?;
    Ok(message_with(true, None, body))
}

/// The body of GS1 element strings.
#[tactic(auto, using(crate::proofs::Messages::gs1_answered, crate::proofs::Messages::plain))]
fn gs1_body(alloc: Global, parens: bool, bytes: &[u8]) -> Result<Elements, Fault>
    ensures given { MayAnswer (λ body. body) result (answered gs1_fault (text_body (brackets_of parens) bytes.now)) }
    ensures plain { IfOk result (λ body. All IsCode128Element body) }
{
    match parse(alloc, bytes, parens) {
        Ok(body) => Ok(body),
        Err(fault) => Err(gs1_fault(fault)),
    }
}

/// What a fault of element strings is here.
fn gs1_fault(fault: Gs1Fault) -> Fault
    ensures { result ≡ gs1_fault fault }
{
    match fault {
        Gs1Fault::NoMemory => Fault::NoMemory,
        Gs1Fault::BadBracket(place) => bad_data(Kind::Bracket, place),
        Gs1Fault::UnknownIdentifier(place) => bad_data(Kind::Identifier, place),
        Gs1Fault::BadLength(place) => bad_data(Kind::Length, place),
        Gs1Fault::BadCharacter(place) => bad_data(Kind::Character, place),
        Gs1Fault::BadDate(place) => bad_data(Kind::Date, place),
        Gs1Fault::BadCheck(place, given, wanted) => Fault::Refused(Refusal::BadCheck {
            given,
            place: place as u64,
            wanted,
        }),
    }
}

/// Data is bad at a place.
fn bad_data(kind: Kind, place: usize) -> Fault
    ensures { result ≡ Fault.Refused (Refusal.BadData kind place) }
{
    Fault::Refused(Refusal::BadData(kind, place as u64))
}

/// The message of bytes.
#[tactic(auto, using(crate::proofs::Messages::plain))]
fn bytes_message(alloc: Global, eci: Option<u32>, bytes: &[u8]) -> Result<Message, Fault>
    requires known { IsKnownEci eci }
    requires some { 0 < length bytes.now }
    ensures given { MayAnswer (λ message. message) result
        (only (Ok (message_with false eci (bytes_as_elements bytes.now)))) }
    ensures can_be_drawn { IfOk result CanBeDrawn }
    ensures plain { IfOk result (λ message. eci ≡ None → All IsCode128Element (message_elements message)) }
{
    let body = elements_of_bytes(alloc, bytes)?;
    Ok(message_with(false, eci, body))
}

/// The elements of bytes.
#[tactic(auto, using(crate::proofs::Messages::elements_next), unfolding(aztec_modes::specs::Entry::bytes_as_elements))]
fn elements_of_bytes(alloc: Global, bytes: &[u8]) -> Result<Elements, NoMemory>
    ensures { IfOk result (λ elements. elements ≡ bytes_as_elements bytes.now) }
{
    let mut elements = Elements::new(alloc);
    for byte in bytes {
        elements.push(Element::Byte(*byte))?;
    }
    Ok(elements)
}

/// The message of text, in the set of the ECI that is named, or in the first one that has every character.
#[tactic(auto, using(zint_answers::proofs::Steps::stepping), unfolding(crate::specs::Message::text_message))]
fn text_message(alloc: Global, eci: Option<u32>, bytes: &[u8]) -> Result<Message, Fault>
    requires known { IsKnownEci eci }
    requires some { 0 < length bytes.now }
    ensures given { MayAnswer (λ message. message) result (text_message eci bytes.now) }
    ensures can_be_drawn { IfOk result CanBeDrawn }
{
    let text = whole_text(bytes)?;
    let (set, written) = sets_for(eci, text);
    let encoded = encoded_in(alloc, text, set)?;
    let message = bytes_message(alloc, written, &encoded)?;
    Ok(message)
}

/// The message of text in ISO/IEC 8859-1, whose ECI is not written.
#[tactic(auto, using(zint_answers::proofs::Steps::stepping), unfolding(crate::specs::Message::latin1_message, zint_settings::specs::CharacterSets::is_character_set))]
fn latin1_message(alloc: Global, bytes: &[u8]) -> Result<Message, Fault>
    requires some { 0 < length bytes.now }
    ensures given { MayAnswer (λ message. message) result (latin1_message bytes.now) }
    ensures can_be_drawn { IfOk result CanBeDrawn }
    ensures plain { IfOk result (λ message. All IsCode128Element (message_elements message)) }
{
    let text = whole_text(bytes)?;
    let encoded = encoded_in(alloc, text, UNWRITTEN_ECI)?;
    let message = bytes_message(alloc, None, &encoded)?;
    Ok(message)
}

/// The text of bytes that are whole characters of UTF-8.
#[tactic(auto, using(crate::proofs::Messages::whole_characters), unfolding(crate::specs::Message::whole_text))]
fn whole_text(bytes: &[u8]) -> Result<&str, Fault>
    ensures given { MayAnswer (λ text. text.now) result (only (whole_text bytes.now)) }
    ensures same { IfOk result (λ text. text.now ≡ bytes.now) }
{
    match str::from_utf8(bytes) {
        Ok(text) => Ok(text),
        Err(error) => Err(bad_data(Kind::Text, error.valid_up_to())),
    }
}

/// The number of the set in which a text is encoded, and the ECI that is written.
#[tactic(auto, using(crate::proofs::Messages::known_chosen))]
fn sets_for(eci: Option<u32>, text: &str) -> (u32, Option<u32>)
    requires { IsKnownEci eci }
    ensures set { result.0 ≡ set_for eci text.now }
    ensures written { result.1 ≡ written_eci eci text.now }
    ensures known { is_character_set result.0 ≡ true }
    ensures written_known { IsKnownEci result.1 }
{
    match eci {
        Some(number) => (number, eci),
        None => {
            let chosen = choose(text);
            (
                chosen,
                if chosen == UNWRITTEN_ECI {
                    None
                } else {
                    Some(chosen)
                },
            )
        }
    }
}

/// The bytes of a text in the set of a number, which names one.
#[tactic(auto, using(crate::proofs::Messages::some_encoded))]
fn encoded_in(alloc: Global, text: &str, eci: u32) -> Result<Vec<u8>, Fault>
    requires known { is_character_set eci ≡ true }
    requires some { 0 < length text.now }
    ensures given { MayAnswer (λ bytes. bytes.items) result (encoded_in eci text.now) }
    ensures some { IfOk result (λ bytes. 0 < length bytes.items) }
{
    match encode(alloc, text, eci) {
        Ok(bytes) => Ok(bytes),
        Err(SetFault::NoMemory) => Err(Fault::NoMemory),
        Err(SetFault::NoCharacter(place)) => Err(bad_data(Kind::Character, place)),
        Err(SetFault::UnknownEci) => unreachable!(),
        Err(SetFault::BadBytes(_)) => unreachable!(),
    }
}

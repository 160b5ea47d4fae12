ghost use Rattle.std.specs.Prelude.{◌≡◌, ◌<◌, ◌≤◌, ◌+◌, ◌*◌, ◌++◌, ◌^◌, IfOk, IfErr, IfSome, OnOk, List, Some, drop, length, slice_get, is_some, true, false};
ghost use Rattle.aztec_modes.specs.declared.mode.Mode.TheVariants.{Upper};
ghost use Rattle.aztec_modes.specs.Ahead.{bytes_in, code_ahead, data_elements, spelled_ahead};
ghost use Rattle.aztec_modes.specs.Entry.{bytes_as_elements};
ghost use Rattle.aztec_modes.specs.Reading.{IsNoHeader, IsProper, IsReading, IsRefusal, IsStop, Reads, all_ones, fills};
ghost use Rattle.aztec_modes.specs.Message.{message_elements};
ghost use Rattle.aztec_modes.specs.Spelling.{IsMarked};
ghost use Rattle.bar_base.specs.declared.message.Message.{Message as MessageValue};

use crate::ahead::{bit_at, code_at_bits, number_from};
use crate::code::Code;
use crate::mode::Mode;
use crate::parts::{code_length, code_next, run_head};
use crate::splitting::{header_of, header_size, message_from};
use crate::table::{Symbol, symbol_at};
use bar_base::{Bits, Element, Elements, Message, NoMemory};
use std::alloc::Global;
use thiserror::Error;

/// Why bits are not read.
#[derive(Debug, Drop, Error)]
pub enum ReadFault {
    /// No memory was found.
    #[error("NoMemory")]
    NoMemory,
    /// The code at this place, counted from 0 in bits, can't stand, or no header follows the mark of a set.
    #[error("BadSpelling({0})")]
    BadSpelling(usize),
}

impl From<NoMemory> for ReadFault {
    ghost use Rattle.std.specs.Prelude.{◌≡◌};
    ghost use Rattle.aztec_modes.specs.declared.reading.ReadFault.TheVariants.{NoMemory as Wanting};

    ghost from_gives = { λ _ fault. fault ≡ Wanting };

    fn from(_: NoMemory) -> ReadFault {
        ReadFault::NoMemory
    }
}

/// Whether all bits from a place on are ones.
fn all_ones_from(bits: &[bool], at: usize) -> bool
    requires { at ≤ length bits.now }
    ensures { result ≡ all_ones (drop at bits.now) }
{
    for place in at..bits.len() {
        if !bit_at(bits, place) {
            return false;
        }
    }
    true
}

/// Whether what is left from a place on fills the last codeword.
#[tactic(auto, unfolding(crate::specs::Reading::fills))]
fn fills_from(bits: &[bool], at: usize, width: u32) -> bool
    requires { at ≤ length bits.now }
    ensures { result ≡ fills width (drop at bits.now) }
{
    if width as usize <= bits.len() - at {
        return false;
    }
    all_ones_from(bits, at)
}

/// Puts what a data code spells at the end.
#[tactic(auto, unfolding(crate::specs::Ahead::data_elements))]
fn push_data(elements: &mut Elements, symbol: Symbol) -> Result<(), NoMemory>
    ensures { OnOk result (elements.new ≡ elements.old ++ data_elements symbol) }
{
    match symbol {
        Symbol::One(byte) => {
            elements.push(Element::Byte(byte))?;
            Ok(())
        }
        Symbol::Two(first, second) => {
            elements.push(Element::Byte(first))?;
            elements.push(Element::Byte(second))?;
            Ok(())
        }
        Symbol::Absent | Symbol::LatchTo(_) | Symbol::ShiftTo(_) | Symbol::Binary | Symbol::Flag =>
            Ok(()),
    }
}

/// Puts bytes at the end, 8 bits each.
#[tactic(auto, unfolding(crate::specs::Ahead::bytes_in, crate::specs::Entry::bytes_as_elements))]
fn push_bytes_from(
    elements: &mut Elements,
    bits: &[bool],
    at: usize,
    count: u32,
) -> Result<(), NoMemory>
    requires { at + 8 * count ≤ length bits.now }
    ensures { OnOk result (elements.new ≡ elements.old ++ bytes_as_elements (bytes_in count (drop at bits.now))) }
{
    if count == 0 {
        return Ok(());
    }
    elements.push(Element::Byte(number_from(bits, at, 8) as u8))?;
    push_bytes_from(elements, bits, at + 8, count - 1)?;
    Ok(())
}

/// Puts what the code spells that stands at a place at the end.
#[tactic(auto, using(crate::proofs::ReadingSteps::ahead_eci, crate::proofs::ReadingSteps::ahead_run, crate::proofs::NumbersAhead::drop_on), unfolding(crate::specs::Ahead::spelled_ahead))]
fn push_spelled(
    elements: &mut Elements,
    bits: &[bool],
    at: usize,
    mode: Mode,
    code: Code,
) -> Result<(), NoMemory>
    requires stands { code_ahead mode (drop at bits.now) ≡ Some code }
    requires within { at ≤ length bits.now }
    ensures { OnOk result (elements.new ≡ elements.old ++ spelled_ahead mode code (drop at bits.now)) }
{
    match code {
        Code::Latch(_) => Ok(()),
        Code::Plain(number) => push_data(elements, symbol_at(mode, number)),
        Code::Shift(to, number) => push_data(elements, symbol_at(to, number)),
        Code::Fnc1 => {
            elements.push(Element::Fnc1)?;
            Ok(())
        }
        Code::Eci(number, _) => {
            elements.push(Element::Eci(number))?;
            Ok(())
        }
        Code::Run(count, long) => {
            push_bytes_from(elements, bits, at + run_head(long) as usize, count)?;
            Ok(())
        }
    }
}

/// The elements that the codes of bits spell, up to the ones that fill the last codeword.
fn read_elements(alloc: Global, bits: &[bool], width: u32) -> Result<Elements, ReadFault>
    ensures read { IfOk result (λ elements. Reads width Upper bits.now elements) }
    ensures refused { IfErr result (IsStop width bits.now) }
{
    let mut elements = Elements::new(alloc);
    let mut mode = Mode::Upper;
    let mut at = 0;
    while !fills_from(bits, at, width) {
        let Some(code) = code_at_bits(bits, at, mode) else {
            return Err(ReadFault::BadSpelling(at));
        };
        push_spelled(&mut elements, bits, at, mode, code)?;
        at += code_length(mode, code) as usize;
        mode = code_next(mode, code);
    }
    Ok(elements)
}

/// Whether bits begin with M/L U/L, the mark of a structured append set.
fn is_marked(bits: &[bool]) -> bool
    ensures marked { result ≡ true → IsMarked bits.now }
    ensures unmarked { result ≡ false → IsMarked bits.now → ⊥ }
{
    if bits.len() < 10 {
        return false;
    }
    number_from(bits, 0, 10) == 0b1110111101
}

/// The message of elements; in a set they begin with a header.
fn split(alloc: Global, elements: &Elements, marked: bool) -> Result<Message, ReadFault>
    ensures split { IfOk result (λ message. (message_elements message ≡ elements.now) ×
        (is_some message.append ≡ marked) × IsProper message) }
    ensures refused { IfErr result (λ fault. IsNoHeader marked elements.now fault) }
{
    if !marked {
        return Ok(message_from(alloc, None, elements, 0)?);
    }
    match header_of(elements) {
        None => Err(ReadFault::BadSpelling(10)),
        Some(append) => {
            let at = header_size(&append);
            Ok(message_from(alloc, Some(append), elements, at)?)
        }
    }
}

/// The message that bits read as (ISO/IEC 24778, Character encodation, Structured append, FNC1 and ECI): the codes from Upper mode on, up to
/// the first code boundary from which on only ones are left, fewer than `width`, the bits of a codeword. BadSpelling comes exactly where
/// they have no reading, unless memory is wanting, with the place of the first code that can't stand, or 10 where all codes stand and only
/// the header of a set fails.
pub fn read(alloc: Global, bits: &Bits, width: u32) -> Result<Message, ReadFault>
    ensures reading { IfOk result (λ message. IsReading width bits.now message) }
    ensures only { IfOk result (λ message. (other : MessageValue) → IsReading width bits.now other → other ≡ message) }
    ensures refused { IfErr result (IsRefusal width bits.now) }
    ensures none { IfErr result (λ fault. (other : MessageValue) → IsReading width bits.now other →
        fault ≡ ReadFault.NoMemory) }
{
    let items = bits.as_slice();
    match read_elements(alloc, items, width) {
        Err(fault) => Err(fault),
        Ok(elements) => split(alloc, &elements, is_marked(items)),
    }
}

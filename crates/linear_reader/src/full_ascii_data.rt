//! The bytes that values draw in full ASCII.
ghost use Rattle.std.specs.Prelude.{◌≡◌, ◌<◌, ◌≤◌, IfSome, None, length};
ghost use Rattle.bar_base.specs.Results.{Gives};
ghost use Rattle.linear_reader.specs.Data.{is_drawn_alone, is_drawn_by_pair, drawn_values, byte_alone, byte_of_pair, bytes_from};
ghost use Rattle.linear_reader.specs.Scan.{refusal_of};

use crate::scan::ScanFault;
use crate::symbology::RowSymbology;
use bar_base::{Element, Elements, Short};
use linear_codes::{values39_full, values93};
use std::alloc::Global;

/// The values by which a byte is drawn.
#[tactic(auto, unfolding(crate::specs::Data::drawn_values))]
fn drawn_values(symbology: RowSymbology, byte: u8) -> Short<2>
    ensures { result ≡ drawn_values symbology byte }
{
    match symbology {
        RowSymbology::Code39 => values39_full(byte),
        RowSymbology::Code39Full => values39_full(byte),
        RowSymbology::Code93 => values93(byte),
        RowSymbology::Code128 => Short::new(),
        RowSymbology::Itf14 => Short::new(),
    }
}

/// Whether a byte is drawn by this value alone.
#[tactic(auto, unfolding(crate::specs::Data::is_drawn_alone))]
fn is_drawn_alone(drawn: &[u8], value: u8) -> bool
    ensures { result ≡ is_drawn_alone drawn.now value }
{
    if drawn.len() == 1 {
        drawn[0] == value
    } else {
        false
    }
}

/// Whether a byte is drawn by this sign and this value behind it.
#[tactic(auto, unfolding(crate::specs::Data::is_drawn_by_pair))]
fn is_drawn_by_pair(drawn: &[u8], sign: u8, value: u8) -> bool
    ensures { result ≡ is_drawn_by_pair drawn.now sign value }
{
    if drawn.len() == 2 {
        drawn[0] == sign && drawn[1] == value
    } else {
        false
    }
}

/// The byte that a value alone draws.
#[tactic(auto, unfolding(crate::specs::Data::byte_alone))]
fn byte_alone(symbology: RowSymbology, value: u8) -> Option<u8>
    ensures { result ≡ byte_alone symbology value }
{
    for byte in 0..128 {
        if is_drawn_alone(drawn_values(symbology, byte).as_slice(), value) {
            return Some(byte);
        }
    }
    None
}

/// The byte that a sign and a value draw.
#[tactic(auto, unfolding(crate::specs::Data::byte_of_pair))]
fn byte_of_pair(symbology: RowSymbology, sign: u8, value: u8) -> Option<u8>
    ensures { result ≡ byte_of_pair symbology sign value }
{
    for byte in 0..128 {
        if is_drawn_by_pair(drawn_values(symbology, byte).as_slice(), sign, value) {
            return Some(byte);
        }
    }
    None
}

/// The bytes that values draw.
pub(crate) fn bytes_of(
    alloc: Global,
    symbology: RowSymbology,
    values: &[u8],
) -> Result<Elements, ScanFault>
    ensures { Gives refusal_of (λ elements. elements) result (bytes_from symbology 0 None values.now) }
{
    let mut elements = Elements::new(alloc);
    let mut sign = None;
    for (place, value) in values.iter().enumerate() {
        match sign {
            None => match byte_alone(symbology, *value) {
                None => sign = Some(*value),
                Some(byte) => elements.push(Element::Byte(byte))?,
            },
            Some(first) => match byte_of_pair(symbology, first, *value) {
                None => return Err(ScanFault::BadSpelling(place)),
                Some(byte) => {
                    elements.push(Element::Byte(byte))?;
                    sign = None;
                }
            },
        }
    }
    match sign {
        None => Ok(elements),
        Some(_) => Err(ScanFault::BadSpelling(values.len())),
    }
}

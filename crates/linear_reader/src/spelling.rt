//! What the values of a row spell.
ghost use Rattle.std.specs.Prelude.{◌≡◌, ◌<◌, ◌≤◌, All, IfOk, map, length};
ghost use Rattle.bar_base.specs.Results.{Gives};
ghost use Rattle.linear_reader.specs.Data.{character_element, digit_element, row_elements};
ghost use Rattle.linear_reader.specs.Row.{value_bound};
ghost use Rattle.linear_reader.specs.Scan.{refusal_of};

use crate::checking::data_values;
use crate::code128_data::spelled128;
use crate::full_ascii_data::bytes_of;
use crate::scan::ScanFault;
use crate::symbology::RowSymbology;
use bar_base::{Element, Elements, NoMemory};
use linear_codes::CHARACTERS;
use std::alloc::Global;

/// The character of a value of Code 39.
#[tactic(auto, unfolding(linear_codes::specs::Characters::characters))]
fn character(value: u8) -> Element
    requires { value < 43 }
    ensures { result ≡ character_element value }
{
    Element::Byte(CHARACTERS[value as usize])
}

/// The characters of values of Code 39.
fn characters_of(alloc: Global, values: &[u8]) -> Result<Elements, NoMemory>
    requires { All (λ value. value < 43) values.now }
    ensures { IfOk result (λ elements. elements ≡ map character_element values.now) }
{
    let mut elements = Elements::new(alloc);
    for value in values {
        elements.push(character(*value))?;
    }
    Ok(elements)
}

/// The characters of digits.
fn digits_of(alloc: Global, digits: &[u8]) -> Result<Elements, NoMemory>
    requires { All (λ digit. digit < 10) digits.now }
    ensures { IfOk result (λ elements. elements ≡ map digit_element digits.now) }
{
    let mut elements = Elements::new(alloc);
    for digit in digits {
        elements.push(Element::Byte(b'0' + *digit))?;
    }
    Ok(elements)
}

/// The elements of the values of a row.
#[tactic(auto, unfolding(crate::specs::Data::row_elements, crate::specs::Row::value_bound))]
pub(crate) fn row_elements(
    alloc: Global,
    symbology: RowSymbology,
    values: &[u8],
) -> Result<Elements, ScanFault>
    requires small { All (λ value. value < value_bound symbology) values.now }
    requires few { length values.now ≤ 16384 }
    ensures { Gives refusal_of (λ elements. elements) result (row_elements symbology values.now) }
{
    match symbology {
        RowSymbology::Code39 => Ok(characters_of(alloc, values)?),
        RowSymbology::Code39Full => bytes_of(alloc, symbology, values),
        RowSymbology::Code93 => bytes_of(alloc, symbology, data_values(symbology, values)),
        RowSymbology::Code128 => spelled128(alloc, data_values(symbology, values)),
        RowSymbology::Itf14 => Ok(digits_of(alloc, values)?),
    }
}

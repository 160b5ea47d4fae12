//! Pieces of a report.
ghost use Rattle.std.specs.Prelude.{◌≡◌, ◌++◌, OnOk, decimal, map};
ghost use Rattle.bar_base.specs.GridText.{module_text};
ghost use Rattle.zint_answers.specs.Report.{numbers_text, size_text, spaced_text};

use aztec_layout::Size;
use bar_base::{Bits, NoMemory};
use itoa::Buffer;
use vector_out::digit;

/// Puts `piece` at the end of `text`.
pub fn put_text(text: &mut Vec<u8>, piece: &[u8]) -> Result<(), NoMemory>
    ensures { OnOk result (text.new.items ≡ text.old.items ++ piece.now) }
{
    match text.extend_from_slice(piece) {
        Ok(()) => Ok(()),
        Err(_) => Err(NoMemory),
    }
}

/// Puts the decimal digits of `number` at the end of `text`.
pub fn put_number(text: &mut Vec<u8>, number: u64) -> Result<(), NoMemory>
    ensures { OnOk result (text.new.items ≡ text.old.items ++ decimal number) }
{
    let mut buffer = Buffer::new();
    put_text(text, buffer.format(number).as_bytes())
}

/// Puts the name of a size at the end of `text`.
pub fn put_size(text: &mut Vec<u8>, size: Size) -> Result<(), NoMemory>
    ensures { OnOk result (text.new.items ≡ text.old.items ++ size_text size) }
{
    put_text(text, if size.full { b"full " } else { b"compact " })?;
    put_number(text, u64::from(size.layers))
}

/// Puts the bits at the end of `text`, `1` and `0`.
pub fn put_bits(text: &mut Vec<u8>, bits: &Bits) -> Result<(), NoMemory>
    ensures { OnOk result (text.new.items ≡ text.old.items ++ map module_text bits.now) }
{
    for bit in bits.as_slice() {
        put_text(text, &[digit(*bit)])?;
    }
    Ok(())
}

/// Puts a space and the decimal digits of each number at the end of `text`.
fn put_spaced(text: &mut Vec<u8>, numbers: &[u8]) -> Result<(), NoMemory>
    ensures { OnOk result (text.new.items ≡ text.old.items ++ spaced_text numbers.now) }
{
    for number in numbers {
        put_text(text, b" ")?;
        put_number(text, u64::from(*number))?;
    }
    Ok(())
}

/// Puts the decimal digits of each number at the end of `text`, with one space between.
pub fn put_numbers(text: &mut Vec<u8>, numbers: &[u8]) -> Result<(), NoMemory>
    ensures { OnOk result (text.new.items ≡ text.old.items ++ numbers_text numbers.now) }
{
    match numbers.split_first() {
        Some((first, rest)) => {
            put_number(text, u64::from(*first))?;
            put_spaced(text, rest)?;
            Ok(())
        }
        None => Ok(()),
    }
}

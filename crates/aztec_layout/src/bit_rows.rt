ghost use Rattle.std.specs.Prelude.{◌≡◌, ◌++◌, ◌*◌, ◌<◌, ◌≤◌, IfOk, OnOk, false, length, replicate};
ghost use Rattle.aztec_layout.specs.ModeMessage.{word_bits};
ghost use Rattle.aztec_layout.specs.Sizes.{IsSize, codewords_of, layer_bits};
ghost use Rattle.aztec_layout.specs.SymbolGrid.{data_bits as data_bits_of};

use crate::sizes::{Size, lead, width};
use bar_base::{Bits, NoMemory, push_bits};
use std::alloc::Global;

/// The bits of all data layers of a symbol with the codewords `words`.
pub(crate) fn data_bits(alloc: Global, size: Size, words: &[u16]) -> Result<Bits, NoMemory>
    requires sized { IsSize size }
    requires counted { length words.now ≡ codewords_of size }
    ensures bits { IfOk result (λ row. row ≡ data_bits_of size words.now) }
    ensures all { IfOk result (λ row. length row ≡ layer_bits size) }
{
    let mut row = Bits::new(alloc);
    push_zeros(&mut row, lead(size))?;
    push_words(&mut row, width(size), words)?;
    Ok(row)
}

/// Puts zeros at the end.
fn push_zeros(row: &mut Bits, count: u32) -> Result<(), NoMemory>
    ensures { OnOk result (row.new ≡ row.old ++ replicate count false) }
{
    for _place in 0..count {
        row.push(false)?;
    }
    Ok(())
}

/// Puts the bits of codewords at the end.
fn push_words(row: &mut Bits, width: u32, words: &[u16]) -> Result<(), NoMemory>
    requires { width ≤ 32 }
    ensures { OnOk result (row.new ≡ row.old ++ word_bits width words.now) }
{
    for word in words {
        push_bits(row, width, u32::from(*word))?;
    }
    Ok(())
}

/// The bits of the 4-bit words of a mode message.
pub(crate) fn mode_bits(alloc: Global, words: &[u8]) -> Result<Bits, NoMemory>
    ensures bits { IfOk result (λ row. row ≡ word_bits 4 words.now) }
    ensures all { IfOk result (λ row. length row ≡ 4 * length words.now) }
{
    let mut row = Bits::new(alloc);
    for word in words {
        push_bits(&mut row, 4, u32::from(*word))?;
    }
    Ok(row)
}

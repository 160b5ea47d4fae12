ghost use Rattle.std.specs.Prelude.{◌≡◌, ◌++◌, ◌∷◌, [], ◌^◌, ◌<◌, ◌≤◌, All, IfOk, IfErr, IsTrue, ◌↔◌, OnOk, length};
ghost use Rattle.aztec_layout.specs.Stuffing.{IsWidth, IsWord, IsWordFault, taken, unstuffed};

use crate::stuffing::{half, is_alike};
use bar_base::{Bits, NoMemory, Words, push_bits};
use std::alloc::Global;
use thiserror::Error;

/// Why codewords carry no bits.
#[derive(Debug, Drop, Error)]
pub enum WordFault {
    /// No memory was found.
    #[error("NoMemory")]
    NoMemory,
    /// The codeword at this place, counted from 0, is all zeros or all ones.
    #[error("BadWord")]
    BadWord(usize),
}

impl From<NoMemory> for WordFault {
    ghost use Rattle.std.specs.Prelude.{◌≡◌};
    ghost use Rattle.aztec_layout.specs.declared.unstuffing.WordFault.TheVariants.{NoMemory as Wanting};

    ghost from_gives = { λ _ fault. fault ≡ Wanting };

    fn from(_: NoMemory) -> WordFault {
        WordFault::NoMemory
    }
}

/// The bits that codewords of 6, 8, 10 or 12 bits carry: each codeword's bits, without the last
/// where those in front of it are alike (ISO/IEC 24778, bit stuffing). BadWord comes exactly where a
/// codeword is all zeros or all ones, with the place of the first, unless memory is wanting; a
/// number of more bits than the width counts as such a codeword.
pub fn unstuff(alloc: Global, words: &Words, width: u32) -> Result<Bits, WordFault>
    requires { IsWidth width }
    ensures unstuffed { IfOk result (λ bits. bits ≡ unstuffed width words.now) }
    ensures good { OnOk result (All (IsWord width) words.now) }
    ensures bad { IfErr result (IsWordFault width words.now) }
{
    let mut bits = Bits::new(alloc);
    for (place, word) in words.as_slice().iter().enumerate() {
        if !is_word(width, *word) {
            return Err(WordFault::BadWord(place));
        }
        push_taken(&mut bits, width, *word)?;
    }
    Ok(bits)
}

/// Whether a codeword is not all zeros and not all ones.
fn is_word(width: u32, word: u16) -> bool
    requires { IsWidth width }
    ensures { IsTrue result ↔ IsWord width word }
{
    word != 0 && word < 2 * half(width) - 1
}

/// Puts the bits that a codeword carries at the end.
fn push_taken(bits: &mut Bits, width: u32, word: u16) -> Result<(), NoMemory>
    requires wide { IsWidth width }
    ensures { OnOk result (bits.new ≡ bits.old ++ taken width word) }
{
    if is_alike(width, word) {
        push_bits(bits, width - 1, u32::from(word / 2))
    } else {
        push_bits(bits, width, u32::from(word))
    }
}

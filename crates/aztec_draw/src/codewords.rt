ghost use Rattle.std.specs.Prelude.{◌≡◌, ◌-◌, ◌^◌, ◌<◌, ◌≤◌, ◌++◌, All, IfOk, OnOk, length};
ghost use Rattle.galois.specs.CheckNumbers.{IsContinuation};
ghost use Rattle.aztec_layout.specs.Sizes.{IsSize, codeword_width, codewords_of};
ghost use Rattle.aztec_draw.specs.Codewords.{IsCodewords};

use aztec_layout::{Size, codewords, width};
use bar_base::{NoMemory, Words};
use galois::{P64, P256, P1024, P4096, Poly};
use rs_encode::encode_numbers;
use std::alloc::Global;

/// The codewords of a symbol of a size: the data codewords, and behind them the check codewords, as many as
/// the size has room for (ISO/IEC 24778, error correction).
pub(crate) fn checked(alloc: Global, size: Size, words: Words) -> Result<Words, NoMemory>
    requires sized { IsSize size }
    requires room { length words ≤ codewords_of size }
    requires each { All (λ word. word < 2 ^ codeword_width size) words }
    ensures { IfOk result (IsCodewords size words) }
{
    let count = codewords(size) as usize;
    let width = width(size);
    if width == 6 {
        with_check::<P64>(alloc, words, count)
    } else if width == 8 {
        with_check::<P256>(alloc, words, count)
    } else if width == 10 {
        with_check::<P1024>(alloc, words, count)
    } else {
        with_check::<P4096>(alloc, words, count)
    }
}

/// Codewords and the check codewords behind them, `count` in all. It is not inlined: each field has tables of its own on the stack, and
/// a call pays for those of its field alone.
#[inline(never)]
fn with_check<P: Poly>(alloc: Global, words: Words, count: usize) -> Result<Words, NoMemory>
    requires each { All (λ word. word ≤ P.ORDER) words }
    requires room { length words ≤ count }
    requires few { count ≤ P.ORDER }
    ensures { IfOk result (IsContinuation P.BITS P.POLY words (count - length words)) }
{
    let mut check = vec![in alloc; 0; count - words.len()]?;
    encode_numbers::<P>(words.as_slice(), &mut check);
    let mut codewords = words;
    push_all(&mut codewords, &check)?;
    Ok(codewords)
}

/// Puts numbers at the end.
fn push_all(words: &mut Words, more: &[u16]) -> Result<(), NoMemory>
    ensures { OnOk result (words.new ≡ words.old ++ more.now) }
{
    for word in more {
        words.push(*word)?;
    }
    Ok(())
}

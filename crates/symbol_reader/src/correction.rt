ghost use Rattle.std.specs.Prelude.{◌≡◌, ◌-◌, ◌^◌, ◌<◌, ◌≤◌, All, IfOk, length, map};
ghost use Rattle.galois.specs.CheckNumbers.{polynomial_of};
ghost use Rattle.aztec_layout.specs.Sizes.{IsSize, codeword_width, codewords_of};
ghost use Rattle.symbol_reader.specs.Correction.{IsCorrectionOf};

use aztec_layout::{Size, width};
use bar_base::{NoMemory, Words};
use galois::{Field, Gf, P64, P256, P1024, P4096, Poly, element_of};
use rs_decode::count_lost;
use rs_erase::{Gaps, decode_lost};
use std::alloc::Global;

/// A check word, and at how many known places the word that was corrected to it differs.
#[derive(Debug, Drop)]
pub(crate) struct Correction {
    pub(crate) words: Words,
    pub(crate) errors: usize,
    /// How many places were lost.
    pub(crate) gone: usize,
}

/// The elements of numbers.
fn elements<F: Field>(alloc: Global, words: &[u16]) -> Result<Vec<F>, NoMemory>
    requires { All (λ word. word ≤ F.ORDER) words.now }
    ensures { IfOk result (λ elements. map F.value elements.items ≡ words.now) }
{
    let mut elements = Vec::new(alloc);
    for word in words {
        elements.push(element_of(u32::from(*word)))?;
    }
    Ok(elements)
}

/// The numbers of elements.
fn numbers<F: Field>(alloc: Global, elements: &[F]) -> Result<Words, NoMemory>
    ensures { IfOk result (λ words. words ≡ map F.value elements.now) }
{
    let mut words = Words::new(alloc);
    for element in elements {
        words.push(element.number() as u16)?;
    }
    Ok(words)
}

/// The check word with so many check elements that is nearest to a word of which some places are lost, where twice the wrong
/// elements and the lost ones are together no more (ISO/IEC 24778, Reed-Solomon error correction). It is not inlined: each field has tables of its own on the stack, and a call pays for
/// those of its field alone.
#[inline(never)]
pub(crate) fn correct<P: Poly>(
    alloc: Global,
    words: &[u16],
    lost: &[bool],
    check: usize,
) -> Result<Option<Correction>, NoMemory>
    requires each { All (λ word. word ≤ P.ORDER) words.now }
    requires alike { length lost.now ≡ length words.now }
    requires few { check ≤ length words.now }
    requires fits { length words.now ≤ P.ORDER }
    ensures { IfOk result (IsCorrectionOf P.BITS P.POLY check lost.now words.now) }
{
    let mut elements = elements::<Gf<P>>(alloc, words)?;
    let mut gaps = Gaps::new(alloc, words.len(), check)?;
    match decode_lost(&mut gaps, &mut elements, lost, check) {
        Err(_) => Ok(None),
        Ok(errors) => Ok(Some(Correction {
            words: numbers(alloc, &elements)?,
            errors,
            gone: count_lost(lost),
        })),
    }
}

/// The same for the codewords of a symbol of a size (ISO/IEC 24778, error correction).
pub(crate) fn correct_codewords(
    alloc: Global,
    size: Size,
    words: &[u16],
    lost: &[bool],
    check: usize,
) -> Result<Option<Correction>, NoMemory>
    requires sized { IsSize size }
    requires alike { length lost.now ≡ length words.now }
    requires counted { length words.now ≡ codewords_of size }
    requires few { check ≤ codewords_of size }
    requires each { All (λ word. word < 2 ^ codeword_width size) words.now }
    ensures { IfOk result (IsCorrectionOf (codeword_width size) (polynomial_of (codeword_width size)) check
        lost.now words.now) }
{
    let width = width(size);
    if width == 6 {
        correct::<P64>(alloc, words, lost, check)
    } else if width == 8 {
        correct::<P256>(alloc, words, lost, check)
    } else if width == 10 {
        correct::<P1024>(alloc, words, lost, check)
    } else {
        correct::<P4096>(alloc, words, lost, check)
    }
}

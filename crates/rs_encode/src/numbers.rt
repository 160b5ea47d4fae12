//! The check elements of a front over the numbers of elements.

ghost use Rattle.std.specs.Prelude.{◌≡◌, ◌<◌, ◌≤◌, ◌+◌, ◌++◌, All, length, map};
ghost use Rattle.galois.specs.CheckNumbers.{IsContinuation};

use crate::encode;
use galois::{Field, Gf, Poly, element_of};

// Makes the elements those of the numbers.
fn write_elements<F: Field>(numbers: &[u16], elements: &mut [F])
    requires each { All (λ number. number ≤ F.ORDER) numbers.now }
    requires alike { length elements.old ≡ length numbers.now }
    ensures { map F.value elements.new ≡ numbers.now }
{
    for place in 0..numbers.len() {
        elements[place] = element_of(u32::from(numbers[place]));
    }
}

// Makes the numbers those of the elements.
fn write_numbers<F: Field>(elements: &[F], numbers: &mut [u16])
    requires alike { length numbers.old ≡ length elements.now }
    ensures { numbers.new ≡ map F.value elements.now }
{
    for place in 0..elements.len() {
        numbers[place] = elements[place].number() as u16;
    }
}

// Writes the numbers of the check elements, with the elements of the whole word in a list that is lent.
fn encode_in<P: Poly>(front: &[u16], check: &mut [u16], word: &mut [Gf<P>])
    requires each { All (λ number. number ≤ P.ORDER) front.now }
    requires few { length front.now + length check.old ≤ P.ORDER }
    requires room { P.ORDER ≤ length word.old }
    ensures { IsContinuation P.BITS P.POLY front.now (length check.old) (front.now ++ check.new) }
{
    let (elements, rest) = word.split_at_mut(front.len());
    let registers = &mut rest[..check.len()];
    write_elements(front, elements);
    encode(elements, registers);
    write_numbers(registers, check);
}

// The same with a list of its own, over a field of at most 1024 elements.
#[inline(never)]
fn encode_small<P: Poly>(front: &[u16], check: &mut [u16])
    requires small { P.ORDER < 1024 }
    requires each { All (λ number. number ≤ P.ORDER) front.now }
    requires few { length front.now + length check.old ≤ P.ORDER }
    ensures { IsContinuation P.BITS P.POLY front.now (length check.old) (front.now ++ check.new) }
{
    let mut word = [Gf::<P>::zero(); 1023];
    encode_in(front, check, &mut word);
}

// The same over any field.
#[inline(never)]
fn encode_large<P: Poly>(front: &[u16], check: &mut [u16])
    requires each { All (λ number. number ≤ P.ORDER) front.now }
    requires few { length front.now + length check.old ≤ P.ORDER }
    ensures { IsContinuation P.BITS P.POLY front.now (length check.old) (front.now ++ check.new) }
{
    let mut word = [Gf::<P>::zero(); 4095];
    encode_in(front, check, &mut word);
}

/// `encode` over numbers: writes into `check` the numbers of the check elements of the elements with the numbers
/// `front`, in the field of `P`. So `front` followed by `check` is the only check word that begins with `front` and has
/// as many check elements. It takes no memory. (ISO/IEC 24778, Reed-Solomon error correction.)
///
/// Each number of `front` is at most `P::ORDER`, and together they may be as many as that.
pub fn encode_numbers<P: Poly>(front: &[u16], check: &mut [u16])
    requires each { All (λ number. number ≤ P.ORDER) front.now }
    requires few { length front.now + length check.old ≤ P.ORDER }
    ensures { IsContinuation P.BITS P.POLY front.now (length check.old) (front.now ++ check.new) }
{
    if P::ORDER < 1024 {
        encode_small::<P>(front, check);
    } else {
        encode_large::<P>(front, check);
    }
}

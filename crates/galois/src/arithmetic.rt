//! Sums, products and powers of elements by their numbers, in a number of steps that `BITS` bounds.

ghost use Rattle.std.specs.Prelude.{◌≡◌, ◌*◌, ◌<◌, ◌≤◌};
ghost use Rattle.std.specs.Int.{bit_at};
ghost use Rattle.galois.specs.Polynomials.{product_of, power_of};
ghost use Rattle.galois.specs.DivisionLaws.{turn};

use crate::Poly;

// The coefficient of the power `place` of x.
#[inline]
fn coefficient(number: u32, place: u32) -> u32
    requires { place < 32 }
    ensures value { result ≡ bit_at number place }
    ensures bit { result < 2 }
{
    number >> place & 1
}

// `number` where `bit` is one, else nought, without a branch.
#[inline]
fn masked(number: u32, bit: u32) -> u32
    requires { bit < 2 }
    ensures { result ≡ bit * number }
{
    number & 0u32.wrapping_sub(bit)
}

// x times an element.
#[inline]
fn times_x<P: Poly>(number: u32) -> u32
    requires { number ≤ P.ORDER }
    ensures value { result ≡ turn P.BITS P.POLY number }
    ensures within { result ≤ P.ORDER }
{
    let doubled = number << 1;
    doubled ^ masked(P::POLY, coefficient(doubled, P::BITS))
}

// The product: the multiples of `a` by the powers of x in `b`, summed. By x alone it is one step.
#[inline]
pub(crate) fn product<P: Poly>(a: u32, b: u32) -> u32
    requires left { a ≤ P.ORDER }
    requires right { b ≤ P.ORDER }
    ensures value { result ≡ product_of P.BITS P.POLY a b }
    ensures within { result ≤ P.ORDER }
{
    if b == 2 {
        return times_x::<P>(a);
    }
    let mut total = 0;
    let mut multiple = a;
    for i in 0..P::BITS {
        total ^= masked(multiple, coefficient(b, i));
        multiple = times_x::<P>(multiple);
    }
    total
}

// What the square in hand gives to a power: itself where the exponent has the bit, else one.
fn factor(square: u32, bit: u32) -> u32
    requires { bit < 2 }
    ensures on { bit ≡ 1 → result ≡ square }
    ensures off { bit ≡ 0 → result ≡ 1 }
{
    if bit == 1 { square } else { 1 }
}

// The power, by squaring.
pub(crate) fn power<P: Poly>(base: u32, exponent: u32) -> u32
    requires base { base ≤ P.ORDER }
    requires exponent { exponent ≤ P.ORDER }
    ensures value { result ≡ power_of P.BITS P.POLY base exponent }
    ensures within { result ≤ P.ORDER }
{
    let mut total = 1;
    let mut square = base;
    for i in 0..P::BITS {
        total = product::<P>(total, factor(square, coefficient(exponent, i)));
        square = product::<P>(square, square);
    }
    total
}

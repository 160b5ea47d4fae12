//! The elements of the field of a primitive polynomial.

ghost use Rattle.std.specs.Prelude.{◌≡◌, ◌≤◌, ◌-◌, nat_eq, bit_xor, refl};
ghost use Rattle.std.specs.Ordering.{on};
ghost use Rattle.std.specs.Cmp.Rules.{comparing};
ghost use Rattle.std.proofs.Common.{rules};
ghost use Rattle.galois.specs.Polynomials.{product_of, power_of};
ghost use Rattle.galois.specs.FieldLaws.{zero_within, one_within, alpha_within, sum_within, product_within, power_within};
ghost use Rattle.galois.specs.FieldLaws.{laws_of, numbering_of, size_of, equal_of};

use crate::arithmetic::{power, product};
use crate::{Field, P16, P64, P256, P1024, P4096, Poly};
use std::alloc::AllocError;
use std::fmt;
use std::marker::PhantomData;

/// An element of the field of `P`: a polynomial with bits as coefficients, of a degree below that of `P`. Its
/// number has the coefficient of the power k of x as its bit k. Sums are exclusive-ors, products are reduced by
/// `P`, and alpha is the polynomial x. (ISO/IEC 24778, Reed-Solomon error correction.)
pub struct Gf<P: Poly> {
    number: u16,
    of: PhantomData<P>,
    ghost in_range: { number ≤ P.ORDER },
}

// The element of a number.
#[inline]
fn numbered<P: Poly>(number: u32) -> Gf<P>
    requires { number ≤ P.ORDER }
    ensures { result.number ≡ number }
{
    Gf {
        number: number as u16,
        of: PhantomData,
    }
}

impl<P: Poly> fmt::Debug for Gf<P> {
    fn fmt<W: fmt::Write>(&self, f: &mut fmt::Formatter<W>) -> fmt::Result {
        f.debug_tuple("Gf").field(&self.number).finish()
    }
}

impl<P: Poly> Clone for Gf<P> {
    ghost is_clone = { λ a b. b ≡ a };

    fn clone(&self) -> Result<Gf<P>, AllocError> {
        Ok(*self)
    }
}

impl<P: Poly> Copy for Gf<P> {}

impl<P: Poly> PartialEq for Gf<P> {
    ghost eq = { on (λ x. x.number) nat_eq };

    ghost laws = { Prim.search (comparing, rules) };

    fn eq(&self, other: &Gf<P>) -> bool {
        self.number == other.number
    }
}

impl<P: Poly> Eq for Gf<P> {
    ghost laws = { Prim.search (comparing, rules) };
}

impl<P: Poly> Field for Gf<P> {
    const BITS: u32 = P::BITS;

    const ORDER: u32 = P::ORDER;

    ghost BITS = { P.BITS };

    ghost ORDER = { P.ORDER };

    ghost value = { λ a. a.number };

    ghost nought = { record { number = 0; of = record {}; in_range = zero_within P.primitive } };

    ghost unit = { record { number = 1; of = record {}; in_range = one_within P.primitive } };

    ghost plus = { λ a b. record {
      number = bit_xor a.number b.number;
      of = record {};
      in_range = sum_within P.primitive a.number b.number a.in_range b.in_range;
    } };

    ghost times = { λ a b. record {
      number = product_of P.BITS P.POLY a.number b.number;
      of = record {};
      in_range = product_within P.primitive a.number b.number a.in_range;
    } };

    ghost inverse = { λ a. record {
      number = power_of P.BITS P.POLY a.number (P.ORDER - 1);
      of = record {};
      in_range = power_within P.primitive a.number (P.ORDER - 1) a.in_range;
    } };

    ghost power = { λ k. record {
      number = power_of P.BITS P.POLY 2 k;
      of = record {};
      in_range = power_within P.primitive 2 k (alpha_within P.primitive);
    } };

    fn zero() -> Gf<P> {
        Gf {
            number: 0,
            of: PhantomData,
        }
    }

    fn one() -> Gf<P> {
        Gf {
            number: 1,
            of: PhantomData,
        }
    }

    fn alpha(k: u32) -> Gf<P> {
        numbered(power::<P>(2, k % P::ORDER))
    }

    fn add(self, other: Gf<P>) -> Gf<P> {
        Gf {
            number: self.number ^ other.number,
            of: PhantomData,
        }
    }

    fn mul(self, other: Gf<P>) -> Gf<P> {
        numbered(product::<P>(u32::from(self.number), u32::from(other.number)))
    }

    fn inv(self) -> Gf<P> {
        numbered(power::<P>(u32::from(self.number), P::ORDER - 1))
    }

    fn number(self) -> u32 {
        u32::from(self.number)
    }

    fn from_number(n: u32) -> Option<Gf<P>> {
        if n > P::ORDER {
            None
        } else {
            Some(numbered(n))
        }
    }

    ghost size = { size_of P.primitive };

    ghost numbering = { numbering_of
        (λ n within. record { number = n; of = record {}; in_range = within })
        (λ a. a.number) (λ a. a.in_range) (λ a. refl) (λ n within. refl) };

    ghost laws = { laws_of P.primitive
        (λ n within. record { number = n; of = record {}; in_range = within })
        (λ a. a.number) (λ a. a.in_range) (λ a. refl) (λ n within. refl) };

    ghost equal = { equal_of
        (λ n within. record { number = n; of = record {}; in_range = within })
        (λ a. a.number) (λ a. a.in_range) (λ a. refl) };
}

/// The field of 16 elements, for the mode message and the rune.
pub type Gf16 = Gf<P16>;

/// The field of 64 elements, for codewords of six bits.
pub type Gf64 = Gf<P64>;

/// The field of 256 elements, for codewords of eight bits.
pub type Gf256 = Gf<P256>;

/// The field of 1024 elements, for codewords of ten bits.
pub type Gf1024 = Gf<P1024>;

/// The field of 4096 elements, for codewords of twelve bits.
pub type Gf4096 = Gf<P4096>;

//! The powers of alpha and their exponents, written down once, for products and quotients without multiplication.

ghost use Rattle.std.specs.Prelude.{◌≡◌, ◌≢◌, ◌<◌, ◌≤◌, ◌*◌, length};
ghost use Rattle.galois.specs.Tables.{AreTables};

use crate::Field;
use std::marker::PhantomData;

/// The powers of alpha of a field by their exponents, and the exponents of elements by their numbers, in lists that are
/// lent. (ISO/IEC 24778, Reed-Solomon error correction.)
#[derive(Drop)]
pub struct Tables<'a, F: Field> {
    powers: &'a [u16],
    exponents: &'a [u16],
    of: PhantomData<F>,
    ghost are: { AreTables F.value F.power F.ORDER F.ORDER powers.now exponents.now },
}

/// The element of a number, which is at most `ORDER`.
#[inline]
pub fn element_of<F: Field>(number: u32) -> F
    requires { number ≤ F.ORDER }
    ensures { F.value result ≡ number }
{
    // the number has no more bits than ORDER, so that the compiled code tests nothing
    match F::from_number(number & F::ORDER) {
        Some(element) => element,
        None => unreachable!(),
    }
}

// Writes each power twice, and its exponent once.
fn write_tables<F: Field>(powers: &mut [u16], exponents: &mut [u16])
    requires powers { 2 * F.ORDER ≤ length powers.old }
    requires exponents { F.ORDER < length exponents.old }
    ensures { AreTables F.value F.power F.ORDER F.ORDER powers.new exponents.new }
{
    let alpha = F::alpha(1);
    let mut power = F::one();
    for exponent in 0..F::ORDER as usize {
        let number = power.number() as u16;
        powers[exponent] = number;
        powers[F::ORDER as usize + exponent] = number;
        exponents[number as usize] = exponent as u16;
        power = power.mul(alpha);
    }
}

impl<'a, F: Field> Tables<'a, F> {
    /// The tables of the field, written into two lists: of at least twice `ORDER` powers, and of more than `ORDER`
    /// exponents. What the lists held is lost.
    pub fn new(powers: &'a mut [u16], exponents: &'a mut [u16]) -> Tables<'a, F>
        requires powers { 2 * F.ORDER ≤ length powers.old }
        requires exponents { F.ORDER < length exponents.old }
    {
        write_tables::<F>(powers, exponents);
        Tables {
            powers,
            exponents,
            of: PhantomData,
        }
    }

    /// Alpha to the power `exponent`, which is below twice `ORDER`.
    #[inline]
    pub fn power(&self, exponent: usize) -> F
        requires { exponent < 2 * F.ORDER }
        ensures { result ≡ F.power exponent }
    {
        element_of(u32::from(self.powers[exponent]))
    }

    /// The exponent of the power of alpha, below `ORDER`, that an element other than zero is.
    #[inline]
    pub fn exponent(&self, element: F) -> usize
        requires { element ≢ F.nought }
        ensures below { result < F.ORDER }
        ensures power { F.power result ≡ element }
    {
        usize::from(self.exponents[element.number() as usize])
    }

    /// The product with alpha to the power `exponent`, which is at most `ORDER`.
    #[inline]
    pub fn times_power(&self, element: F, exponent: usize) -> F
        requires { exponent ≤ F.ORDER }
        ensures { result ≡ F.times element (F.power exponent) }
    {
        if element == F::zero() {
            return element;
        }
        self.power(self.exponent(element) + exponent)
    }

    /// The quotient by an element other than zero.
    #[inline]
    pub fn over(&self, element: F, divisor: F) -> F
        requires { divisor ≢ F.nought }
        ensures { F.times result divisor ≡ element }
    {
        self.times_power(element, F::ORDER as usize - self.exponent(divisor))
    }
}

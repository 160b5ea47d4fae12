//! Values computed by hand, and callers through the bound and at a concrete type.

ghost use Rattle.std.specs.Prelude.{◌≡◌};
ghost use Rattle.galois.specs.Polynomials.{product_of};

use galois::{Field, Gf16, Gf64, Gf256, Gf1024, Gf4096};
use std::test::Fail;

// A caller at one type has the definition over numbers.
fn product_of_sixteen(a: Gf16, b: Gf16) -> u32
    ensures { result ≡ product_of 4 0x13 (⟦<Gf16 as Field>⟧.value a) (⟦<Gf16 as Field>⟧.value b) }
{
    a.mul(b).number()
}

// The numbers of the sum and the product of two elements, of the inverse of x and of a power of x.
fn numbers<F: Field>(a: u32, b: u32, k: u32) -> Option<(u32, u32, u32, u32)> {
    let a = F::from_number(a)?;
    let b = F::from_number(b)?;
    let x = F::alpha(1);
    if x == F::zero() {
        return None;
    }
    let (sum, product) = (a.add(b), a.mul(b));
    Some((
        sum.number(),
        product.number(),
        x.inv().number(),
        F::alpha(k).number(),
    ))
}

// x^n is what the polynomial has below x^n, and the inverse of x is the polynomial without its constant, over x.
#[test]
fn sums_products_inverses_and_powers(rt: HostRuntime) {
    assert_eq!(rt; numbers::<Gf16>(9, 7, 4), Some((14, 10, 9, 3)));
    assert_eq!(rt; numbers::<Gf64>(32, 4, 6), Some((36, 6, 33, 3)));
    assert_eq!(rt; numbers::<Gf256>(128, 4, 8), Some((132, 90, 150, 45)));
    assert_eq!(rt; numbers::<Gf1024>(512, 8, 10), Some((520, 36, 516, 9)));
    assert_eq!(rt;
        numbers::<Gf4096>(2048, 8, 12),
        Some((2056, 420, 2100, 105))
    );
}

#[test]
fn numbers_above_the_order_are_none(rt: HostRuntime) {
    assert!(rt; Gf16::from_number(15).is_some());
    assert!(rt; Gf16::from_number(16).is_none());
    assert!(rt; Gf4096::from_number(4095).is_some());
    assert!(rt; Gf4096::from_number(4096).is_none());
}

#[test]
fn debug_shows_the_number(rt: HostRuntime) -> Result<(), Fail> {
    let text = format!(in rt.alloc(); "{:?}", Gf16::alpha(4))?;
    assert_eq!(rt; text.as_str(), "Gf(3)");
    Ok(())
}

#[test]
fn powers_come_round(rt: HostRuntime) {
    assert_eq!(rt; Gf16::alpha(15), Gf16::one());
    assert_eq!(rt; Gf4096::alpha(4095), Gf4096::one());
    assert_eq!(rt;
        Gf4096::alpha(u32::MAX).number(),
        Gf4096::alpha(u32::MAX % 4095).number()
    );
    assert_eq!(rt; product_of_sixteen(Gf16::alpha(3), Gf16::alpha(4)), 11);
}

//! Powers of alpha by a place, products with them, and quotients, for any place and divisor.

ghost use Rattle.std.specs.Prelude.{◌≡◌, ◌≢◌};

use galois::{Field, Tables};

/// Alpha to the power of a place.
#[inline]
pub fn power_at<F: Field>(tables: &Tables<F>, place: u32) -> F
    ensures { result ≡ F.power place }
{
    if place < F::ORDER {
        return tables.power(place as usize);
    }
    F::alpha(place)
}

/// The product with alpha to the power of a place.
#[inline]
pub fn times_power_at<F: Field>(tables: &Tables<F>, element: F, place: u32) -> F
    ensures { result ≡ F.times element (F.power place) }
{
    if place < F::ORDER {
        return tables.times_power(element, place as usize);
    }
    element.mul(F::alpha(place))
}

/// The quotient, where the divisor is not zero.
#[inline]
pub fn quotient<F: Field>(tables: &Tables<F>, element: F, divisor: F) -> F
    ensures { divisor ≢ F.nought → F.times result divisor ≡ element }
{
    if divisor == F::zero() {
        return element;
    }
    tables.over(element, divisor)
}

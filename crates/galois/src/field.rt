//! What every field offers, with its laws.

ghost use Rattle.std.specs.Prelude.{◌≡◌, ◌≢◌, ◌↔◌, ℕ, ◌<◌, true, IsNone, IfSome};
ghost use Rattle.galois.specs.Field.{IsField, IsFieldSize, IsNumbering};

/// A finite field of characteristic two, in which the powers of one element, alpha, are all the elements but
/// zero. Elements have `BITS` bits, 2 to 12, and the numbers 0 to `ORDER`, which is the number of those powers.
/// (ISO/IEC 24778, Reed-Solomon error correction.)
pub trait Field: Copy + Eq {
    const BITS: u32;

    const ORDER: u32;

    ghost BITS: { ℕ };

    ghost ORDER: { ℕ };

    // the number of an element
    ghost value: { Self → ℕ };

    ghost nought: { Self };

    ghost unit: { Self };

    ghost plus: { Self → Self → Self };

    ghost times: { Self → Self → Self };

    // what `times` brings back to `unit`, at elements other than `nought`
    ghost inverse: { Self → Self };

    // the powers of alpha
    ghost power: { ℕ → Self };

    /// The element that sums leave as it is.
    fn zero() -> Self
        ensures { result ≡ nought };

    /// The element that products leave as it is.
    fn one() -> Self
        ensures { result ≡ unit };

    /// Alpha to the power `k`.
    fn alpha(k: u32) -> Self
        ensures { result ≡ power k };

    /// The sum, which is also the difference.
    fn add(self, other: Self) -> Self
        ensures { result ≡ plus self other };

    /// The product.
    fn mul(self, other: Self) -> Self
        ensures { result ≡ times self other };

    /// The element whose product with this one is one. Zero has none.
    fn inv(self) -> Self
        requires { self ≢ nought }
        ensures { result ≡ inverse self };

    /// The number of the element, 0 to `ORDER`.
    fn number(self) -> u32
        ensures { result ≡ value self };

    /// The element of a number, None exactly where the number is above `ORDER`.
    fn from_number(n: u32) -> Option<Self>
        ensures above { IsNone result ↔ (ORDER < n) }
        ensures numbered { IfSome result (λ x. value x ≡ n) };

    ghost size: { IsFieldSize BITS ORDER };

    ghost numbering: { IsNumbering value ORDER };

    ghost laws: { IsField nought unit plus times inverse power ORDER };

    ghost equal: { (a b : Self) → (Self.eq a b ≡ true) ↔ (a ≡ b) };
}

//! Primitive polynomials, each of which makes a field.

ghost use Rattle.std.specs.Prelude.{ℕ};
ghost use Rattle.galois.specs.Polynomials.{IsPrimitive};
ghost use Rattle.galois.specs.PrimitiveLaws.{primitive-16, primitive-64, primitive-256, primitive-1024, primitive-4096};

/// A polynomial `POLY` of degree `BITS` with bits as coefficients, bit k that of the power k of x, by which the
/// first `ORDER` powers of x have different remainders. (ISO/IEC 24778, Reed-Solomon error correction.)
pub trait Poly: Copy + Eq {
    const BITS: u32;

    const ORDER: u32;

    const POLY: u32;

    ghost BITS: { ℕ };

    ghost ORDER: { ℕ };

    ghost POLY: { ℕ };

    ghost primitive: { IsPrimitive BITS ORDER POLY };
}

/// x^4 + x + 1, for the mode message and the rune.
#[derive(Debug, Clone, Copy, PartialEq, Eq)]
pub struct P16;

impl Poly for P16 {
    const BITS: u32 = 4;

    const ORDER: u32 = 15;

    const POLY: u32 = 0x13;

    ghost BITS = { 4 };

    ghost ORDER = { 15 };

    ghost POLY = { 0x13 };

    ghost primitive = { primitive-16 };
}

/// x^6 + x + 1, for codewords of six bits.
#[derive(Debug, Clone, Copy, PartialEq, Eq)]
pub struct P64;

impl Poly for P64 {
    const BITS: u32 = 6;

    const ORDER: u32 = 63;

    const POLY: u32 = 0x43;

    ghost BITS = { 6 };

    ghost ORDER = { 63 };

    ghost POLY = { 0x43 };

    ghost primitive = { primitive-64 };
}

/// x^8 + x^5 + x^3 + x^2 + 1, for codewords of eight bits.
#[derive(Debug, Clone, Copy, PartialEq, Eq)]
pub struct P256;

impl Poly for P256 {
    const BITS: u32 = 8;

    const ORDER: u32 = 255;

    const POLY: u32 = 0x12D;

    ghost BITS = { 8 };

    ghost ORDER = { 255 };

    ghost POLY = { 0x12D };

    ghost primitive = { primitive-256 };
}

/// x^10 + x^3 + 1, for codewords of ten bits.
#[derive(Debug, Clone, Copy, PartialEq, Eq)]
pub struct P1024;

impl Poly for P1024 {
    const BITS: u32 = 10;

    const ORDER: u32 = 1023;

    const POLY: u32 = 0x409;

    ghost BITS = { 10 };

    ghost ORDER = { 1023 };

    ghost POLY = { 0x409 };

    ghost primitive = { primitive-1024 };
}

/// x^12 + x^6 + x^5 + x^3 + 1, for codewords of twelve bits.
#[derive(Debug, Clone, Copy, PartialEq, Eq)]
pub struct P4096;

impl Poly for P4096 {
    const BITS: u32 = 12;

    const ORDER: u32 = 4095;

    const POLY: u32 = 0x1069;

    ghost BITS = { 12 };

    ghost ORDER = { 4095 };

    ghost POLY = { 0x1069 };

    ghost primitive = { primitive-4096 };
}

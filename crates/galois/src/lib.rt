//! Finite fields whose elements are polynomials with bits as coefficients: one type, `Gf<P>`, for every primitive
//! polynomial, with every law of a field proved once, and the five fields of Aztec symbols.
#![tactic(auto)]

mod arithmetic;
mod element;
mod field;
mod polynomial;
mod tables;

pub use element::{Gf, Gf16, Gf64, Gf256, Gf1024, Gf4096};
pub use field::Field;
pub use polynomial::{P16, P64, P256, P1024, P4096, Poly};
pub use tables::{Tables, element_of};

//! Check elements of Reed-Solomon codes over any field, and over the numbers of its elements.
#![tactic(auto)]

mod division;
mod encoder;
mod generator;
mod numbers;
mod rows;

pub use encoder::encode;
pub use numbers::encode_numbers;

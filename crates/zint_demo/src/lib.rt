//! The demonstration: the text that a number makes, prefixes of it as Aztec symbols, and the last symbol damaged as far
//! as its check codewords can repair it.
#![tactic(auto)]

mod damage;
mod demonstration;
mod generator;
mod text;

pub use demonstration::{Demonstration, demonstrate};

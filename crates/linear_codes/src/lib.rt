//! Linear symbols of bars and spaces: Code 39 (ISO/IEC 16388), Code 93, and ITF-14 (ISO/IEC 16390).
#![tactic(auto)]

mod characters;
mod code39_symbol;
mod code39_table;
mod code93_symbol;
mod code93_table;
mod full_ascii;
mod itf14_symbol;
mod itf14_table;
mod patterns;
mod short_lists;

pub use characters::CHARACTERS;
pub use code39_symbol::{CODE39_MOST_BYTES, code39, code39_full, values39_full};
pub use code39_table::pattern39;
pub use code93_symbol::{CODE93_MOST_BYTES, code93, push_checks93, values93};
pub use code93_table::pattern93;
pub use full_ascii::{FULL_ASCII_LETTERS, FULL_ASCII_SIGNS};
pub use itf14_symbol::{ITF14_MOST_DIGITS, itf14};
pub use itf14_table::{pattern_itf, pattern_pair};

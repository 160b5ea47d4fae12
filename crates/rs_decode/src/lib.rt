//! Correction of the words of Reed-Solomon codes over any field.
#![tactic(auto)]

mod check_words;
mod decoder;
mod error_places;
mod errors;
mod lists;
mod lost;
mod powers;
mod remainders;
mod room;
mod search;
mod syndromes;
mod too_damaged;

pub use lost::count_lost;
pub use room::{Room, decode, decode_with_lost};
pub use too_damaged::TooDamaged;

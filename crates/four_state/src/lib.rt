//! The four-state symbol of the Royal Mail (RM4SCC).
#![tactic(auto)]

mod bars;
mod characters;
mod symbol;

pub use bars::{LONG_BARS, long_bars};
pub use characters::CHARACTERS;
pub use symbol::{RM4SCC_MOST_BYTES, rm4scc};

//! Reading the picture of an Aztec symbol back to its message, with damaged codewords corrected.
#![tactic(auto)]

mod correction;
mod darkening;
mod finding;
mod grid_fault;
mod held;
mod lost_words;
mod mode_check;
mod parsing;
mod reading;
mod scanning;
mod seen;
mod text_fault;
mod unknown;
mod unknown_parsing;

pub use grid_fault::GridFault;
pub use mode_check::bad_mode;
pub use parsing::{parse_grid, parse_within};
pub use reading::{LostReading, Reading, read_grid, read_unknown};
pub use text_fault::TextFault;
pub use unknown::Unknown;
pub use unknown_parsing::parse_unknown;

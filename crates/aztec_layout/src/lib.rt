//! The layout of Aztec symbols (ISO/IEC 24778): stuffed codewords, the 36 sizes, and the module of each bit.
#![tactic(auto)]

mod allowed;
mod bit_rows;
mod choice;
mod core_reading;
mod core_symbol;
mod counting;
mod data_painting;
mod data_reading;
mod fitting;
mod mode_message;
mod painting;
mod placement;
mod rune_symbol;
mod sizes;
mod stuffing;
mod symbol;
mod unstuffing;

pub use allowed::Allowed;
pub use choice::{NoFit, fit};
pub use core_reading::{finder, is_core, is_dark_core, mode_read};
pub use core_symbol::rim;
pub use counting::needs;
pub use data_reading::codewords_read;
pub use fitting::{Needs, first_size, needed, smallest};
pub use mode_message::mode_words;
pub use placement::place;
pub use rune_symbol::{rune, rune_words};
pub use sizes::{Size, bits, codewords, holds, side, width};
pub use stuffing::stuff;
pub use symbol::draw;
pub use unstuffing::{WordFault, unstuff};

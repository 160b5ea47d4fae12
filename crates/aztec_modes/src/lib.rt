//! Aztec's codes (ISO/IEC 24778): the five code tables, which code spells what, the elements of a message, and the bits of a
//! sequence of codes.
#![tactic(auto)]

mod ahead;
mod code;
mod message;
mod mode;
mod parts;
mod path;
mod reading;
mod spelling;
mod splitting;
mod table;

pub use code::Code;
pub use message::{elements_of, into_elements};
pub use mode::Mode;
pub use parts::{code_count, code_length, code_next, flag_width, run_head};
pub use path::Path;
pub use reading::{ReadFault, read};
pub use spelling::{push_code, spell};
pub use table::{DIGIT, LOWER, MIXED, PUNCT, Symbol, UPPER, symbol_at, width};

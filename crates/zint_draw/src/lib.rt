//! From the settings and the content of a message to its symbol, or to the refusal of it.
#![tactic(auto)]

mod data;
mod drawing;
mod message;
mod segments;
mod symbologies;

pub use drawing::draw;
pub use message::DataKind;
pub use symbologies::Symbol;
pub use symbologies::code128::Code128Symbol;
pub use symbologies::rune::RuneSymbol;

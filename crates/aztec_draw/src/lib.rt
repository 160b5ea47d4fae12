//! From the elements of a message to its whole Aztec symbol (ISO/IEC 24778): the drawn spelling in the smallest
//! allowed size that holds it, with its check codewords, as a grid of modules.
#![tactic(auto)]

mod codewords;
mod drawing;
mod fault;
mod symbol;

pub use drawing::draw_elements;
pub use fault::DrawFault;
pub use symbol::AztecSymbol;

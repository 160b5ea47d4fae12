//! What the command answers: refusals, the lines of faults, the steps of its definitions and pieces of a report.
#![tactic(auto)]

mod detail;
mod fault;
mod fault_line;
mod image_fault;
mod refusal;
mod report;
mod symbol_fault;

pub use detail::{Kind, Unit};
pub use fault::Fault;
pub use fault_line::write_fault;
pub use image_fault::ImageFault;
pub use refusal::Refusal;
pub use report::{put_bits, put_number, put_numbers, put_size, put_text};
pub use symbol_fault::SymbolFault;

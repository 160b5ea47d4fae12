//! Code 128 (ISO/IEC 15417) with the fewest values, and of those the first in dictionary order.
#![tactic(auto)]

mod code_fault;
mod costs;
mod drawing;
mod effect;
mod kinds;
mod look;
mod own;
mod pass;
mod pick;
mod state;
mod stepping;
mod sweeps;
mod symbol;
mod table;
mod values;
mod widths;

pub use code_fault::CodeFault;
pub use drawing::{MOST_ELEMENTS, shortest};
pub use effect::{Effect, Spelled, act};
pub use state::{CodeSet, State};
pub use symbol::{check, check_of_values, modules, pattern};
pub use values::Values;

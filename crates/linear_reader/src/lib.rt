//! Reading a row of bars: Code 128 (ISO/IEC 15417), Code 39 and its full ASCII form (ISO/IEC 16388), Code 93, and ITF-14 (ISO/IEC 16390).
#![tactic(auto)]

mod checking;
mod code128_data;
mod full_ascii_data;
mod modules;
mod parsing;
mod patterns;
mod reading;
mod scan;
mod spelling;
mod symbology;
mod valuing;

pub use parsing::{RowFault, parse_row};
pub use reading::read_row;
pub use scan::{Scan, ScanFault};

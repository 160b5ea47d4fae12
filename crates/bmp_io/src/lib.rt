//! BMP pictures of a symbol: writing them, and reading them back.
#![tactic(auto)]

mod bmp_header;
mod copies;
mod fault;
mod header_bytes;
mod pixels;
mod pixels_read;
mod reading;
mod refusals;
mod sampling;
mod writing;

pub use fault::{BmpFault, BmpField};
pub use reading::{read_bmp, read_pixels};
pub use writing::{stride, write_bmp};

//! A grid as text and as vector pictures: a line for each row, SVG and EPS with a rectangle for each dark run.
#![tactic(auto)]

mod drawing;
mod form;
mod grid_lines;
mod grid_text;
mod line;
mod runs;
mod texts;

pub use drawing::{write_eps, write_svg};
pub use grid_lines::digit;
pub use grid_text::write_grid;

//! From the bytes of an image, a text or a BMP, to the read report of the symbol in it, or to the first refusal.
#![tactic(auto)]

mod body_lines;
mod frames;
mod images;
mod message_lines;
mod readers;
mod reading;
mod report;
mod seen;

pub use readers::picture_limit;
pub use reading::read_report;

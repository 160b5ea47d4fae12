//! The ten character sets that an extended channel interpretation (ECI) names here: from a text to the bytes of a
//! set, and back.
//!
//! The numbers are 3 (ISO/IEC 8859-1), 7 (ISO/IEC 8859-5), 11 (ISO/IEC 8859-9), 17 (ISO/IEC 8859-15), 22
//! (windows-1251), 23 (windows-1252), 25 (UTF-16BE), 26 (UTF-8), 27 (ASCII) and 899 (eight-bit binary data).
#![tactic(auto)]

mod character_set;
mod code_page;
mod decoding;
mod encoding;
mod fault;
mod joined_text;
mod tables;
mod utf16;

pub use decoding::decode;
pub use encoding::{choose, encode};
pub use fault::SetFault;
pub use joined_text::text_of;

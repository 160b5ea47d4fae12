//! Escapes: a text in which a backslash begins a form that stands for bytes, the bytes that such a text stands for, and texts that stand
//! for given bytes.
#![tactic(auto)]

mod escaping;
mod fault;
mod form;
mod piece;
mod unescaping;

pub use escaping::{escape, escape_text};
pub use fault::EscapeFault;
pub use unescaping::unescape;

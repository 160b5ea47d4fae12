//! GS1 element strings: texts in which each application identifier is in brackets, and the bodies of messages that
//! they are drawn as.
#![tactic(auto)]

mod brackets;
mod check;
mod fault;
mod identifiers;
mod parsing;
mod section;
mod showing;
mod slices;
mod value;

pub use check::check_digit;
pub use fault::Gs1Fault;
pub use parsing::parse;
pub use showing::show;

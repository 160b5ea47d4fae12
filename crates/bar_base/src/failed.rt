use std::error::Error;
use std::fmt;

/// The one answer of the outside that isn't Ok: a read, a write or an opening that failed.
#[derive(Debug, Clone, Copy, PartialEq, Eq)]
pub struct Failed;

impl fmt::Display for Failed {
    fn fmt<W: fmt::Write>(&self, f: &mut fmt::Formatter<W>) -> fmt::Result {
        write!(f, "Failed")
    }
}

impl Error for Failed {}

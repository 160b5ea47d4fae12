//! Restoring words of Reed-Solomon codes of which some places are known to be lost.
#![tactic(auto)]

mod gaps;

pub use gaps::{Gaps, decode_lost};
pub use rs_decode::TooDamaged;

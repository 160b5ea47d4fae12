//! The shortest spelling of an Aztec message, and of the shortest the first in dictionary order.
#![tactic(auto)]

mod bench;
mod cheapest;
mod costs;
mod draw;
mod fill;
mod front;
mod lengths;
mod limit;
mod lows;
mod numbers;
mod pick;
mod pick_run;
mod runs;
mod settle;
mod stand;
mod starts;
mod table;
mod window;

pub use bench::{Bench, path_next, shortest};
pub use draw::drawn;
pub use limit::MOST_ELEMENTS;
pub use stand::Stand;

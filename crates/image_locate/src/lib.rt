//! A symbol somewhere in a picture of pixels: where its finder stands, and the grid of its modules.
#![tactic(auto)]

mod cutting;
mod locating;
mod modules_seen;
mod rings;
mod stand;

pub use cutting::cut;
pub use locating::locate;
pub use stand::Stand;

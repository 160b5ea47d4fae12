//! Tests of the crates of Aztec symbols, over their public calls.
#![tactic(auto)]

#[cfg(test)]
mod drawings;
#[cfg(test)]
mod layouts;
#[cfg(test)]
mod readings;
#[cfg(test)]
mod shortest_spellings;
#[cfg(test)]
mod spellings;

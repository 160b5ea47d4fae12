//! The call that the command makes: from its words, its input and its files to a status, the output and the fault line.
#![tactic(auto)]

mod answer;
mod asking;
mod call;
mod content;
mod emit;
mod output;
mod painted;
mod tell;

pub use call::run;

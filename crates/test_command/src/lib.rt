//! Tests of the crates of the command, over their public calls.
#![tactic(auto)]

#[cfg(test)]
mod command_words;
#[cfg(test)]
mod demonstrations;
#[cfg(test)]
mod failing_outside;
#[cfg(test)]
mod memory_calls;
#[cfg(test)]
mod other_readings;
#[cfg(test)]
mod read_reports;

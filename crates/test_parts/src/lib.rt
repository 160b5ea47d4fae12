//! Tests of the lower crates, over their public calls.
#![tactic(auto)]

#[cfg(test)]
mod bitmaps;
#[cfg(test)]
mod character_sets;
#[cfg(test)]
mod check_elements;
#[cfg(test)]
mod code128_values;
#[cfg(test)]
mod corrections;
#[cfg(test)]
mod element_strings;
#[cfg(test)]
mod escapes;
#[cfg(test)]
mod field_elements;
#[cfg(test)]
mod four_state_bars;
#[cfg(test)]
mod lost_elements;
#[cfg(test)]
mod memory_objects;
#[cfg(test)]
mod outside_and_lists;
#[cfg(test)]
mod rows_of_bars;
#[cfg(test)]
mod rows_read;
#[cfg(test)]
mod stands;
#[cfg(test)]
mod written_drawings;

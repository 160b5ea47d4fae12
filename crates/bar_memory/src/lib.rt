//! Sources, sinks and files in memory, of which each call that is to fail is given beforehand: what tests write to and read from.
#![tactic(auto)]

mod front;
mod given_calls;
mod memory_files;
mod memory_sink;
mod memory_source;
mod place;
mod stored_file;
mod stored_files;
mod sure_source;

pub use memory_files::MemoryFiles;
pub use memory_sink::MemorySink;
pub use memory_source::MemorySource;
pub use sure_source::SureSource;

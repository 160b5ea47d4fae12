/// The most elements of a message that a bench takes.
pub const MOST_ELEMENTS: usize = 8192;

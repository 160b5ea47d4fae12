//! How long an input may be, in bytes.

/// The most bytes of data, and of the text of a grid.
pub const MOST_BYTES: usize = 65_536;

/// The most bytes of a BMP picture.
pub const MOST_BMP_BYTES: usize = 33_554_432;

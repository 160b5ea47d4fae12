/// Where a symbol stands in a picture of pixels.
#[derive(Clone, Copy, Debug, PartialEq, Eq)]
pub struct Stand {
    /// The row of the pixel that shows the central module.
    pub y: u32,
    /// The column of this pixel.
    pub x: u32,
    /// The pixels of a module's side, 1 to 64.
    pub u: u32,
    /// Whether the symbol is a full one.
    pub full: bool,
    /// By how many quarter turns, clockwise, the symbol is turned: 0 to 3.
    pub turn: u32,
}

use crate::mode::Mode;

/// One code of a spelling: what stands in the bits up to the next code boundary.
#[derive(Debug, Clone, Copy, PartialEq, Eq)]
pub enum Code {
    /// A latch to the given mode. It spells nothing.
    Latch(Mode),
    /// The data code of this number in the table of the mode.
    Plain(u8),
    /// A shift to the given mode and one data code of its table, by its number.
    Shift(Mode, u8),
    /// FLG(0), after P/S unless the mode is Punct.
    Fnc1,
    /// FLG(n) with an ECI number of n digits, after P/S unless the mode is Punct; n is the second part, 1 to 6.
    Eci(u32, u8),
    /// A binary shift over this many bytes, 1 to 2,078, and whether its length has the long form.
    Run(u32, bool),
}

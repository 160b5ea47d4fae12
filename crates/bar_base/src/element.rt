/// One element of a message: a byte, an extended channel interpretation (ECI) with its number, at most 999,999, or FNC1.
#[derive(Debug, Clone, Copy, PartialEq, Eq)]
pub enum Element {
    /// A byte of the data.
    Byte(u8),
    /// The ECI that holds for the bytes after it.
    Eci(u32),
    /// The function character 1, which parts GS1 element strings.
    Fnc1,
}

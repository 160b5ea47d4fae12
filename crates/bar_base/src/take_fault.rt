use thiserror::Error;

/// Why an input was not taken whole.
#[derive(Debug, Clone, Copy, PartialEq, Eq, Error)]
pub enum TakeFault {
    /// There was no memory for it.
    #[error("NoMemory")]
    NoMemory,
    /// A read failed.
    #[error("Failed")]
    Failed,
    /// It is longer than the limit that counts, which is this number of bytes.
    #[error("TooLong")]
    TooLong(usize),
}

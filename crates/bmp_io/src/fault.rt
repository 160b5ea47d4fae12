//! Why bytes are not read as a BMP.
ghost use Rattle.std.specs.Prelude.{◌≡◌};
ghost use Rattle.bmp_io.specs.declared.fault.BmpFault.TheVariants as fault;

use bar_base::NoMemory;
use thiserror::Error;

/// A field of a BMP's header.
#[derive(Debug, Clone, Copy, PartialEq, Eq)]
pub enum BmpField {
    /// The size of the picture's header.
    Header,
    /// The number of planes.
    Planes,
    /// The bits of a pixel.
    Bits,
    /// The compression.
    Compression,
    /// The width in pixels.
    Width,
    /// The height in pixels.
    Height,
    /// The number of colours, or a pixel's index among them.
    Palette,
}

/// Why bytes are not read as a BMP.
#[derive(Debug, Drop, Error)]
pub enum BmpFault {
    /// There was no memory.
    #[error("NoMemory")]
    NoMemory,
    /// The first two bytes are not `BM`.
    #[error("NotBmp")]
    NotBmp,
    /// The field has a value that is not read.
    #[error("Unsupported")]
    Unsupported(BmpField),
    /// The file ends too early; it has this many bytes.
    #[error("Truncated")]
    Truncated(usize),
    /// The width and height in pixels are not those of a symbol with its white space.
    #[error("BadSize")]
    BadSize(u32, u32),
}

impl From<NoMemory> for BmpFault {
    ghost from_gives = { λ _ e. e ≡ fault.NoMemory };

    fn from(_error: NoMemory) -> BmpFault {
        BmpFault::NoMemory
    }
}

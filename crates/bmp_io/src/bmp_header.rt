//! What the header of a BMP says.
ghost use Rattle.std.specs.Prelude.{◌≡◌, ◌≤◌, ◌<◌, ◌+◌, ◌*◌, ◌^◌, ◌⊎◌, length};
ghost use Rattle.bmp_io.specs.BmpHeader.{field_at, header_of, pixels_high, colours_of, row_size};

use byteorder::{ByteOrder, LittleEndian};

/// The fields of a BMP's header that are looked at, as they stand.
#[derive(Debug, Clone, Copy, PartialEq, Eq)]
pub(crate) struct BmpHeader {
    /// The byte at which the rows of pixels begin.
    pub(crate) pixels: u32,
    /// The size of the picture's header.
    pub(crate) size: u32,
    /// The width in pixels.
    pub(crate) width: u32,
    /// The height in pixels; below zero, as two's complement, for rows from the top.
    pub(crate) height: u32,
    pub(crate) planes: u16,
    /// The bits of a pixel.
    pub(crate) bits: u16,
    pub(crate) compression: u32,
    /// The number of colours, 0 for all.
    pub(crate) colours: u32,
}

/// The number in 4 bytes from `place` on, its low byte first.
fn field_of_4(bytes: &[u8], place: usize) -> u32
    requires { place + 4 ≤ length bytes.now }
    ensures { result ≡ field_at bytes.now place 4 }
{
    LittleEndian::read_u32(&bytes[place..])
}

/// The number in 2 bytes from `place` on, its low byte first.
fn field_of_2(bytes: &[u8], place: usize) -> u16
    requires { place + 2 ≤ length bytes.now }
    ensures { result ≡ field_at bytes.now place 2 }
{
    LittleEndian::read_u16(&bytes[place..])
}

/// The fields of the header.
#[tactic(auto, unfolding(crate::specs::BmpHeader::header_of))]
pub(crate) fn header_of(bytes: &[u8]) -> BmpHeader
    requires { 54 ≤ length bytes.now }
    ensures { result ≡ header_of bytes.now }
{
    BmpHeader {
        pixels: field_of_4(bytes, 10),
        size: field_of_4(bytes, 14),
        width: field_of_4(bytes, 18),
        height: field_of_4(bytes, 22),
        planes: field_of_2(bytes, 26),
        bits: field_of_2(bytes, 28),
        compression: field_of_4(bytes, 30),
        colours: field_of_4(bytes, 46),
    }
}

/// The height in pixels, without its sign.
pub(crate) fn pixels_high(header: BmpHeader) -> u32
    ensures { result ≡ pixels_high header }
{
    if header.height >= 2147483648 {
        (4294967296 - header.height as u64) as u32
    } else {
        header.height
    }
}

/// The colours of the palette.
pub(crate) fn colours(header: BmpHeader) -> u32
    requires { (header.bits ≡ 1) ⊎ (header.bits ≡ 8) ⊎ (header.bits ≡ 24) }
    ensures { result ≡ colours_of header }
{
    if header.bits == 24 {
        0
    } else if header.colours == 0 {
        if header.bits == 1 { 2 } else { 256 }
    } else {
        header.colours
    }
}

/// The bytes of a row of pixels.
pub(crate) fn row_size(header: BmpHeader) -> usize
    requires bits { header.bits ≤ 24 }
    requires width { header.width ≤ 48960 }
    ensures size { result ≡ row_size header }
    ensures bounded { result ≤ 146880 }
{
    (header.width as usize * header.bits as usize + 31) / 32 * 4
}

//! The bytes of a BMP before its pixels.
ghost use Rattle.std.specs.Prelude.{◌≡◌, ◌+◌, ◌≤◌, ◌<◌, ◌++◌, ◌^◌, length};
ghost use Rattle.byteorder.specs.Endian.{little_bytes};
ghost use Rattle.bmp_io.specs.Bmp.{bytes_before_pixels};

use arrayvec::ArrayVec;
use byteorder::{ByteOrder, LittleEndian};

/// How many bytes stand before the pixels.
pub(crate) const HEADER: usize = 62;

/// Puts a number of 32 bits at the end of the header, its low byte first; there is room.
fn put_u32(header: &mut ArrayVec<u8, HEADER>, number: u32)
    requires { length header.old.items + 4 ≤ HEADER }
    ensures { header.new.items ≡ header.old.items ++ little_bytes 4 number }
{
    let mut bytes = [0; 4];
    LittleEndian::write_u32(&mut bytes, number);
    header.try_extend_from_slice(&bytes).unwrap();
}

/// Puts a number of 16 bits at the end of the header, its low byte first; there is room.
fn put_u16(header: &mut ArrayVec<u8, HEADER>, number: u16)
    requires { length header.old.items + 2 ≤ HEADER }
    ensures { header.new.items ≡ header.old.items ++ little_bytes 2 number }
{
    let mut bytes = [0; 2];
    LittleEndian::write_u16(&mut bytes, number);
    header.try_extend_from_slice(&bytes).unwrap();
}

/// All that stands before the pixels of a picture of this width and height in pixels, whose pixels take `size` bytes.
#[tactic(auto, unfolding(crate::specs::Bmp::bytes_before_pixels, crate::specs::Bmp::file_header, crate::specs::Bmp::picture_header))]
pub(crate) fn header_bytes(width: u32, height: u32, size: u32) -> ArrayVec<u8, HEADER>
    requires { 62 + size < 2 ^ 32 }
    ensures { result.items ≡ bytes_before_pixels width height size }
{
    let mut header: ArrayVec<u8, HEADER> = ArrayVec::new();
    header.try_extend_from_slice(b"BM").unwrap();
    put_u32(&mut header, 62 + size);
    put_u32(&mut header, 0);
    put_u32(&mut header, 62);
    put_u32(&mut header, 40);
    put_u32(&mut header, width);
    put_u32(&mut header, height);
    put_u16(&mut header, 1);
    put_u16(&mut header, 1);
    put_u32(&mut header, 0);
    put_u32(&mut header, size);
    put_u32(&mut header, 2835);
    put_u32(&mut header, 2835);
    put_u32(&mut header, 2);
    put_u32(&mut header, 2);
    header
        .try_extend_from_slice(&[255, 255, 255, 0, 0, 0, 0, 0])
        .unwrap();
    header
}

//! The pixels of a BMP that is read.
ghost use Rattle.std.specs.Prelude.{◌≡◌, ◌≤◌, ◌<◌, ◌+◌, ◌*◌, ◌⊎◌, length};
ghost use Rattle.bmp_io.specs.BmpHeader.{IsWhole, colours_of, palette_start, pixels_high, row_size, row_start};
ghost use Rattle.bmp_io.specs.PixelsRead.{colour_index, colour_of, is_dark_at, pixel_at};
ghost use Rattle.bmp_io.specs.ReadBmp.{module_seen, modules_across, modules_down, seen_or_refused};
ghost use Rattle.bmp_io.specs.Refusals.{HasSides};
ghost use Rattle.bmp_io.specs.Samplings.{IsSampling};

use crate::bmp_header::{BmpHeader, colours, pixels_high, row_size};
use crate::fault::{BmpFault, BmpField};
use crate::sampling::Sampling;

/// Whether the module in column `x` and row `y` is dark; a refusal where the index of its pixel is past the palette.
#[tactic(auto, unfolding(crate::specs::ReadBmp::module_seen))]
pub(crate) fn see(
    sampling: Sampling,
    header: BmpHeader,
    bytes: &[u8],
    x: u32,
    y: u32,
) -> Result<bool, BmpFault>
    requires sampling { IsSampling sampling }
    requires whole { IsWhole header bytes.now }
    requires sides { HasSides sampling header }
    requires column { x < modules_across sampling header }
    requires row { y < modules_down sampling header }
    ensures { result ≡ seen_or_refused (module_seen sampling header bytes.now x y) }
{
    let p = sampling.unit * (sampling.white + x) + sampling.inset;
    let q = sampling.unit * (sampling.vwhite + y) + sampling.inset;
    match pixel_at(header, bytes, p, q) {
        Some(dark) => Ok(dark),
        None => Err(BmpFault::Unsupported(BmpField::Palette)),
    }
}

/// Whether the pixel in column `p` and row `q` from the top is dark; None where its index is past the palette.
#[tactic(auto, unfolding(crate::specs::PixelsRead::pixel_at))]
fn pixel_at(header: BmpHeader, bytes: &[u8], p: u32, q: u32) -> Option<bool>
    requires whole { IsWhole header bytes.now }
    requires column { p < header.width }
    requires row { q < pixels_high header }
    ensures { result ≡ pixel_at header bytes.now p q }
{
    let start = row_start(header, bytes, q);
    if header.bits == 24 {
        return Some(is_dark_at(bytes, start + 3 * p as usize));
    }
    colour_of(
        header,
        bytes,
        colour_index(header, bytes, start, p as usize),
    )
}

/// The byte at which the row at `q` from the top begins.
fn row_start(header: BmpHeader, bytes: &[u8], q: u32) -> usize
    requires whole { IsWhole header bytes.now }
    requires row { q < pixels_high header }
    ensures start { result ≡ row_start header q }
    ensures within { result + row_size header ≤ length bytes.now }
{
    let row = if header.height >= 2147483648 {
        q
    } else {
        pixels_high(header) - 1 - q
    };
    header.pixels as usize + row_size(header) * row as usize
}

/// The index of a pixel of 1 or 8 bits, in a row that begins at `start`.
fn colour_index(header: BmpHeader, bytes: &[u8], start: usize, p: usize) -> u32
    requires bits { (header.bits ≡ 1) ⊎ (header.bits ≡ 8) }
    requires column { p < header.width }
    requires row { start + row_size header ≤ length bytes.now }
    ensures { result ≡ colour_index header bytes.now start p }
{
    if header.bits == 1 {
        (bytes[start + p / 8] >> (7 - p % 8)) as u32 % 2
    } else {
        bytes[start + p] as u32
    }
}

/// Whether the colour of an index is dark; None where it is past the palette.
fn colour_of(header: BmpHeader, bytes: &[u8], index: u32) -> Option<bool>
    requires { IsWhole header bytes.now }
    ensures { result ≡ colour_of header bytes.now index }
{
    if index < colours(header) {
        let place = 14 + header.size as usize + 4 * index as usize;
        Some(is_dark_at(bytes, place))
    } else {
        None
    }
}

/// Whether the blue, green and red from `place` on are dark.
fn is_dark_at(bytes: &[u8], place: usize) -> bool
    requires { place + 2 < length bytes.now }
    ensures { result ≡ is_dark_at bytes.now place }
{
    let sum = bytes[place] as u32 + bytes[place + 1] as u32 + bytes[place + 2] as u32;
    sum < 384
}

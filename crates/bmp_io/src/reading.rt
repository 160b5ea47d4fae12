//! From the bytes of a BMP to the grid that it shows.
ghost use Rattle.std.specs.Prelude.{◌≡◌, ◌≤◌, ◌*◌, IfOk, Ok};
ghost use Rattle.bar_base.specs.Paint.{IsPaint};
ghost use Rattle.bar_base.specs.Picture.{IsMatrixSymbol, Picture, row_count};
ghost use Rattle.bar_base.specs.Results.{Gives};
ghost use Rattle.bmp_io.specs.Bmp.{bmp_bytes};
ghost use Rattle.bmp_io.specs.BmpHeader.{IsWhole};
ghost use Rattle.bmp_io.specs.ReadBmp.{picture_at, picture_by, picture_of, pixels_of};
ghost use Rattle.bmp_io.specs.Refusals.{HasSides, bmp_refusal};
ghost use Rattle.bmp_io.specs.Samplings.{IsSampling};

use crate::bmp_header::{BmpHeader, pixels_high};
use crate::fault::BmpFault;
use crate::pixels_read::see;
use crate::refusals::read_header;
use crate::sampling::{Sampling, each_pixel, sampling_of};
use bar_base::{Grid, Paint};
use std::alloc::Global;

/// Reads a BMP of 1, 8 or 24 bits a pixel, without compression, as the grid of at most 151 by 151 modules that was
/// painted so. A module is dark where the blue, green and red of the pixel in its middle sum to less than 384.
///
/// The refusal is the first of these: `NotBmp` where the first two bytes are not `BM`; `Truncated` below 54 bytes;
/// `Unsupported` with the first field that has a value which is not read; `Truncated` where the header or the palette
/// runs past the end; `BadSize` with width and height in pixels, where a side is not whole modules, at least one and at
/// most 151 of them beside the white space; `Truncated` where the rows run past the end; `Unsupported(Palette)` where
/// the pixel in the middle of a module has an index past the palette. `Truncated` has the length in bytes. `NoMemory`
/// may come in place of a grid and of the last refusal.
pub fn read_bmp(alloc: Global, bytes: &[u8], paint: Paint) -> Result<Grid, BmpFault>
    requires { IsPaint paint }
    ensures gives { Gives bmp_refusal (λ grid. grid) result (picture_of paint bytes.now) }

    // A grid of at most 151 by 151 modules with heights of 1 comes back from its BMP.
    ensures back { (picture : Picture) → IsMatrixSymbol picture → bytes.now ≡ bmp_bytes paint picture
        → Gives bmp_refusal (λ grid. grid) result (Ok picture) }
{
    read(alloc, bytes, sampling_of(paint))
}

/// Reads the pixels of a BMP of 1, 8 or 24 bits a pixel, without compression, as a grid of at most 1,024 by 1,024
/// modules, one for each pixel. It is dark where its blue, green and red sum to less than 384.
///
/// The refusals are those of `read_bmp` in their order, with every pixel looked at, and with `BadSize` where width or
/// height is above 1,024.
pub fn read_pixels(alloc: Global, bytes: &[u8]) -> Result<Grid, BmpFault>
    ensures gives { Gives bmp_refusal (λ grid. grid) result (pixels_of bytes.now) }

    // A picture has at most 1,024 by 1,024 pixels.
    ensures small { IfOk result (λ grid. (grid.width ≤ 1024) × (row_count grid ≤ 1024)) }
{
    let grid = read(alloc, bytes, each_pixel())?;
    Ok(grid)
}

/// The steps of reading.
#[tactic(auto, using(crate::proofs::Steps::stepping), unfolding(crate::specs::ReadBmp::picture_by))]
fn read(alloc: Global, bytes: &[u8], sampling: Sampling) -> Result<Grid, BmpFault>
    requires { IsSampling sampling }
    ensures gives { Gives bmp_refusal (λ grid. grid) result (picture_by sampling bytes.now) }
    ensures wide { IfOk result (λ grid. grid.width ≤ sampling.most) }
    ensures high { IfOk result (λ grid. row_count grid ≤ sampling.most) }
{
    let header = read_header(bytes, sampling)?;
    let grid = see_all(alloc, sampling, header, bytes)?;
    Ok(grid)
}

/// The grid of the pixels that are looked at.
fn see_all(
    alloc: Global,
    sampling: Sampling,
    header: BmpHeader,
    bytes: &[u8],
) -> Result<Grid, BmpFault>
    requires sampling { IsSampling sampling }
    requires whole { IsWhole header bytes.now }
    requires sides { HasSides sampling header }
    ensures gives { Gives bmp_refusal (λ grid. grid) result (picture_at sampling header bytes.now) }
    ensures wide { IfOk result (λ grid. grid.width ≤ sampling.most) }
    ensures high { IfOk result (λ grid. row_count grid ≤ sampling.most) }
{
    let width = header.width / sampling.unit - 2 * sampling.white;
    let height = pixels_high(header) / sampling.unit - 2 * sampling.vwhite;
    let mut grid = Grid::new(alloc, width, height)?;
    for n in 0..height * width {
        let dark = see(sampling, header, bytes, n % width, n / width)?;
        grid.set(n % width, n / width, dark);
    }
    Ok(grid)
}

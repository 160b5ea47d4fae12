//! The tests of a BMP that is read, each with its refusal.
ghost use Rattle.std.specs.Prelude.{◌≡◌, ◌≤◌, ◌<◌, ◌+◌, ◌*◌, ◌^◌, ◌⊎◌, true, length, IfOk, OnOk};
ghost use Rattle.bmp_io.specs.BmpHeader.{IsWhole, pixels_high, colours_of, palette_start, row_size};
ghost use Rattle.bmp_io.specs.Refusals.{HasSides, front_read, fields_test, header_read, is_read_depth, is_read_height, is_read_size, is_read_width, is_side, length_test, names_colours, palette_test, rows_test, size_test, verdict};
ghost use Rattle.bmp_io.specs.Samplings.{IsSampling};
ghost use Rattle.bmp_io.specs.declared.fault.BmpFault.TheVariants as fault;

use crate::bmp_header::{BmpHeader, colours, header_of, pixels_high, row_size};
use crate::fault::{BmpFault, BmpField};
use crate::sampling::Sampling;

/// The header of a file that passes all tests of its header and its length, or the refusal of the first that it fails.
#[tactic(auto, using(crate::proofs::Steps::stepping), unfolding(crate::specs::Refusals::header_read))]
pub(crate) fn read_header(bytes: &[u8], sampling: Sampling) -> Result<BmpHeader, BmpFault>
    requires { IsSampling sampling }
    ensures read { result ≡ header_read sampling bytes.now }
    ensures whole { IfOk result (λ header. IsWhole header bytes.now) }
    ensures sides { IfOk result (λ header. HasSides sampling header) }
{
    let header = read_front(bytes)?;
    check_fields(header)?;
    check_palette(header, bytes)?;
    check_size(sampling, header)?;
    check_rows(header, bytes)?;
    Ok(header)
}

/// The header of bytes that begin a BMP and do not end before the header does.
#[tactic(auto, using(crate::proofs::Steps::stepping), unfolding(crate::specs::Refusals::front_read))]
fn read_front(bytes: &[u8]) -> Result<BmpHeader, BmpFault>
    ensures { result ≡ front_read bytes.now }
{
    if !bytes.starts_with(b"BM") {
        return Err(BmpFault::NotBmp);
    }
    check_length(bytes, 54)?;
    Ok(header_of(bytes))
}

/// Refuses a file that ends before the byte `end`.
fn check_length(bytes: &[u8], end: usize) -> Result<(), BmpFault>
    ensures test { result ≡ length_test bytes.now end }
    ensures long { OnOk result (end ≤ length bytes.now) }
{
    if bytes.len() < end {
        return Err(BmpFault::Truncated(bytes.len()));
    }
    Ok(())
}

/// Refuses the field where its value is not read.
fn check_field(is_read: bool, field: BmpField) -> Result<(), BmpFault>
    ensures test { result ≡ verdict is_read (fault.Unsupported field) }
    ensures read { OnOk result (is_read ≡ true) }
{
    if !is_read {
        return Err(BmpFault::Unsupported(field));
    }
    Ok(())
}

/// Refuses a field with a value that is not read.
#[tactic(auto, using(crate::proofs::Steps::stepping), unfolding(crate::specs::Refusals::fields_test))]
fn check_fields(header: BmpHeader) -> Result<(), BmpFault>
    ensures test { result ≡ fields_test header }
    ensures bits { OnOk result ((header.bits ≡ 1) ⊎ (header.bits ≡ 8) ⊎ (header.bits ≡ 24)) }
    ensures size { OnOk result (header.size ≤ 124) }
    ensures colours { OnOk result (colours_of header ≤ 256) }
{
    check_field(is_read_size(header.size), BmpField::Header)?;
    check_field(header.planes == 1, BmpField::Planes)?;
    check_field(is_read_depth(header.bits), BmpField::Bits)?;
    check_field(header.compression == 0, BmpField::Compression)?;
    check_field(is_read_width(header.width), BmpField::Width)?;
    check_field(is_read_height(header.height), BmpField::Height)?;
    check_field(names_colours(header), BmpField::Palette)?;
    Ok(())
}

/// Whether a header of this size is read.
fn is_read_size(size: u32) -> bool
    ensures { result ≡ is_read_size size }
{
    size == 40 || size == 108 || size == 124
}

/// Whether pixels of so many bits are read.
fn is_read_depth(bits: u16) -> bool
    ensures { result ≡ is_read_depth bits }
{
    bits == 1 || bits == 8 || bits == 24
}

/// Whether the width is above 0, as two's complement.
fn is_read_width(width: u32) -> bool
    ensures { result ≡ is_read_width width }
{
    0 < width && width < 2147483648
}

/// Whether the height is neither 0 nor, as two's complement, the least number.
fn is_read_height(height: u32) -> bool
    ensures { result ≡ is_read_height height }
{
    height != 0 && height != 2147483648
}

/// Whether there are no more colours than the bits of a pixel can name.
fn names_colours(header: BmpHeader) -> bool
    requires { (header.bits ≡ 1) ⊎ (header.bits ≡ 8) ⊎ (header.bits ≡ 24) }
    ensures { result ≡ names_colours header }
{
    match header.bits {
        1 => header.colours <= 2,
        8 => header.colours <= 256,
        _ => true,
    }
}

/// Refuses a file that ends in the header or the palette.
#[tactic(auto, unfolding(crate::specs::Refusals::palette_test))]
fn check_palette(header: BmpHeader, bytes: &[u8]) -> Result<(), BmpFault>
    requires bits { (header.bits ≡ 1) ⊎ (header.bits ≡ 8) ⊎ (header.bits ≡ 24) }
    requires size { header.size ≤ 124 }
    requires colours { colours_of header ≤ 256 }
    ensures test { result ≡ palette_test header bytes.now }
    ensures within { OnOk result (palette_start header + 4 * colours_of header ≤ length bytes.now) }
{
    check_length(
        bytes,
        14 + header.size as usize + 4 * colours(header) as usize,
    )
}

/// Whether a side of so many pixels is whole modules, the white space and 1 to so many modules between.
fn is_side(unit: u32, white: u32, most: u32, pixels: u32) -> bool
    requires unit { 0 < unit }
    requires white { white ≤ 100 }
    requires most { most ≤ 1024 }
    ensures { result ≡ is_side unit white most pixels }
{
    let modules = pixels / unit;
    pixels % unit == 0 && modules > 2 * white && modules <= 2 * white + most
}

/// Refuses a picture whose sides are not whole modules, or have more of them than are read.
#[tactic(auto, unfolding(crate::specs::Refusals::size_test))]
fn check_size(sampling: Sampling, header: BmpHeader) -> Result<(), BmpFault>
    requires { IsSampling sampling }
    ensures test { result ≡ size_test sampling header }
    ensures sides { OnOk result (HasSides sampling header) }
{
    let height = pixels_high(header);
    if is_side(sampling.unit, sampling.white, sampling.most, header.width)
        && is_side(sampling.unit, sampling.vwhite, sampling.most, height)
    {
        return Ok(());
    }
    Err(BmpFault::BadSize(header.width, height))
}

/// Refuses a file that ends in the rows of pixels.
#[tactic(auto, unfolding(crate::specs::Refusals::rows_test))]
fn check_rows(header: BmpHeader, bytes: &[u8]) -> Result<(), BmpFault>
    requires bits { header.bits ≤ 24 }
    requires width { header.width ≤ 48960 }
    requires height { pixels_high header ≤ 48960 }
    ensures test { result ≡ rows_test header bytes.now }
    ensures within { OnOk result (header.pixels + row_size header * pixels_high header ≤ length bytes.now) }
{
    check_length(
        bytes,
        header.pixels as usize + row_size(header) * pixels_high(header) as usize,
    )
}

ghost use Rattle.bar_base.specs.Paint.{IsPaint};

use bar_base::{Grid, NoMemory, Paint, modules_high};
use bar_memory::MemorySink;
use bmp_io::{BmpFault, BmpField, read_bmp, read_pixels, stride, write_bmp};
use std::alloc::{AllocError, Global};
use std::test::Fail;

const PLAIN: Paint = Paint {
    scale: 1,
    white: 0,
    vwhite: 0,
};

/// The modules of the rune 0, row by row.
const RUNE_0: &[u8; 121] =
    b"1110101010111111111111010000000101101111101101010001010110101010110101000101011011111011010000000100111111111100101010100";

/// The BMP of the rune up to its first row of pixels, which is the last row of the rune.
const RUNE_BEGINS: [u8; 66] = [
    0x42, 0x4D, 0x96, 0, 0, 0, 0, 0, 0, 0, 0x3E, 0, 0, 0, 0x28, 0, 0, 0, 22, 0, 0, 0, 22, 0, 0, 0,
    1, 0, 1, 0, 0, 0, 0, 0, 0x58, 0, 0, 0, 0x13, 0x0B, 0, 0, 0x13, 0x0B, 0, 0, 2, 0, 0, 0, 2, 0, 0,
    0, 0xFF, 0xFF, 0xFF, 0, 0, 0, 0, 0, 0x0C, 0xCC, 0xC0, 0,
];

fn rune(alloc: Global) -> Result<Grid, NoMemory> {
    let mut grid = Grid::new(alloc, 11, 11)?;
    for n in 0..121 {
        if n % 11 < grid.width() && n / 11 < grid.rows() {
            grid.set(n % 11, n / 11, RUNE_0[n as usize] == b'1');
        }
    }
    Ok(grid)
}

/// A sink to which the BMP of a small grid was written, and whether all was.
fn written(alloc: Global, grid: &Grid, fails: &[u64]) -> Result<(MemorySink, bool), NoMemory> {
    let mut sink = MemorySink::new(alloc, 200, fails)?;
    let mut row = [0; 20];
    if stride(grid, PLAIN) > 20 || modules_high(grid) > 200 {
        return Ok((sink, false));
    }
    let whole = write_bmp(&mut sink, grid, PLAIN, &mut row).is_ok();
    Ok((sink, whole))
}

#[test]
fn a_rune_is_written_and_comes_back(rt: HostRuntime) -> Result<(), Fail> {
    let (sink, whole) = written(rt.alloc(), &rune(rt.alloc())?, &[])?;
    assert!(rt; whole);
    assert_eq!(rt; sink.bytes().len(), 150);
    assert!(rt; sink.bytes().starts_with(&RUNE_BEGINS));
    assert!(rt; sink.bytes().ends_with(&[0xFC, 0xCC, 0xCC, 0]));
    let grid = read_bmp(rt.alloc(), sink.bytes(), PLAIN)?;
    let (again, whole) = written(rt.alloc(), &grid, &[])?;
    assert!(rt; whole);
    assert_eq!(rt; again.bytes(), sink.bytes());
    Ok(())
}

#[test]
fn a_failing_write_leaves_a_prefix(rt: HostRuntime) -> Result<(), Fail> {
    let (sink, whole) = written(rt.alloc(), &rune(rt.alloc())?, &[3])?;
    assert!(rt; !whole);
    assert_eq!(rt; sink.bytes().len(), 70);
    assert!(rt; sink.bytes().starts_with(&RUNE_BEGINS));
    Ok(())
}

/// A file of so many bytes, of which these stand at these places, and the others are 0.
fn file_of(alloc: Global, length: usize, parts: &[(usize, u8)]) -> Result<Vec<u8>, AllocError> {
    let mut bytes = vec![in alloc; 0; length]?;
    for (place, byte) in parts {
        if *place < bytes.len() {
            bytes[*place] = *byte;
        }
    }
    Ok(bytes)
}

/// 24 bits a pixel, a header of 124 bytes, 4 by 4 pixels from the top. Of the four pixels in the middle of a module the
/// first is just light, the second just dark, the third black and the last white.
const COLOURED: [(usize, u8); 19] = [
    (0, b'B'),
    (1, b'M'),
    (10, 138),
    (14, 124),
    (18, 4),
    (22, 0xFC),
    (23, 0xFF),
    (24, 0xFF),
    (25, 0xFF),
    (26, 1),
    (28, 24),
    (153, 128),
    (154, 128),
    (155, 128),
    (159, 255),
    (160, 128),
    (183, 255),
    (184, 255),
    (185, 255),
];

/// 8 bits a pixel, a header of 108 bytes, a palette of black, white and the lightest dark colour, 4 by 4 pixels from the
/// bottom, which begin two bytes behind the palette: the same modules.
const INDEXED: [(usize, u8); 18] = [
    (0, b'B'),
    (1, b'M'),
    (10, 136),
    (14, 108),
    (18, 4),
    (22, 4),
    (26, 1),
    (28, 8),
    (46, 3),
    (126, 255),
    (127, 255),
    (128, 255),
    (130, 127),
    (131, 128),
    (132, 128),
    (145, 1),
    (147, 2),
    (139, 1),
];

/// Light and dark above dark and light.
fn is_as_painted(grid: &Grid) -> bool {
    if grid.width() != 2 || grid.rows() != 2 {
        return false;
    }
    !grid.dark(0, 0) && grid.dark(1, 0) && grid.dark(0, 1) && !grid.dark(1, 1)
}

#[test]
fn colours_and_palettes_are_read(rt: HostRuntime) -> Result<(), Fail> {
    let coloured = file_of(rt.alloc(), 186, &COLOURED)?;
    assert!(rt; is_as_painted(&read_bmp(rt.alloc(), &coloured, PLAIN)?));
    let indexed = file_of(rt.alloc(), 152, &INDEXED)?;
    assert!(rt; is_as_painted(&read_bmp(rt.alloc(), &indexed, PLAIN)?));
    Ok(())
}

/// How many of the modules are light.
fn light_count(grid: &Grid) -> u32 {
    let mut count = 0_u32;
    for n in 0..grid.width() * grid.rows() {
        if !grid.dark(n % grid.width(), n / grid.width()) {
            count = count.saturating_add(1);
        }
    }
    count
}

#[test]
fn every_pixel_is_read(rt: HostRuntime) -> Result<(), Fail> {
    let mut bytes = file_of(rt.alloc(), 152, &INDEXED)?;
    let grid = read_pixels(rt.alloc(), &bytes)?;
    assert_eq!(rt; grid.width(), 4);
    assert_eq!(rt; grid.rows(), 4);
    assert_eq!(rt; light_count(&grid), 2);
    assert!(rt; !grid.dark(1, 1));
    assert!(rt; !grid.dark(3, 3));
    if bytes.len() > 19 {
        bytes[19] = 4;
    }
    assert!(rt;
        matches!(
            &read_pixels(rt.alloc(), &bytes),
            Err(BmpFault::BadSize(1028, 4))
        )
    );
    Ok(())
}

/// Whether the file of 8 bits a pixel, with this byte at this place, is refused so.
fn refuses(alloc: Global, place: usize, byte: u8, field: BmpField) -> Result<bool, AllocError> {
    let mut bytes = file_of(alloc, 152, &INDEXED)?;
    if place < bytes.len() {
        bytes[place] = byte;
    }
    match read_bmp(alloc, &bytes, PLAIN) {
        Err(BmpFault::Unsupported(refused)) => Ok(refused == field),
        _ => Ok(false),
    }
}

#[test]
fn fields_are_refused(rt: HostRuntime) -> Result<(), Fail> {
    assert!(rt; refuses(rt.alloc(), 14, 12, BmpField::Header)?);
    assert!(rt; refuses(rt.alloc(), 26, 2, BmpField::Planes)?);
    assert!(rt; refuses(rt.alloc(), 28, 4, BmpField::Bits)?);
    assert!(rt; refuses(rt.alloc(), 30, 1, BmpField::Compression)?);
    assert!(rt; refuses(rt.alloc(), 21, 0x80, BmpField::Width)?);
    assert!(rt; refuses(rt.alloc(), 22, 0, BmpField::Height)?);
    assert!(rt; refuses(rt.alloc(), 47, 1, BmpField::Palette)?);
    assert!(rt; refuses(rt.alloc(), 139, 3, BmpField::Palette)?);
    Ok(())
}

/// The length that the first bytes of the file of 8 bits a pixel are too short with.
fn too_short(alloc: Global, length: usize, paint: Paint) -> Result<Option<usize>, AllocError>
    requires { IsPaint paint }
{
    let bytes = file_of(alloc, length, &INDEXED)?;
    match read_bmp(alloc, &bytes, paint) {
        Err(BmpFault::Truncated(length)) => Ok(Some(length)),
        _ => Ok(None),
    }
}

#[test]
fn files_are_refused(rt: HostRuntime) -> Result<(), Fail> {
    let alloc = rt.alloc();
    let bytes = file_of(alloc, 151, &INDEXED)?;
    let wide = Paint { scale: 2, ..PLAIN };
    let white = Paint { vwhite: 1, ..PLAIN };
    assert!(rt; matches!(&read_bmp(alloc, b"B", PLAIN), Err(BmpFault::NotBmp)));
    assert_eq!(rt; too_short(alloc, 53, PLAIN)?, Some(53));
    assert_eq!(rt; too_short(alloc, 133, wide)?, Some(133));
    assert!(rt;
        matches!(
            &read_bmp(alloc, &bytes, white),
            Err(BmpFault::BadSize(4, 4))
        )
    );
    assert_eq!(rt; too_short(alloc, 151, PLAIN)?, Some(151));
    Ok(())
}

//! A worked symbol, painted in a larger picture as it stands and turned.
ghost use Rattle.std.specs.Prelude.{◌≡◌, ◌≤◌, false};
ghost use Rattle.image_locate.specs.Stands.{IsStand};

use aztec_layout::Size;
use bar_base::{Grid, NoMemory};
use image_locate::{Stand, cut, locate};
use std::alloc::Global;
use std::test::Fail;

// The symbol of one layer that says `Code 2D!`.
const LINES: [&[u8; 15]; 15] = [
    b"000110001100000",
    b"000000110000010",
    b"101100001000101",
    b"011111111111100",
    b"111100000001101",
    b"000101111101100",
    b"100101000101111",
    b"001101010101001",
    b"001101000101010",
    b"010101111101001",
    b"100100000001011",
    b"100111111111101",
    b"010001100010010",
    b"011000011011010",
    b"111001101100000",
];

// Whether a module of the symbol is dark; light outside.
fn is_dark(x: u32, y: u32) -> bool {
    match LINES.get(y as usize) {
        Some(line) => line.get(x as usize) == Some(&b'1'),
        None => false,
    }
}

// The symbol with 2 pixels a module, and white space of 3 modules at the sides and of 5 above and below; as it stands, or turned
// clockwise by one quarter.
fn painted(alloc: Global, is_turned: bool) -> Result<Grid, NoMemory> {
    let mut grid = Grid::new(alloc, 42, 50)?;
    for n in 0..2100u32 {
        let p: u32 = n % 42;
        let q: u32 = n / 42;
        let (x, y) = ((p / 2).wrapping_sub(3), (q / 2).wrapping_sub(5));
        let dark = if is_turned {
            is_dark(y, 14_u32.wrapping_sub(x))
        } else {
            is_dark(x, y)
        };
        if p < grid.width() && q < grid.rows() {
            grid.set(p, q, dark);
        }
    }
    Ok(grid)
}

// The first stand in a picture of at most 1,024 by 1,024 pixels.
fn found(picture: &Grid) -> Option<Stand> {
    if picture.width() > 1024 || picture.rows() > 1024 {
        return None;
    }
    locate(picture)
}

const UPRIGHT: Stand = Stand {
    y: 24,
    x: 20,
    u: 2,
    full: false,
    turn: 0,
};

const TURNED: Stand = Stand { turn: 1, ..UPRIGHT };

#[test]
fn finds_a_symbol_however_it_is_turned(rt: HostRuntime) -> Result<(), Fail> {
    assert_eq!(rt; found(&painted(rt.alloc(), false)?), Some(UPRIGHT));
    assert_eq!(rt; found(&painted(rt.alloc(), true)?), Some(TURNED));
    assert_eq!(rt; found(&Grid::new(rt.alloc(), 40, 40)?), None);
    Ok(())
}

// Whether the cut of so many layers is the symbol, with so many light modules round it.
fn cuts_out(alloc: Global, stand: Stand, layers: u32, margin: u32) -> Result<bool, NoMemory>
    requires ranged { IsStand stand }
    requires kind { stand.full ≡ false }
    requires layers { (1 ≤ layers) × (layers ≤ 4) }
{
    let picture = painted(alloc, stand.turn == 1)?;
    match cut(
        alloc,
        &picture,
        stand,
        Size {
            full: false,
            layers,
        },
    )? {
        None => Ok(false),
        Some(grid) => {
            for n in 0..grid.width() * grid.rows() {
                let (x, y) = (n % grid.width(), n / grid.width());
                if grid.dark(x, y) != is_dark(x.wrapping_sub(margin), y.wrapping_sub(margin)) {
                    return Ok(false);
                }
            }
            Ok(true)
        }
    }
}

#[test]
fn cuts_a_symbol_out(rt: HostRuntime) -> Result<(), Fail> {
    assert!(rt; cuts_out(rt.alloc(), UPRIGHT, 1, 0)?);
    assert!(rt; cuts_out(rt.alloc(), TURNED, 1, 0)?);
    assert!(rt; cuts_out(rt.alloc(), TURNED, 2, 2)?);
    assert!(rt; !cuts_out(rt.alloc(), UPRIGHT, 3, 4)?);
    Ok(())
}

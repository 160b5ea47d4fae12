//! A worked symbol, and a version that holds what it holds, by hand.

ghost use Rattle.aztec_layout.specs.Allowed.{CanBeAsked};

use aztec_draw::{AztecSymbol, DrawFault, draw_elements};
use aztec_layout::{Allowed, NoFit, Size};
use bar_base::{Bits, Element, Elements, Grid};
use std::alloc::Global;
use std::process::Abort;
use std::test::Fail;

const COMPACT_ONE: Size = Size {
    full: false,
    layers: 1,
};

const WORKED_BITS: &[u8; 56] = b"00100111001000000101001101111000010100111100101000000110";

const WORKED_LINES: [&[u8; 15]; 15] = [
    b"000110001100000",
    b"000000110000010",
    b"101100001000101",
    b"011111111111100",
    b"111100000001101",
    b"000101111101100",
    b"100101000101111",
    b"001101010101001",
    b"001101000101010",
    b"010101111101001",
    b"100100000001011",
    b"100111111111101",
    b"010001100010010",
    b"011000011011010",
    b"111001101100000",
];

fn draw_bytes<R: Abort>(
    rt: &R,
    alloc: Global,
    bytes: &[u8],
    allowed: Allowed,
) -> Result<AztecSymbol, DrawFault>
    requires { CanBeAsked allowed }
{
    let mut elements = Elements::new(alloc);
    for byte in bytes {
        elements.push(Element::Byte(*byte))?;
    }
    assert!(rt; !elements.is_empty() && elements.len() <= 8192);
    draw_elements(alloc, false, &elements, allowed)
}

fn has_bits(bits: &Bits, expected: &[u8]) -> bool {
    if bits.len() != expected.len() {
        return false;
    }
    for (at, character) in expected.iter().enumerate() {
        if bits.get(at) != Some(*character == b'1') {
            return false;
        }
    }
    true
}

fn shows_line(grid: &Grid, y: u32, line: &[u8]) -> bool {
    if y >= grid.rows() || grid.width() as usize != line.len() {
        return false;
    }
    for x in 0..grid.width() {
        if grid.dark(x, y) != (line[x as usize] == b'1') {
            return false;
        }
    }
    true
}

#[test]
fn worked_symbol(rt: HostRuntime) -> Result<(), Fail> {
    let symbol = draw_bytes(&rt, rt.alloc(), b"Code 2D!", Allowed::of(23, None))?;
    assert!(rt; has_bits(&symbol.spelling, WORKED_BITS));
    assert_eq!(rt; symbol.size, COMPACT_ONE);
    assert_eq!(rt; symbol.held, 10);
    assert_eq!(rt; symbol.grid.rows(), 15);
    for (y, line) in WORKED_LINES.iter().enumerate() {
        assert!(rt; y < 15 && shows_line(&symbol.grid, y as u32, *line));
    }
    Ok(())
}

// 16 letters have 80 bits, 14 codewords of 6 bits; 17 have 85, one codeword more. Compact 1 has 17 codewords.
#[test]
fn version_with_any_share_holds_all_but_three(rt: HostRuntime) -> Result<(), Fail> {
    let symbol = draw_bytes(
        &rt,
        rt.alloc(),
        b"AAAAAAAAAAAAAAAA",
        Allowed::of(50, Some(1)),
    )?;
    assert_eq!(rt; symbol.held, 14);
    match draw_bytes(
        &rt,
        rt.alloc(),
        b"AAAAAAAAAAAAAAAAA",
        Allowed::of(50, Some(1)),
    ) {
        Err(DrawFault::NoFit(misfit)) => {
            assert_eq!(rt;
                misfit,
                NoFit {
                    needed: 15,
                    last: COMPACT_ONE,
                    held: 14
                }
            );
        }
        _ => assert!(rt; false),
    }
    Ok(())
}

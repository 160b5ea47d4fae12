use bar_base::{Failed, Grid, NoMemory, Paint, StdSink};
use std::alloc::Global;
use std::test::Fail;
use vector_out::{write_eps, write_grid, write_svg};

/// Two rows of eleven modules: the first of the rune 0, and one that ends dark.
const LINES: &[u8; 24] = b"11101010101\n01000000011\n";

/// The drawing of these rows, the second three modules high, at scale 1 without white space.
const SVG: &[u8; 581] = b"<?xml version=\"1.0\" encoding=\"UTF-8\"?>\n\
<svg xmlns=\"http://www.w3.org/2000/svg\" width=\"22\" height=\"8\" viewBox=\"0 0 22 8\">\n\
<rect x=\"0\" y=\"0\" width=\"22\" height=\"8\" fill=\"#FFFFFF\"/>\n\
<rect x=\"0\" y=\"0\" width=\"6\" height=\"2\" fill=\"#000000\"/>\n\
<rect x=\"8\" y=\"0\" width=\"2\" height=\"2\" fill=\"#000000\"/>\n\
<rect x=\"12\" y=\"0\" width=\"2\" height=\"2\" fill=\"#000000\"/>\n\
<rect x=\"16\" y=\"0\" width=\"2\" height=\"2\" fill=\"#000000\"/>\n\
<rect x=\"20\" y=\"0\" width=\"2\" height=\"2\" fill=\"#000000\"/>\n\
<rect x=\"2\" y=\"2\" width=\"2\" height=\"6\" fill=\"#000000\"/>\n\
<rect x=\"18\" y=\"2\" width=\"4\" height=\"6\" fill=\"#000000\"/>\n\
</svg>\n";

/// The same with a light module left and right, and two above and below.
const EPS: &[u8; 237] = b"%!PS-Adobe-3.0 EPSF-3.0\n\
%%BoundingBox: 0 0 26 16\n\
%%EndComments\n\
1 setgray 0 0 26 16 rectfill\n\
0 setgray\n\
2 10 6 2 rectfill\n\
10 10 2 2 rectfill\n\
14 10 2 2 rectfill\n\
18 10 2 2 rectfill\n\
22 10 2 2 rectfill\n\
4 4 2 6 rectfill\n\
20 4 4 6 rectfill\n\
%%EOF\n";

/// The modules of the lines.
const MODULES: [bool; 22] = [
    true, true, true, false, true, false, true, false, true, false, true, //
    false, true, false, false, false, false, false, false, false, true, true,
];

/// The grid of the lines, the second row three modules high.
fn drawn(alloc: Global) -> Result<Grid, NoMemory> {
    let modules = Vec::from_slice(alloc, MODULES.as_slice())?;
    Grid::of_rows(alloc, 11, &[1, 3], modules)
}

/// Scale 1, without white space.
const BARE: Paint = Paint {
    scale: 1,
    white: 0,
    vwhite: 0,
};

/// Scale 1, a light module left and right, and two above and below.
const WHITE: Paint = Paint {
    scale: 1,
    white: 1,
    vwhite: 2,
};

#[test]
fn a_grid_is_written_as_lines(rt: HostRuntime) -> Result<(), Fail> {
    let grid = drawn(rt.alloc())?;
    let mut room = [0; 24];
    {
        let mut sink = StdSink::new(room.as_mut_slice());
        assert_eq!(rt; write_grid(&mut sink, &grid), Ok(()));
    }
    assert_eq!(rt; room.as_slice(), LINES.as_slice());
    Ok(())
}

#[test]
fn a_dark_run_is_a_rectangle_of_an_svg(rt: HostRuntime) -> Result<(), Fail> {
    let grid = drawn(rt.alloc())?;
    let mut room = [0; 581];
    {
        let mut sink = StdSink::new(room.as_mut_slice());
        assert_eq!(rt; write_svg(&mut sink, &grid, BARE), Ok(()));
    }
    assert_eq!(rt; room.as_slice(), SVG.as_slice());
    Ok(())
}

#[test]
fn an_eps_counts_from_the_bottom(rt: HostRuntime) -> Result<(), Fail> {
    let grid = drawn(rt.alloc())?;
    let mut room = [0; 237];
    {
        let mut sink = StdSink::new(room.as_mut_slice());
        assert_eq!(rt; write_eps(&mut sink, &grid, WHITE), Ok(()));
    }
    assert_eq!(rt; room.as_slice(), EPS.as_slice());
    Ok(())
}

#[test]
fn a_full_writer_refuses(rt: HostRuntime) -> Result<(), Fail> {
    let grid = drawn(rt.alloc())?;
    let mut room = [0; 30];
    {
        let mut sink = StdSink::new(room.as_mut_slice());
        assert_eq!(rt; write_eps(&mut sink, &grid, WHITE), Err(Failed));
    }
    assert_eq!(rt; room.as_slice(), &EPS[..30]);
    Ok(())
}

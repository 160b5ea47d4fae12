//! A worked symbol of ISO/IEC 24778, whole and damaged, and texts by hand.

use bar_base::{Element, Grid};
use std::alloc::Global;
use std::process::Abort;
use std::test::Fail;
use symbol_reader::{GridFault, Reading, TextFault, parse_grid, read_grid};

// The symbol that says `Code 2D!`, compact with one layer, 10 data codewords and 7 check codewords.
const WORKED: &[u8] = b"000110001100000
000000110000010
101100001000101
011111111111100
111100000001101
000101111101100
100101000101111
001101010101001
001101000101010
010101111101001
100100000001011
100111111111101
010001100010010
011000011011010
111001101100000
";

// The rune of 0.
const RUNE: &[u8] = b"11101010101
11111111111
01000000010
11011111011
01010001010
11010101011
01010001010
11011111011
01000000010
01111111111
00101010100
";

// The picture of a text.
fn grid_of<R: Abort>(rt: &R, alloc: Global, text: &[u8]) -> Result<Grid, Fail> {
    assert!(rt; text.len() <= 65536);
    match parse_grid(alloc, text) {
        Ok(grid) => Ok(grid),
        Err(_) => Err(Fail::from("no grid")),
    }
}

// The worked symbol with these modules turned, each by its column and row.
fn turned<R: Abort>(rt: &R, alloc: Global, places: &[(u32, u32)]) -> Result<Grid, Fail> {
    let mut grid = grid_of(rt, alloc, WORKED)?;
    for place in places {
        let (x, y) = *place;
        assert!(rt; x < grid.width() && y < grid.rows());
        let dark = grid.dark(x, y);
        grid.set(x, y, !dark);
    }
    Ok(grid)
}

// Whether a reading is of the worked symbol, with so many codewords corrected.
fn says(reading: &Reading, corrected: u32) -> bool {
    let text = b"Code 2D!";
    let body = &reading.message.body;
    if body.len() != text.len() {
        return false;
    }
    for (at, byte) in text.iter().enumerate() {
        if body.get(at) != Some(Element::Byte(*byte)) {
            return false;
        }
    }
    let plain = reading.message.append.is_none() && !reading.message.gs1;
    let size = !reading.size.full && reading.size.layers == 1;
    let counts = reading.held == 10 && reading.check == 7 && reading.corrected == corrected;
    plain && reading.message.eci.is_none() && size && counts
}

// Whether the worked symbol reads with these modules turned, with so many codewords corrected.
fn reads<R: Abort>(
    rt: &R,
    alloc: Global,
    places: &[(u32, u32)],
    corrected: u32,
) -> Result<bool, Fail> {
    let grid = turned(rt, alloc, places)?;
    match read_grid(alloc, &grid) {
        Ok(reading) => Ok(says(&reading, corrected)),
        Err(_) => Ok(false),
    }
}

#[test]
fn reads_with_half_of_its_check_words_wrong(rt: HostRuntime) -> Result<(), Fail> {
    assert!(rt; reads(&rt, rt.alloc(), &[], 0)?);
    assert!(rt; reads(&rt, rt.alloc(), &[(0, 1), (0, 4), (0, 7)], 3)?);
    assert!(rt; reads(&rt, rt.alloc(), &[(4, 2)], 0)?);
    let in_both = [(4, 2), (8, 2), (0, 1), (0, 4), (0, 7)];
    assert!(rt; reads(&rt, rt.alloc(), &in_both, 3)?);
    Ok(())
}

#[test]
fn names_what_keeps_it_from_being_read(rt: HostRuntime) -> Result<(), Fail> {
    let damaged = turned(&rt, rt.alloc(), &[(0, 1), (0, 4), (0, 7), (0, 10)])?;
    let answer = read_grid(rt.alloc(), &damaged);
    assert!(rt; matches!(&answer, Err(GridFault::TooDamaged(17, 7))));
    let broken = turned(&rt, rt.alloc(), &[(7, 7)])?;
    let answer = read_grid(rt.alloc(), &broken);
    assert!(rt; matches!(&answer, Err(GridFault::NoFinder(7, 7))));
    let rune = grid_of(&rt, rt.alloc(), RUNE)?;
    let answer = read_grid(rt.alloc(), &rune);
    assert!(rt; matches!(&answer, Err(GridFault::BadSide(11, 11))));
    let light = Grid::new(rt.alloc(), 20, 20)?;
    let answer = read_grid(rt.alloc(), &light);
    assert!(rt; matches!(&answer, Err(GridFault::BadSide(20, 20))));
    Ok(())
}

#[test]
fn names_mode_words_that_are_too_far(rt: HostRuntime) -> Result<(), Fail> {
    let grid = turned(&rt, rt.alloc(), &[(4, 2), (8, 2), (12, 5)])?;
    let Err(GridFault::BadMode(words)) = read_grid(rt.alloc(), &grid) else {
        return Err(Fail::from("no bad mode"));
    };
    assert!(rt; words.as_slice() == [8u8, 1, 4, 2, 3, 1, 9].as_slice());
    Ok(())
}

// Whether a text is refused at this place.
fn is_bad_at(alloc: Global, text: &[u8], place: usize) -> bool {
    if text.len() > 65536 {
        return false;
    }
    match parse_grid(alloc, text) {
        Err(TextFault::BadText(at)) => at == place,
        _ => false,
    }
}

#[test]
fn texts_of_two_rows_and_of_none(rt: HostRuntime) -> Result<(), Fail> {
    for text in [b"10\n01\n".as_slice(), b"10\r\n01", b"10\r\n01\r\n"] {
        let grid = grid_of(&rt, rt.alloc(), text)?;
        assert!(rt; grid.width() == 2 && grid.rows() == 2);
        assert!(rt; grid.dark(0, 0) && !grid.dark(1, 0) && !grid.dark(0, 1) && grid.dark(1, 1));
    }
    assert!(rt; is_bad_at(rt.alloc(), b"", 0));
    assert!(rt; is_bad_at(rt.alloc(), b"10\n1", 4));
    assert!(rt; is_bad_at(rt.alloc(), b"10\n101", 5));
    assert!(rt; is_bad_at(rt.alloc(), b"10\n\n", 3));
    assert!(rt; is_bad_at(rt.alloc(), b"10\r", 3));
    assert!(rt; is_bad_at(rt.alloc(), b"10\r1", 3));
    Ok(())
}

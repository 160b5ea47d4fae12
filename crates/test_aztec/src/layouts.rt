//! Worked symbols, and values by hand.

use aztec_layout::{
    Allowed, Needs, NoFit, Size, WordFault, codewords, codewords_read, draw, finder, fit,
    mode_read, mode_words, needs, place, rune, rune_words, side, smallest, stuff, unstuff, width,
};
use bar_base::{Bits, Grid, NoMemory, Words};
use std::alloc::Global;
use std::process::Abort;
use std::test::Fail;

const COMPACT_ONE: Size = Size {
    full: false,
    layers: 1,
};

// The codewords of the worked symbol that says `Code 2D!`, data and check.
const WORKED: [u16; 17] = [
    9, 50, 1, 41, 47, 2, 39, 37, 1, 27, 38, 50, 8, 16, 10, 20, 40,
];

const WORKED_LINES: [&[u8; 15]; 15] = [
    b"000110001100000",
    b"000000110000010",
    b"101100001000101",
    b"011111111111100",
    b"111100000001101",
    b"000101111101100",
    b"100101000101111",
    b"001101010101001",
    b"001101000101010",
    b"010101111101001",
    b"100100000001011",
    b"100111111111101",
    b"010001100010010",
    b"011000011011010",
    b"111001101100000",
];

fn words_of(alloc: Global, numbers: &[u16]) -> Result<Words, NoMemory> {
    let mut words = Words::new(alloc);
    for number in numbers {
        words.push(*number)?;
    }
    Ok(words)
}

fn same_bits(alloc: Global, count: usize, bit: bool) -> Result<Bits, NoMemory> {
    let mut bits = Bits::new(alloc);
    for _place in 0..count {
        bits.push(bit)?;
    }
    Ok(bits)
}

fn holds_words(words: &Words, expected: &[u16]) -> bool {
    if words.len() != expected.len() {
        return false;
    }
    for (i, number) in expected.iter().enumerate() {
        if words.get(i) != Some(*number) {
            return false;
        }
    }
    true
}

fn shows_line(grid: &Grid, y: u32, line: &[u8]) -> bool {
    if y >= grid.rows() || grid.width() as usize != line.len() {
        return false;
    }
    for x in 0..grid.width() {
        if grid.dark(x, y) != (line[x as usize] == b'1') {
            return false;
        }
    }
    true
}

// The codewords that so many equal bits are stuffed in.
fn is_stuffed<R: Abort>(
    rt: &R,
    alloc: Global,
    count: usize,
    bit: bool,
    expected: &[u16],
) -> Result<bool, NoMemory> {
    let bits = same_bits(alloc, count, bit)?;
    let words = stuff(alloc, &bits, 6)?;
    assert!(rt; bits.len() < 1_000_000);
    Ok(holds_words(&words, expected) && needs(&bits).w6 as usize == expected.len())
}

// Each size with its side, the bits of a codeword and the codewords, by the formulas of ISO/IEC 24778, in the order of the versions.
const SIZES: [(u32, u32, u32); 36] = [
    (15, 6, 17),
    (19, 6, 40),
    (23, 8, 51),
    (27, 8, 76),
    (19, 6, 21),
    (23, 6, 48),
    (27, 8, 60),
    (31, 8, 88),
    (37, 8, 120),
    (41, 8, 156),
    (45, 8, 196),
    (49, 8, 240),
    (53, 10, 230),
    (57, 10, 272),
    (61, 10, 316),
    (67, 10, 364),
    (71, 10, 416),
    (75, 10, 470),
    (79, 10, 528),
    (83, 10, 588),
    (87, 10, 652),
    (91, 10, 720),
    (95, 10, 790),
    (101, 10, 864),
    (105, 10, 940),
    (109, 10, 1020),
    (113, 12, 920),
    (117, 12, 992),
    (121, 12, 1066),
    (125, 12, 1144),
    (131, 12, 1224),
    (135, 12, 1306),
    (139, 12, 1392),
    (143, 12, 1480),
    (147, 12, 1570),
    (151, 12, 1664),
];

#[test]
fn the_36_sizes(rt: HostRuntime) {
    for (place, (modules, bits, words)) in SIZES.iter().enumerate() {
        match Allowed::of(23, Some(place as u32 + 1)) {
            Allowed::Named(size) => {
                assert_eq!(rt;
                    (side(size), width(size), codewords(size)),
                    (*modules, *bits, *words)
                );
            }
            Allowed::AtShare(_) => assert!(rt; false),
        }
    }
}

#[test]
fn worked_symbol(rt: HostRuntime) -> Result<(), Fail> {
    let words = words_of(rt.alloc(), &WORKED)?;
    assert!(rt; words.len() == 17);
    let mut grid = draw(rt.alloc(), COMPACT_ONE, 10, &words)?;
    for (y, line) in WORKED_LINES.iter().enumerate() {
        assert!(rt; y < 15 && shows_line(&grid, y as u32, *line));
    }
    assert!(rt; grid.width() == 15 && grid.rows() == 15);
    assert!(rt; finder(&grid, false).is_none());
    let modes = mode_read(&grid, false);
    for (i, number) in [0u8, 9, 12, 2, 3, 1, 9].iter().enumerate() {
        assert!(rt; modes.get(i) == Some(*number));
    }
    let read = codewords_read(rt.alloc(), &grid, COMPACT_ONE)?;
    assert!(rt; holds_words(&read, &WORKED));
    grid.set(9, 5, false);
    grid.set(7, 7, false);
    assert!(rt; grid.width() == 15 && grid.rows() == 15);
    assert!(rt; finder(&grid, false) == Some((9, 5)));
    Ok(())
}

#[test]
fn mode_messages(rt: HostRuntime) {
    let full_four = Size {
        full: true,
        layers: 4,
    };
    let compact = mode_words(COMPACT_ONE, 10);
    for (i, number) in [0u8, 9, 12, 2, 3, 1, 9].iter().enumerate() {
        assert!(rt; compact.get(i) == Some(*number));
    }
    let full = mode_words(full_four, 65);
    for (i, number) in [1u8, 8, 4, 0].iter().enumerate() {
        assert!(rt; full.get(i) == Some(*number));
    }
    assert!(rt; full.len() == 10);
}

#[test]
fn worked_rune(rt: HostRuntime) -> Result<(), Fail> {
    let words = rune_words(25);
    for (i, number) in [1u8, 9, 1, 14, 14, 5, 2].iter().enumerate() {
        assert!(rt; words.get(i) == Some(*number));
    }
    let lines = [
        b"11101100101",
        b"11111111111",
        b"01000000011",
        b"01011111011",
        b"01010001010",
        b"11010101011",
        b"11010001011",
        b"11011111010",
        b"11000000011",
        b"01111111111",
        b"00100100000",
    ];
    let grid = rune(rt.alloc(), 25)?;
    for (y, line) in lines.iter().enumerate() {
        assert!(rt; y < 11 && shows_line(&grid, y as u32, *line));
    }
    Ok(())
}

// Equal bits and the codewords of six bits that they are stuffed in, by hand.
const STUFFED: [(usize, bool, [u16; 2], usize); 13] = [
    (0, true, [0, 0], 0),
    (1, false, [31, 0], 1),
    (2, false, [15, 0], 1),
    (3, false, [7, 0], 1),
    (4, false, [3, 0], 1),
    (5, false, [1, 0], 1),
    (6, false, [1, 31], 2),
    (1, true, [62, 0], 1),
    (2, true, [62, 0], 1),
    (3, true, [62, 0], 1),
    (4, true, [62, 0], 1),
    (5, true, [62, 0], 1),
    (6, true, [62, 62], 2),
];

#[test]
fn stuffed_bits(rt: HostRuntime) -> Result<(), Fail> {
    for (count, bit, words, length) in STUFFED {
        assert!(rt; length <= 2);
        assert!(rt; is_stuffed(&rt, rt.alloc(), count, bit, &words[..length])?);
    }
    let zeros = same_bits(rt.alloc(), 24, false)?;
    assert!(rt; holds_words(&stuff(rt.alloc(), &zeros, 8)?, &[1, 1, 1, 31]));
    assert!(rt; holds_words(&stuff(rt.alloc(), &zeros, 10)?, &[1, 1, 15]));
    assert!(rt; holds_words(&stuff(rt.alloc(), &zeros, 12)?, &[1, 1, 1023]));
    Ok(())
}

#[test]
fn unstuffed_words(rt: HostRuntime) -> Result<(), Fail> {
    let good = words_of(rt.alloc(), &[1, 62, 5])?;
    assert!(rt; unstuff(rt.alloc(), &good, 6)?.len() == 16);
    let bad = words_of(rt.alloc(), &[5, 63, 0])?;
    assert!(rt; matches!(&unstuff(rt.alloc(), &bad, 6), Err(WordFault::BadWord(1))));
    Ok(())
}

#[test]
fn smallest_sizes(rt: HostRuntime) {
    let letter = Needs {
        w6: 1,
        w8: 1,
        w10: 1,
        w12: 1,
    };
    assert!(rt; smallest(letter, 23, 0) == Some(COMPACT_ONE));
    let full_one = Some(Size {
        full: true,
        layers: 1,
    });
    assert!(rt; smallest(letter, 23, 5) == full_one);
    let full_compact = Needs {
        w6: 85,
        w8: 64,
        w10: 51,
        w12: 43,
    };
    let compact_four = Some(Size {
        full: false,
        layers: 4,
    });
    assert!(rt; smallest(full_compact, 10, 0) == compact_four);
}

#[test]
fn first_places(rt: HostRuntime) {
    assert!(rt; place(COMPACT_ONE, 0) == (0, 0) && place(COMPACT_ONE, 103) == (2, 1));
    let full_five = Size {
        full: true,
        layers: 5,
    };
    assert!(rt; place(full_five, 4) == (0, 3));
}

// 85 ones are stuffed in 17 codewords of 6 bits, and compact 1 holds 14 of its 17.
#[test]
fn what_does_not_fit(rt: HostRuntime) -> Result<(), Fail> {
    let bits = same_bits(rt.alloc(), 85, true)?;
    assert!(rt; bits.len() < 1_000_000);
    let misfit = NoFit {
        needed: 17,
        last: COMPACT_ONE,
        held: 14,
    };
    assert!(rt; fit(&bits, Allowed::Named(COMPACT_ONE)) == Err(misfit));
    Ok(())
}

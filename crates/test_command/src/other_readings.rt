//! Whole calls over objects in memory: unknown modules, a row of bars, a symbol somewhere in a BMP.

use crate::failing_outside::GRID;
use crate::memory_calls::{Left, NONE, call};
use bar_base::NoMemory;
use std::alloc::Global;
use std::test::Fail;

/// The call that reads the input by these words.
fn read(alloc: Global, option: &str, input: &[u8]) -> Result<Left, NoMemory> {
    call(alloc, &["--read", option, "-i", "-"], input, &NONE)
}

/// The text of a grid with unknown modules at these places.
fn unknown_at(alloc: Global, grid: &[u8], places: &[usize]) -> Result<Vec<u8>, NoMemory> {
    let mut text = Vec::new(alloc);
    for (place, module) in grid.iter().enumerate() {
        text.push(if places.contains(&place) {
            b'?'
        } else {
            *module
        })?;
    }
    Ok(text)
}

// The first modules of rows 2, 4 and 10 and the second one of row 9 are dark, each in a codeword of its own; module 7 of row 7 is
// in the middle of the finder.
#[test]
fn unknown_modules_are_lost_codewords(rt: HostRuntime) -> Result<(), Fail> {
    let four = unknown_at(rt.alloc(), GRID.as_bytes(), &[32, 64, 145, 160])?;
    let told = read(rt.alloc(), "--erasures", &four)?;
    assert_eq!(rt; told.status, 0);
    assert_eq!(rt;
        told.out.bytes(),
        b"size=compact 1
codewords=10+7
corrected=0
lost=4
append=-
fnc1=no
eci=-
data=Code 2D!
text=Code 2D!
"
            .as_slice()
    );
    let middle = unknown_at(rt.alloc(), GRID.as_bytes(), &[119])?;
    let told = read(rt.alloc(), "--erasures", &middle)?;
    assert_eq!(rt; told.status, 14);
    assert_eq!(rt; told.err.bytes(), b"error 14: 7,7\n".as_slice());
    Ok(())
}

#[test]
fn a_row_is_read_from_either_end(rt: HostRuntime) -> Result<(), Fail> {
    let words = ["--scan=20", "-i", "-"];
    let drawn = call(rt.alloc(), &["-b", "20", "-d", "PJJ123C"], b"", &NONE)?;
    let told = call(rt.alloc(), &words, drawn.out.bytes(), &NONE)?;
    assert_eq!(rt; told.status, 0);
    assert_eq!(rt;
        told.out.bytes(),
        b"symbol=20\ndirection=forward\ncheck=54\ndata=PJJ123C\n".as_slice()
    );
    let mut turned = Vec::new(rt.alloc());
    for module in drawn.out.bytes().iter().rev().skip(1) {
        turned.push(*module)?;
    }
    let told = call(rt.alloc(), &words, &turned, &NONE)?;
    assert_eq!(rt; told.status, 0);
    assert_eq!(rt;
        told.out.bytes(),
        b"symbol=20\ndirection=backward\ncheck=54\ndata=PJJ123C\n".as_slice()
    );
    let told = call(rt.alloc(), &words, b"1\n", &NONE)?;
    assert_eq!(rt; told.status, 14);
    assert_eq!(rt; told.err.bytes(), b"error 14: 0,0\n".as_slice());
    Ok(())
}

#[test]
fn a_symbol_is_found_in_white_space(rt: HostRuntime) -> Result<(), Fail> {
    let words = [
        "-b",
        "92",
        "-d",
        "Code 2D!",
        "--whitesp=3",
        "--vwhitesp=5",
        "--filetype=bmp",
    ];
    let drawn = call(rt.alloc(), &words, b"", &NONE)?;
    let told = read(rt.alloc(), "--find", drawn.out.bytes())?;
    assert_eq!(rt; told.status, 0);
    assert_eq!(rt;
        told.out.bytes(),
        b"size=compact 1
codewords=10+7
corrected=0
append=-
fnc1=no
eci=-
data=Code 2D!
text=Code 2D!
"
            .as_slice()
    );
    let told = read(rt.alloc(), "--find", GRID.as_bytes())?;
    assert_eq!(rt; told.status, 13);
    assert_eq!(rt; told.err.bytes(), b"error 13: grid at 0\n".as_slice());
    Ok(())
}

//! The first piece of a number's text, and the lines that another program shows.

use crate::memory_calls::{NONE, call};
use std::test::Fail;
use zint_demo::demonstrate;

const LINES: &[u8] = b"bytes=1 bits=10 size=compact 1 codewords=2+15 damaged=7
bytes=10 bits=60 size=compact 1 codewords=10+7 damaged=3
bytes=100 bits=515 size=full 5 codewords=65+55 damaged=27
bytes=500 bits=2593 size=full 12 codewords=260+104 damaged=52
bytes=1500 bits=8372 size=full 23 codewords=698+222 damaged=111
grid:
";

/// The line `data=` up to the end of the first piece of the text of number 1: signs, as the third draw of 16838, 5758 and 10113 is
/// the first of 39.
const PIECE: &str = "\ndata=$+\"#!*-'%#*!&)*$-',.&'-*'&(,/&/(,#%.''";

#[test]
fn draws_the_first_piece(rt: HostRuntime) -> Result<(), Fail> {
    let shown = call(rt.alloc(), &["--demo=1"], b"", &NONE)?;
    assert_eq!(rt; shown.status, 0);
    let (_, grid) = std::str::from_utf8(shown.out.bytes())?
        .split_once("\ngrid:\n")
        .ok_or("no grid")?;
    let read = call(rt.alloc(), &["--read", "-i", "-"], grid.as_bytes(), &NONE)?;
    assert_eq!(rt; read.status, 0);
    assert!(rt; std::str::from_utf8(read.out.bytes())?.contains(PIECE));
    Ok(())
}

#[test]
fn shows_the_lines(rt: HostRuntime) -> Result<(), Fail> {
    match demonstrate(rt.alloc(), 315) {
        Ok(shown) => assert_eq!(rt; shown.lines.as_slice(), LINES),
        Err(_) => return Err(Fail::from("no demonstration")),
    }
    Ok(())
}

//! Whole calls over objects in memory: what a failing outside leaves.

use crate::memory_calls::{Fails, NONE, call};
use std::test::Fail;

const RUNE_0: &str =
    "11101010101\n11111111111\n01000000010\n11011111011\n01010001010\n11010101011\n01010001010\n11011111011\n01000000010\n01111111111\n00101010100\n";

/// The report of `Code 2D!`: the lines before the grid in one write, and each line of the grid in one more.
const HEAD: &str =
    "symbol=92\nbits=56\nspelling=00100111001000000101001101111000010100111100101000000110\nsize=compact 1\nside=15\ncodewords=10+7\ngrid:\n";

/// The text of its grid.
pub const GRID: &str =
    "000110001100000\n000000110000010\n101100001000101\n011111111111100\n111100000001101\n000101111101100\n100101000101111\n001101010101001\n001101000101010\n010101111101001\n100100000001011\n100111111111101\n010001100010010\n011000011011010\n111001101100000\n";

#[test]
fn each_failing_write_leaves_a_prefix(rt: HostRuntime) -> Result<(), Fail> {
    let words = ["-b", "92", "-d", "Code 2D!", "--filetype=report"];
    let first = Fails { out: &[1], ..NONE };
    let left = call(rt.alloc(), &words, b"", &first)?;
    assert_eq!(rt; left.status, 12);
    assert!(rt; left.out.bytes().is_empty());
    let second = Fails { out: &[2], ..NONE };
    let left = call(rt.alloc(), &words, b"", &second)?;
    assert_eq!(rt; left.status, 12);
    assert_eq!(rt; left.out.bytes(), HEAD.as_bytes());
    assert_eq!(rt; left.err.bytes(), b"error 12: write\n".as_slice());
    let left = call(rt.alloc(), &words, b"", &NONE)?;
    assert_eq!(rt; left.status, 0);
    assert!(rt; left.out.bytes().starts_with(HEAD.as_bytes()));
    assert!(rt; left.out.bytes().ends_with(GRID.as_bytes()));
    assert_eq!(rt; left.out.bytes().len(), HEAD.len() + GRID.len());
    Ok(())
}

/// The writes of that report.
const WRITES: u64 = 16;

/// The bytes of a line of that grid.
const LINE: usize = 16;

#[test]
fn each_write_of_a_report_can_fail(rt: HostRuntime) -> Result<(), Fail> {
    let words = ["-b", "92", "-d", "Code 2D!", "--filetype=report"];
    for number in 1..WRITES + 1 {
        let fails = [number];
        let left = call(
            rt.alloc(),
            &words,
            b"",
            &Fails {
                out: &fails,
                ..NONE
            },
        )?;
        assert_eq!(rt; left.status, 12);
        let lines = (number as usize - 1).saturating_sub(1);
        let written = if number == 1 {
            0
        } else {
            HEAD.len() + lines * LINE
        };
        assert_eq!(rt; left.out.bytes().len(), written);
        if number > 1 {
            assert!(rt; left.out.bytes().starts_with(HEAD.as_bytes()));
            assert!(rt; left.out.bytes().ends_with(&GRID.as_bytes()[..lines * LINE]));
        }
    }
    let past = [WRITES + 1];
    let left = call(rt.alloc(), &words, b"", &Fails { out: &past, ..NONE })?;
    assert_eq!(rt; left.status, 0);
    Ok(())
}

#[test]
fn a_second_failing_write_leaves_the_first_line(rt: HostRuntime) -> Result<(), Fail> {
    let second = Fails { out: &[2], ..NONE };
    let left = call(rt.alloc(), &["-b", "128", "-d", "0"], b"", &second)?;
    assert_eq!(rt; left.status, 12);
    assert_eq!(rt; left.out.bytes(), b"11101010101\n".as_slice());
    assert_eq!(rt; left.err.bytes(), b"error 12: write\n".as_slice());
    Ok(())
}

#[test]
fn a_failing_input_is_no_end(rt: HostRuntime) -> Result<(), Fail> {
    let fails = Fails {
        input: &[2],
        ..NONE
    };
    let left = call(rt.alloc(), &["-b", "92", "-i", "-"], b"A", &fails)?;
    assert_eq!(rt; left.status, 10);
    assert!(rt; left.out.bytes().is_empty());
    assert_eq!(rt; left.err.bytes(), b"error 10: read\n".as_slice());
    Ok(())
}

#[test]
fn failing_files_keep_the_rest(rt: HostRuntime) -> Result<(), Fail> {
    let words = ["-b", "128", "-d", "0", "-o", "x"];
    let left = call(rt.alloc(), &words, b"", &NONE)?;
    assert_eq!(rt; left.status, 0);
    let held = left.files.file("x").ok_or("no file x")?;
    assert_eq!(rt; held, RUNE_0.as_bytes());
    let left = call(
        rt.alloc(),
        &words,
        b"",
        &Fails {
            files: &[1],
            ..NONE
        },
    )?;
    assert_eq!(rt; left.status, 12);
    assert!(rt; left.files.file("x").is_none());
    assert_eq!(rt; left.err.bytes(), b"error 12: write\n".as_slice());
    assert!(rt; left.out.bytes().is_empty());
    let left = call(
        rt.alloc(),
        &words,
        b"",
        &Fails {
            files: &[2],
            ..NONE
        },
    )?;
    assert_eq!(rt; left.status, 12);
    let held = left.files.file("x").ok_or("no file x")?;
    assert!(rt; held.is_empty());
    Ok(())
}

#[test]
fn a_failing_line_leaves_the_status(rt: HostRuntime) -> Result<(), Fail> {
    let fails = Fails { err: &[1], ..NONE };
    let left = call(rt.alloc(), &["-b", "92", "-d", ""], b"", &fails)?;
    assert_eq!(rt; left.status, 6);
    assert!(rt; left.out.bytes().is_empty());
    assert!(rt; left.err.bytes().is_empty());
    Ok(())
}

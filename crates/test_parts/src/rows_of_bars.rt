use bar_base::{Grid, LinearFault};
use linear_codes::{code39, code39_full, code93, itf14, pattern_itf, pattern39, pattern93};
use std::test::Fail;

/// Whether the first modules of a row are those of a text of `0` and `1`.
fn begins_with(grid: &Grid, text: &[u8]) -> bool {
    if grid.rows() != 1 || (grid.width() as usize) < text.len() {
        return false;
    }
    for (x, digit) in text.iter().enumerate() {
        if x >= grid.width() as usize || grid.dark(x as u32, 0) != (*digit == b'1') {
            return false;
        }
    }
    true
}

#[test]
fn code_39_has_a_check_character(rt: HostRuntime) -> Result<(), Fail> {
    let drawn = code39(rt.alloc(), b"Code39", true)?;
    assert_eq!(rt; drawn.checks.get(0), Some(32));
    assert_eq!(rt; drawn.grid.width(), 116);
    assert!(rt; begins_with(&drawn.grid, b"1001011011010"));
    Ok(())
}

#[test]
fn extended_code_39_spells_a_letter_by_two_characters(rt: HostRuntime) -> Result<(), Fail> {
    let drawn = code39_full(rt.alloc(), b"a")?;
    assert!(rt; drawn.checks.is_empty());
    assert_eq!(rt; drawn.grid.width(), 51);
    assert!(rt;
        begins_with(
            &drawn.grid,
            b"100101101101010010100100101101010010110100101101101"
        )
    );
    Ok(())
}

#[test]
fn code_93_has_two_check_characters(rt: HostRuntime) -> Result<(), Fail> {
    let drawn = code93(rt.alloc(), b"TEST93")?;
    assert_eq!(rt; drawn.checks.get(0), Some(41));
    assert_eq!(rt; drawn.checks.get(1), Some(6));
    assert_eq!(rt; drawn.grid.width(), 91);
    assert!(rt; begins_with(&drawn.grid, b"101011110"));
    Ok(())
}

#[test]
fn itf_14_adds_the_check_digit_or_tests_it(rt: HostRuntime) -> Result<(), Fail> {
    let drawn = itf14(rt.alloc(), b"1540014128876")?;
    assert_eq!(rt; drawn.checks.get(0), Some(3));
    assert_eq!(rt; drawn.grid.width(), 135);
    assert!(rt; begins_with(&drawn.grid, b"1010"));
    let refused = itf14(rt.alloc(), b"15400141288764");
    assert!(rt; matches!(refused, Err(LinearFault::BadCheck(13, 4, 3))));
    Ok(())
}

#[test]
fn patterns_are_numbers(rt: HostRuntime) -> Result<(), Fail> {
    assert_eq!(rt; pattern39(43), 0b100101101101);
    assert_eq!(rt; pattern93(47), 0b101011110);
    assert_eq!(rt; pattern_itf(0), 0b00110);
    Ok(())
}

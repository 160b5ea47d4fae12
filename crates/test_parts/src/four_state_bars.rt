use bar_base::Grid;
use four_state::{long_bars, rm4scc};
use std::test::Fail;

/// Whether the bars of a row, in every second column, are dark where a text has `1`, and all other modules are light.
fn has_bars(grid: &Grid, y: u32, text: &[u8]) -> bool {
    if y >= grid.rows() || grid.width() as usize + 1 != 2 * text.len() {
        return false;
    }
    for x in 0..grid.width() {
        let dark = match text.get(x as usize / 2) {
            Some(digit) => x % 2 == 0 && *digit == b'1',
            None => false,
        };
        if grid.dark(x, y) != dark {
            return false;
        }
    }
    true
}

#[test]
fn draws_a_postcode(rt: HostRuntime) -> Result<(), Fail> {
    let drawn = rm4scc(rt.alloc(), b"BX11LT1a")?;
    assert_eq!(rt; drawn.checks.get(0), Some(18));
    assert_eq!(rt; drawn.grid.width(), 75);
    assert_eq!(rt; drawn.grid.rows(), 3);
    assert!(rt; has_bars(&drawn.grid, 0, b"10101110000110011100110100011010110011"));
    assert!(rt; has_bars(&drawn.grid, 1, b"11111111111111111111111111111111111111"));
    assert!(rt; has_bars(&drawn.grid, 2, b"01100100101010101100111000101101000111"));
    if drawn.grid.rows() == 3 {
        assert_eq!(rt; drawn.grid.height(0), 3);
        assert_eq!(rt; drawn.grid.height(1), 2);
        assert_eq!(rt; drawn.grid.height(2), 3);
    }
    Ok(())
}

#[test]
fn two_of_four_bars_are_long(rt: HostRuntime) -> Result<(), Fail> {
    assert!(rt; long_bars(5) == [true, false, true, false].as_slice());
    Ok(())
}

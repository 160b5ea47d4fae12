//! The lines of a grid.
ghost use Rattle.std.specs.Prelude.{◌≡◌, ◌<◌};
ghost use Rattle.bar_base.specs.GridText.{line_of, module_text};
ghost use Rattle.bar_base.specs.Picture.{row_count, row_of};

use arrayvec::ArrayVec;
use bar_base::Grid;

/// The bytes of the longest line of a grid: 16,384 modules and the line feed.
const LONGEST_LINE: usize = 16_385;

/// The character of a module: `1` where it is dark, else `0`.
pub fn digit(dark: bool) -> u8
    ensures { result ≡ module_text dark }
{
    if dark { b'1' } else { b'0' }
}

/// A line of a grid, in a list that takes no memory of its own.
pub(crate) type GridLine = ArrayVec<u8, LONGEST_LINE>;

/// Makes `line` the text of row `y` of a grid: `1` for a dark and `0` for a light module, from the left, and a line feed.
pub(crate) fn make_line(line: &mut GridLine, grid: &Grid, y: u32)
    requires row { y < row_count grid.now }
    ensures line { line.new.items ≡ line_of (row_of grid.now y) }
{
    line.clear();
    for x in 0..grid.width() {
        line.push(digit(grid.dark(x, y)));
    }
    line.push(b'\n');
}

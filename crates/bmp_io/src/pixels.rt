//! A row of modules as a row of pixels.
ghost use Rattle.std.specs.Prelude.{◌≡◌, ◌<◌, ◌≤◌, ◌+◌, length};
ghost use Rattle.bar_base.specs.Paint.{IsPaint};
ghost use Rattle.bar_base.specs.Picture.{row_count, row_of};
ghost use Rattle.bmp_io.specs.Pixels.{module_over, pixel, eight_pixels, pixel_row};

use bar_base::{Grid, Paint, unit};

/// Whether a column of modules is dark in a painted row: light in the white space, and past the modules.
fn module_over(grid: &Grid, y: u32, paint: Paint, column: usize) -> bool
    requires row { y < row_count grid.now }
    ensures { result ≡ module_over paint (row_of grid.now y) column }
{
    let white = paint.white as usize;
    if column < white {
        return false;
    }
    let x = column - white;
    x < grid.width() as usize && grid.dark(x as u32, y)
}

/// Eight pixels of a row as a byte, read one by one.
fn pixel_by_pixel(grid: &Grid, y: u32, paint: Paint, p: usize) -> u8
    requires row { y < row_count grid.now }
    requires paint { IsPaint paint }
    requires small { p < 1000000 }
    ensures { result ≡ eight_pixels paint (row_of grid.now y) p }
{
    let side = unit(paint) as usize;
    let mut byte = 0;
    for i in 0..8 {
        let dark = module_over(grid, y, paint, (p + i) / side);
        byte = byte * 2 + u8::from(dark);
    }
    byte
}

/// Eight pixels of a row from pixel `p` on as a byte, the left one as the high bit.
fn eight_pixels(grid: &Grid, y: u32, paint: Paint, p: usize) -> u8
    requires row { y < row_count grid.now }
    requires paint { IsPaint paint }
    requires small { p < 1000000 }
    ensures { result ≡ eight_pixels paint (row_of grid.now y) p }
{
    let side = unit(paint) as usize;
    let column = p / side;
    if (p + 7) / side == column {
        return if module_over(grid, y, paint, column) {
            255
        } else {
            0
        };
    }
    pixel_by_pixel(grid, y, paint, p)
}

/// Makes `row` the row of pixels that shows row `y` of the grid.
pub(crate) fn make_row(grid: &Grid, y: u32, paint: Paint, row: &mut [u8])
    requires row { y < row_count grid.now }
    requires paint { IsPaint paint }
    requires small { length row.old ≤ 100000 }
    ensures { row.new ≡ pixel_row paint (length row.old) (row_of grid.now y) }
{
    for k in 0..row.len() {
        row[k] = eight_pixels(grid, y, paint, 8 * k);
    }
}

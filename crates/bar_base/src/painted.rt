ghost use Rattle.std.specs.Prelude.{◌≡◌, ◌<◌, ◌≤◌, ◌*◌, ◌+◌};
ghost use Rattle.bar_base.specs.Paint.{IsPaint, unit_of, painted_width, modules_high, painted_height};

use crate::grid::Grid;
use crate::paint::Paint;

/// The units or pixels of a module's side.
pub fn unit(paint: Paint) -> u32
    requires { IsPaint paint }
    ensures { result ≡ unit_of paint }
{
    2 * paint.scale
}

/// The width of the painted grid, its white space included, in units or pixels.
pub fn painted_width(grid: &Grid, paint: Paint) -> u32
    requires { IsPaint paint }
    ensures width { result ≡ painted_width paint grid.now }
    ensures bounded { (0 < result) × (result ≤ 40 * 16584) }
{
    unit(paint) * (grid.width() + 2 * paint.white)
}

/// The modules from the top of a symbol to its bottom: the sum of the heights of its rows.
pub fn modules_high(grid: &Grid) -> u32
    ensures high { result ≡ modules_high grid.now }
    ensures bounded { result ≤ 200 * 16384 }
{
    let mut high = 0;
    for y in 0..grid.rows() {
        high += grid.height(y);
    }
    high
}

/// The height of the painted grid, its white space included, in units or pixels.
pub fn painted_height(grid: &Grid, paint: Paint) -> u32
    requires { IsPaint paint }
    ensures height { result ≡ painted_height paint grid.now }
    ensures bounded { result ≤ 40 * (200 * 16384 + 200) }
{
    unit(paint) * (modules_high(grid) + 2 * paint.vwhite)
}

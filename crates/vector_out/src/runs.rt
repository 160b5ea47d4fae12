ghost use Rattle.std.specs.Prelude.{◌≡◌, ◌<◌, ◌≤◌, ◌*◌};
ghost use Rattle.bar_base.specs.Paint.{IsPaint};
ghost use Rattle.bar_base.specs.Picture.{row_count, row_of};
ghost use Rattle.vector_out.specs.Runs.{begins_run, dark_run_length, rectangle_of, modules_above};

use bar_base::{Grid, Paint, unit};

/// A dark run as it is drawn, in units from the top left.
#[derive(Debug, Clone, Copy, PartialEq, Eq)]
pub(crate) struct Rectangle {
    pub(crate) left: u32,
    pub(crate) top: u32,
    pub(crate) width: u32,
    pub(crate) height: u32,
}

/// Whether a dark run of row `y` begins in column `x`.
pub(crate) fn begins_run(grid: &Grid, y: u32, x: u32) -> bool
    requires column { x < grid.now.width }
    requires row { y < row_count grid.now }
    ensures { result ≡ begins_run (row_of grid.now y) x }
{
    grid.dark(x, y) && (x == 0 || !grid.dark(x - 1, y))
}

/// The modules of the longest dark run of row `y` from column `x` on.
fn dark_run_length(grid: &Grid, y: u32, x: u32) -> u32
    requires column { x < grid.now.width }
    requires row { y < row_count grid.now }
    ensures length { result ≡ dark_run_length (row_of grid.now y) x }
    ensures bounded { result ≤ 16384 }
{
    let width = grid.width();
    for k in x..width {
        if !grid.dark(k, y) {
            return k - x;
        }
    }
    width - x
}

/// The rectangle of the dark run of row `y` that begins in column `x`, with so many modules above the row.
#[tactic(auto, unfolding(crate::specs::Runs::rectangle_of))]
pub(crate) fn rectangle_of(grid: &Grid, paint: Paint, y: u32, above: u32, x: u32) -> Rectangle
    requires column { x < grid.now.width }
    requires narrow { x < 16384 }
    requires row { y < row_count grid.now }
    requires paint { IsPaint paint }
    requires above { above ≡ modules_above grid.now y }
    requires low { above ≤ 200 * 16384 }
    ensures { result ≡ rectangle_of paint grid.now y x }
{
    let side = unit(paint);
    Rectangle {
        left: side * (paint.white + x),
        top: side * (paint.vwhite + above),
        width: side * dark_run_length(grid, y, x),
        height: side * grid.height(y),
    }
}

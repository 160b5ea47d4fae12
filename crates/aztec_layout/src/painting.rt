ghost use Rattle.std.specs.Prelude.{◌≡◌, ◌≢◌, ℕ, ◌+◌, ◌*◌, ◌%◌, ◌^◌, ◌<◌, ◌≤◌, true, IsTrue, length};
ghost use Rattle.std.specs.Int.{abs_diff};
ghost use Rattle.bar_base.specs.Picture.{row_count};
ghost use Rattle.aztec_layout.specs.Core.{is_dark_fixed as is_dark_fixed_at, mode_run as mode_run_of, rim_of};
ghost use Rattle.aztec_layout.specs.Painting.{Paints};
ghost use Rattle.aztec_layout.specs.SymbolGrid.{IsModeDot};

use crate::core_symbol::{is_dark_fixed, mode_place};
use bar_base::Grid;

/// Makes a module dark where `dark` says so. There is no branch, since half of the bits are dark and no order in them can be foretold.
pub(crate) fn dot(grid: &mut Grid, x: u32, y: u32, dark: bool)
    requires column { x < grid.old.width }
    requires row { y < row_count grid.old }
    ensures { Paints grid.old grid.new (λ a b. (dark ≡ true) × (a ≡ x) × (b ≡ y)) }
{
    let was = grid.dark(x, y);
    grid.set(x, y, dark | was);
}

/// Draws the finder, the orientation marks and the reference grid.
pub(crate) fn draw_fixed(grid: &mut Grid, full: bool, centre: u32)
    requires room { rim_of full ≤ centre }
    requires fits { centre < 2 ^ 31 }
    ensures { Paints grid.old grid.new (λ x y. IsTrue (is_dark_fixed_at full centre x y)) }
{
    for y in 0..grid.rows() {
        draw_fixed_row(grid, full, centre, y);
    }
}

/// Draws those of one row.
fn draw_fixed_row(grid: &mut Grid, full: bool, centre: u32, y: u32)
    requires room { rim_of full ≤ centre }
    requires fits { centre < 2 ^ 31 }
    requires row { y < row_count grid.old }
    ensures { Paints grid.old grid.new (λ a b. (b ≡ y) × IsTrue (is_dark_fixed_at full centre a b)) }
{
    let down = y.abs_diff(centre);
    if down % 16 != 0 && down > 7 {
        draw_crossings(grid, full, centre, y);
    } else {
        draw_whole_row(grid, full, centre, y);
    }
}

/// Draws those of one row, with a look at each module.
fn draw_whole_row(grid: &mut Grid, full: bool, centre: u32, y: u32)
    requires room { rim_of full ≤ centre }
    requires fits { centre < 2 ^ 31 }
    requires row { y < row_count grid.old }
    ensures { Paints grid.old grid.new (λ a b. (b ≡ y) × IsTrue (is_dark_fixed_at full centre a b)) }
{
    for x in 0..grid.width() {
        dot(grid, x, y, is_dark_fixed(full, centre, x, y));
    }
}

/// Draws those of a row outside each core and off each line of the reference grid: only where lines cross it.
fn draw_crossings(grid: &mut Grid, full: bool, centre: u32, y: u32)
    requires room { rim_of full ≤ centre }
    requires fits { centre < 2 ^ 31 }
    requires row { y < row_count grid.old }
    requires off_line { abs_diff y centre % 16 ≢ 0 }
    requires outside { 7 < abs_diff y centre }
    ensures { Paints grid.old grid.new (λ a b. (b ≡ y) × IsTrue (is_dark_fixed_at full centre a b)) }
{
    let mut x = centre % 16;
    while x < grid.width() {
        dot(grid, x, y, is_dark_fixed(full, centre, x, y));
        x += 16;
    }
}

/// Draws the bits of a mode message.
pub(crate) fn draw_mode(grid: &mut Grid, full: bool, centre: u32, bits: &[bool])
    requires room { rim_of full ≤ centre }
    requires fits { centre < 2 ^ 31 }
    requires columns { centre + rim_of full < grid.old.width }
    requires rows { centre + rim_of full < row_count grid.old }
    requires bits { length bits.now ≡ 4 * mode_run_of full }
    ensures { Paints grid.old grid.new (IsModeDot full centre bits.now) }
{
    for (place, bit) in bits.iter().enumerate() {
        let (x, y) = mode_place(full, centre, place as u32);
        dot(grid, x, y, *bit);
    }
}

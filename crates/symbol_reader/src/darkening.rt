//! A picture with its unknown modules dark.
ghost use Rattle.std.specs.Prelude.{◌≡◌, ◌*◌, ◌<◌, ◌||◌, IfOk, Some, length, slice_get};
ghost use Rattle.bar_base.specs.Picture.{row_count};
ghost use Rattle.symbol_reader.specs.Sight.{dark_in_either, darkened};

use bar_base::{Grid, NoMemory};
use std::alloc::Global;

/// The heights of the rows of a picture.
pub(crate) fn heights_of(alloc: Global, grid: &Grid) -> Result<Vec<u32>, NoMemory>
    ensures { IfOk result (λ heights. heights.items ≡ grid.now.heights) }
{
    let mut heights = Vec::new(alloc);
    for y in 0..grid.rows() {
        heights.push(grid.height(y))?;
    }
    Ok(heights)
}

/// How many modules two pictures of one width and one number of rows have.
fn module_count(grid: &Grid, lost: &Grid) -> u32
    requires width { lost.now.width ≡ grid.now.width }
    requires rows { row_count lost.now ≡ row_count grid.now }
    ensures own { length grid.now.modules ≡ result }
    ensures other { length lost.now.modules ≡ result }
    ensures sides { result ≡ row_count grid.now * grid.now.width }
{
    grid.rows() * lost.width()
}

/// Whether one of two holds.
fn either(a: bool, b: bool) -> bool
    ensures { result ≡ (a || b) }
{
    a || b
}

/// Whether a module is dark in one of two pictures, by its place in the list of all.
fn is_dark(grid: &Grid, lost: &Grid, place: u32) -> bool
    requires width { lost.now.width ≡ grid.now.width }
    requires rows { row_count lost.now ≡ row_count grid.now }
    requires inside { place < row_count grid.now * grid.now.width }
    ensures { slice_get (dark_in_either grid.now.modules lost.now.modules) place ≡ Some result }
{
    let x = place % grid.width();
    let y = place / grid.width();
    let dark = grid.dark(x, y);
    let gone = lost.dark(x, y);
    either(dark, gone)
}

/// The modules of a picture, those dark too that another one has dark.
fn modules_of(alloc: Global, grid: &Grid, lost: &Grid) -> Result<Vec<bool>, NoMemory>
    requires width { lost.now.width ≡ grid.now.width }
    requires rows { row_count lost.now ≡ row_count grid.now }
    ensures { IfOk result (λ modules. modules.items ≡ dark_in_either grid.now.modules lost.now.modules) }
{
    let mut modules = Vec::new(alloc);
    for place in 0..module_count(grid, lost) {
        modules.push(is_dark(grid, lost, place))?;
    }
    Ok(modules)
}

/// The picture in which the modules that another one has dark are dark too.
pub(crate) fn darkened(alloc: Global, grid: &Grid, lost: &Grid) -> Result<Grid, NoMemory>
    requires width { lost.now.width ≡ grid.now.width }
    requires rows { row_count lost.now ≡ row_count grid.now }
    ensures dark { IfOk result (λ dark. dark ≡ darkened grid.now lost.now) }
    ensures alike { length grid.now.modules ≡ length lost.now.modules }
{
    let _count = module_count(grid, lost);
    let heights = heights_of(alloc, grid)?;
    let modules = modules_of(alloc, grid, lost)?;
    Grid::of_rows(alloc, grid.width(), &heights, modules)
}

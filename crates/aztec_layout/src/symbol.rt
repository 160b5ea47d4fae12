ghost use Rattle.std.specs.Prelude.{◌≡◌, ◌<◌, ◌≤◌, false, IfOk, length};
ghost use Rattle.bar_base.specs.Picture.{Picture};
ghost use Rattle.aztec_layout.specs.ModeMessage.{CanHold};
ghost use Rattle.aztec_layout.specs.Sizes.{IsSize, codewords_of};
ghost use Rattle.aztec_layout.specs.SymbolGrid.{IsSymbolGrid, ShowsAll};

use crate::bit_rows::{data_bits, mode_bits};
use crate::data_painting::draw_data;
use crate::mode_message::mode_words;
use crate::painting::{draw_fixed, draw_mode};
use crate::sizes::{Size, side};
use bar_base::{Grid, NoMemory, Words};
use std::alloc::Global;

/// The picture of a symbol with all codewords of its size, data and check, of which `held` are data
/// codewords, at most 64 in a compact symbol: side by side modules, rows of height 1 (ISO/IEC 24778,
/// symbol structure). Of each codeword the lowest bits are drawn, as many as the size's width.
pub fn draw(alloc: Global, size: Size, held: u32, words: &Words) -> Result<Grid, NoMemory>
    requires sized { IsSize size }
    requires held { CanHold size held }
    requires counted { length words.now ≡ codewords_of size }
    ensures symbol { IfOk result (λ grid. IsSymbolGrid size held words.now grid) }
    ensures only { IfOk result (λ grid. (other : Picture) → IsSymbolGrid size held words.now other → other ≡ grid) }
    ensures shown { IfOk result (λ grid. ShowsAll size held words.now grid) }
{
    let side = side(size);
    let modes = mode_bits(alloc, mode_words(size, held).as_slice())?;
    let row = data_bits(alloc, size, words.as_slice())?;
    let mut grid = Grid::new(alloc, side, side)?;
    draw_fixed(&mut grid, size.full, side / 2);
    draw_mode(&mut grid, size.full, side / 2, modes.as_slice());
    draw_data(&mut grid, size, row.as_slice());
    Ok(grid)
}

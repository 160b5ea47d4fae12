ghost use Rattle.std.specs.Prelude.{◌≡◌, ℕ, ◌+◌, ◌*◌, ◌^◌, ◌<◌, ◌≤◌, true, length};
ghost use Rattle.bar_base.specs.Picture.{row_count};
ghost use Rattle.aztec_layout.specs.Painting.{Paints};
ghost use Rattle.aztec_layout.specs.Places.{AreDataLines, IsBitPlace, bits_before, pairs_on_side};
ghost use Rattle.aztec_layout.specs.Sizes.{IsSize, layer_bits, side_of};
ghost use Rattle.aztec_layout.specs.SymbolGrid.{IsDataDot, IsLayerDot, IsSideDot};

use crate::painting::dot;
use crate::placement::{first_bit, pairs, place_by, write_lines};
use crate::sizes::Size;
use bar_base::Grid;

/// The most columns or rows without reference lines.
const MOST_LINES: usize = 142;

/// Draws the bits of all data layers.
pub(crate) fn draw_data(grid: &mut Grid, size: Size, bits: &[bool])
    requires sized { IsSize size }
    requires columns { grid.old.width ≡ side_of size }
    requires rows { row_count grid.old ≡ side_of size }
    requires bits { length bits.now ≡ layer_bits size }
    ensures { Paints grid.old grid.new (IsDataDot size bits.now) }
{
    let mut lines = [0; MOST_LINES];
    write_lines(size, &mut lines);
    for layer in 0..size.layers {
        draw_layer(grid, &lines, size, layer, bits);
    }
}

/// Draws the bits of one layer.
fn draw_layer(grid: &mut Grid, lines: &[u32], size: Size, layer: u32, bits: &[bool])
    requires sized { IsSize size }
    requires lines { AreDataLines size lines.now }
    requires layer { layer < size.layers }
    requires columns { grid.old.width ≡ side_of size }
    requires rows { row_count grid.old ≡ side_of size }
    requires bits { length bits.now ≡ layer_bits size }
    ensures { Paints grid.old grid.new (IsLayerDot size bits.now layer) }
{
    for side in 0..4 {
        draw_side(grid, lines, size, layer, side, bits);
    }
}

/// Draws the bits of one side of a layer, pair by pair.
fn draw_side(grid: &mut Grid, lines: &[u32], size: Size, layer: u32, side: u32, bits: &[bool])
    requires sized { IsSize size }
    requires lines { AreDataLines size lines.now }
    requires layer { layer < size.layers }
    requires side { side < 4 }
    requires columns { grid.old.width ≡ side_of size }
    requires rows { row_count grid.old ≡ side_of size }
    requires bits { length bits.now ≡ layer_bits size }
    ensures { Paints grid.old grid.new (IsSideDot size bits.now layer side) }
{
    let count = pairs(size, layer);
    let first = first_bit(size, layer) as usize + (side * (2 * count)) as usize;
    for pair in 0..count {
        let at = first + 2 * pair as usize;
        draw_bit(grid, lines, size, layer, side, 2 * pair, bits[at]);
        draw_bit(grid, lines, size, layer, side, 2 * pair + 1, bits[at + 1]);
    }
}

/// Draws a bit of one side of a layer.
#[inline(always)]
fn draw_bit(
    grid: &mut Grid,
    lines: &[u32],
    size: Size,
    layer: u32,
    side: u32,
    along: u32,
    bit: bool,
)
    requires sized { IsSize size }
    requires lines { AreDataLines size lines.now }
    requires layer { layer < size.layers }
    requires side { side < 4 }
    requires along { along < 2 * pairs_on_side size layer }
    requires columns { grid.old.width ≡ side_of size }
    requires rows { row_count grid.old ≡ side_of size }
    ensures { Paints grid.old grid.new (λ a b. (bit ≡ true)
        × IsBitPlace size (bits_before size layer + (side * (2 * pairs_on_side size layer) + along)) a b) }
{
    let (x, y) = place_by(lines, size, layer, side, along);
    dot(grid, x, y, bit);
}

//! The damage of a symbol.
ghost use Rattle.std.specs.Prelude.{◌≡◌, ℕ, ◌/◌, ◌<◌, ◌≤◌, List};
ghost use Rattle.bar_base.specs.Picture.{row_count};
ghost use Rattle.aztec_layout.specs.DataReading.{AreCodewords, HasSide};
ghost use Rattle.aztec_layout.specs.Sizes.{codewords_of};
ghost use Rattle.zint_demo.specs.Damage.{IsDamaged, IsFirstBit, IsSpacedFirstBit, IsTurned, ShowsCodewordsNear, damage_of};

use aztec_draw::AztecSymbol;
use aztec_layout::{Size, bits, codewords, place, width};
use bar_base::Grid;

/// How many codewords of a symbol are damaged: half as many as there are check codewords, rounded down.
pub fn damage_of(symbol: &AztecSymbol) -> u32
    ensures { result ≡ damage_of symbol.now.size symbol.now.held }
{
    (codewords(symbol.size) - symbol.held) / 2
}

/// The modules of a symbol, damaged.
pub fn damaged(symbol: AztecSymbol) -> Grid
    requires { HasSide symbol.grid symbol.size }
    ensures damaged { IsDamaged symbol.size symbol.held symbol.grid result }
    ensures near { (codewords : List ℕ) → AreCodewords symbol.size symbol.grid codewords
        → ShowsCodewordsNear symbol.size result codewords (damage_of symbol.size symbol.held) }
{
    let size = symbol.size;
    let count = damage_of(&symbol);
    let mut grid = symbol.grid;
    if count > 0 {
        damage(&mut grid, size, count);
    }
    grid
}

/// Turns the module of the first bit of `count` codewords, evenly apart from the first one on.
fn damage(grid: &mut Grid, size: Size, count: u32)
    requires side { HasSide grid.old size }
    requires some { 0 < count }
    requires few { count ≤ codewords_of size }
    ensures turned { IsTurned grid.old grid.new (IsSpacedFirstBit size (codewords_of size / count) count) }
    ensures near { (codewords : List ℕ) → AreCodewords size grid.old codewords
        → ShowsCodewordsNear size grid.new codewords count }
{
    let step = codewords(size) / count;
    for i in 0..count {
        turn_codeword(grid, size, i * step);
    }
}

/// Turns the module of the first bit of a codeword.
fn turn_codeword(grid: &mut Grid, size: Size, codeword: u32)
    requires side { HasSide grid.old size }
    requires inside { codeword < codewords_of size }
    ensures { IsTurned grid.old grid.new (IsFirstBit size codeword) }
{
    let lead = bits(size) - codewords(size) * width(size);
    let (x, y) = place(size, lead + codeword * width(size));
    turn(grid, x, y);
}

/// Turns a module.
fn turn(grid: &mut Grid, x: u32, y: u32)
    requires column { x < grid.old.width }
    requires row { y < row_count grid.old }
    ensures { IsTurned grid.old grid.new (λ a b. (a ≡ x) × (b ≡ y)) }
{
    let dark = grid.dark(x, y);
    grid.set(x, y, !dark);
}

ghost use Rattle.std.specs.Prelude.{◌≡◌, ◌+◌, ◌<◌, ◌≤◌, ℕ, List, IfOk};
ghost use Rattle.aztec_layout.specs.DataReading.{AreCodewords, HasSide, ShowsNumber};
ghost use Rattle.aztec_layout.specs.Sizes.{codeword_width, layer_bits};

use crate::placement::{layer_near, place_near};
use crate::sizes::{Size, codewords, lead, width};
use bar_base::{Grid, NoMemory, Words};
use std::alloc::Global;

/// The codewords, data and check, as a square grid with the side of the size shows them: the bits of
/// each are the modules at their places (ISO/IEC 24778, data placement). What is left over in front
/// of them is not looked at.
pub fn codewords_read(alloc: Global, grid: &Grid, size: Size) -> Result<Words, NoMemory>
    requires { HasSide grid.now size }
    ensures words { IfOk result (λ words. AreCodewords size grid.now words) }
    ensures only { IfOk result (λ words. (others : List ℕ) → AreCodewords size grid.now others → others ≡ words) }
{
    let mut words = Words::new(alloc);
    let first = lead(size);
    let mut layer = 0;
    for k in 0..codewords(size) {
        let at = first + k * width(size);
        layer = layer_near(size, layer, at);
        words.push(codeword_at(grid, size, layer, at))?;
    }
    Ok(words)
}

/// The codeword whose bits are at the places from a bit on, looked for in one layer before all others.
fn codeword_at(grid: &Grid, size: Size, layer: u32, first: u32) -> u16
    requires side { HasSide grid.now size }
    requires inside { first + codeword_width size ≤ layer_bits size }
    ensures { ShowsNumber size grid.now first (codeword_width size) result }
{
    let mut word = 0;
    for i in 0..width(size) {
        let (x, y) = place_near(size, layer, first + i);
        word = word * 2 + u16::from(grid.dark(x, y));
    }
    word
}

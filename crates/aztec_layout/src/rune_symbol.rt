ghost use Rattle.std.specs.Prelude.{◌≡◌, ℕ, List, ◌<◌, All, IfOk, length, map};
ghost use Rattle.bar_base.specs.Picture.{Picture};
ghost use Rattle.aztec_layout.specs.Rune.{IsRune, IsRuneMessage, masked as masked_words};

use crate::bit_rows::mode_bits;
use crate::mode_message::coded;
use crate::painting::{draw_fixed, draw_mode};
use bar_base::{Grid, NoMemory, Short};
use std::alloc::Global;

/// The modules on a side of a rune.
const RUNE_SIDE: u32 = 11;

/// The picture of the rune of a value: 11 by 11 modules, rows of height 1 (ISO/IEC 24778, Aztec
/// runes).
pub fn rune(alloc: Global, value: u8) -> Result<Grid, NoMemory>
    ensures rune { IfOk result (IsRune value) }
    ensures only { IfOk result (λ grid. (other : Picture) → IsRune value other → other ≡ grid) }
{
    let bits = mode_bits(alloc, masked(&rune_words(value)).as_slice())?;
    let mut grid = Grid::new(alloc, RUNE_SIDE, RUNE_SIDE)?;
    draw_fixed(&mut grid, false, RUNE_SIDE / 2);
    draw_mode(&mut grid, false, RUNE_SIDE / 2, bits.as_slice());
    Ok(grid)
}

/// The 4-bit words of the rune of a value, the high one first, with five check words, before
/// every second bit is turned (ISO/IEC 24778, Aztec runes).
pub fn rune_words(value: u8) -> Short<7>
    ensures message { IsRuneMessage value result }
    ensures only { (others : List ℕ) → IsRuneMessage value others → others ≡ result }
{
    let front = [u16::from(value / 16), u16::from(value % 16)];
    coded(&front, &mut [0; 5])
}

/// The words as they are drawn: every second bit is turned.
fn masked(words: &Short<7>) -> Short<7>
    requires { All (λ word. word < 16) words.now }
    ensures { result ≡ masked_words words.now }
{
    let mut all = Short::new();
    for word in words.as_slice() {
        all.push(*word ^ 10);
    }
    all
}

ghost use Rattle.std.specs.Prelude.{◌≡◌, ℕ, ◌+◌, ◌++◌, ◌<◌, ◌≤◌, All, List, length};
ghost use Rattle.galois.specs.CheckNumbers.{IsContinuation, polynomial_of};
ghost use Rattle.aztec_layout.specs.ModeMessage.{CanHold, IsModeMessage};
ghost use Rattle.aztec_layout.specs.Sizes.{IsSize};

use crate::sizes::Size;
use bar_base::Short;
use galois::P16;
use rs_encode::encode_numbers;

/// The 4-bit words of the mode message of a symbol with `held` data codewords, the check words
/// behind the others (ISO/IEC 24778, mode message): 7 in a compact symbol, which holds at most 64
/// data codewords, and 10 in a full one.
pub fn mode_words(size: Size, held: u32) -> Short<10>
    requires sized { IsSize size }
    requires held { CanHold size held }
    ensures message { IsModeMessage size held result }
    ensures only { (others : List ℕ) → IsModeMessage size held others → others ≡ result }
{
    if size.full {
        let number = (size.layers - 1) * 2048 + held - 1;
        let front = [
            (number / 4096) as u16,
            (number / 256 % 16) as u16,
            (number / 16 % 16) as u16,
            (number % 16) as u16,
        ];
        coded(&front, &mut [0; 6])
    } else {
        let number = (size.layers - 1) * 64 + held - 1;
        let front = [(number / 16) as u16, (number % 16) as u16];
        coded(&front, &mut [0; 5])
    }
}

/// The words of a front, and behind them as many check words as there is room for in `check`.
pub(crate) fn coded<const N: usize>(front: &[u16], check: &mut [u16]) -> Short<N>
    requires each { All (λ word. word < 16) front.now }
    requires room { length front.now + length check.old ≤ N }
    requires few { length front.now + length check.old ≤ 15 }
    ensures { IsContinuation 4 (polynomial_of 4) front.now (length check.old) result }
{
    encode_numbers::<P16>(front, check);
    let mut words = Short::new();
    push_words(&mut words, front);
    push_words(&mut words, check);
    words
}

/// Puts words of four bits at the end.
fn push_words<const N: usize>(words: &mut Short<N>, more: &[u16])
    requires each { All (λ word. word < 16) more.now }
    requires room { length words.old + length more.now ≤ N }
    ensures { words.new ≡ words.old ++ more.now }
{
    for word in more {
        words.push(*word as u8);
    }
}

ghost use Rattle.std.specs.Prelude.{◌≡◌, ◌<◌, ◌≤◌, length};
ghost use Rattle.aztec_layout.specs.Smallest.{AreBoundedNeeds, AreNeeds, CountsUpTo};
ghost use Rattle.aztec_layout.specs.Stuffing.{CountsStuffed, IsWidth};

use crate::fitting::Needs;
use crate::stuffing::{next_word, taken_length};
use bar_base::Bits;

/// The numbers of stuffed codewords of fewer than 1,000,000 bits at each width, without the codewords
/// (ISO/IEC 24778, bit stuffing).
pub fn needs(bits: &Bits) -> Needs
    requires { length bits.now < 1000000 }
    ensures { AreNeeds bits.now result }
{
    Needs {
        w6: count(bits, 6),
        w8: count(bits, 8),
        w10: count(bits, 10),
        w12: count(bits, 12),
    }
}

/// The same where they are at most as many as the largest size of their width has, else larger numbers, for which
/// nothing is counted.
pub(crate) fn bounded_needs(bits: &Bits) -> Needs
    requires { length bits.now < 1000000 }
    ensures { AreBoundedNeeds bits.now result }
{
    Needs {
        w6: count_up_to(bits, 6, 48),
        w8: count_up_to(bits, 8, 240),
        w10: count_up_to(bits, 10, 1020),
        w12: count_up_to(bits, 12, 1664),
    }
}

/// The number of stuffed codewords at a width, or one more than `most` where the bits are too many for so few.
fn count_up_to(bits: &Bits, width: u32, most: u32) -> u32
    requires wide { IsWidth width }
    requires few { length bits.now < 1000000 }
    requires most { most ≤ 1664 }
    ensures { CountsUpTo width bits.now most result }
{
    if bits.len() > width as usize * most as usize {
        most + 1
    } else {
        count(bits, width)
    }
}

/// The number of stuffed codewords at a width.
pub(crate) fn count(bits: &Bits, width: u32) -> u32
    requires wide { IsWidth width }
    requires few { length bits.now < 1000000 }
    ensures { CountsStuffed width bits.now result }
{
    let mut words = 0;
    let mut at = 0;
    while at < bits.len() {
        let word = next_word(bits, at, width);
        words += 1;
        at += taken_length(width, word);
    }
    words
}

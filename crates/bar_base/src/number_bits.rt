//! Numbers as bits.
ghost use Rattle.std.specs.Prelude.{◌≡◌, ◌≤◌, ◌++◌, OnOk};
ghost use Rattle.bar_base.specs.Bits.{to_bits};

use crate::lists::Bits;
use crate::no_memory::NoMemory;

/// Puts the lowest `width` bits of a number at the end, the highest first; `width` is at most 32. Without memory some of them may have
/// been put there.
pub fn push_bits(bits: &mut Bits, width: u32, number: u32) -> Result<(), NoMemory>
    requires { width ≤ 32 }
    ensures pushed { OnOk result (bits.new ≡ bits.old ++ to_bits width number) }
{
    for i in 0..width {
        bits.push((number >> (width - 1 - i)) % 2 == 1)?;
    }
    Ok(())
}

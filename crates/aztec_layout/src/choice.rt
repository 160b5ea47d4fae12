ghost use Rattle.std.specs.Prelude.{◌≡◌, ◌<◌, IfErr, IfOk, length};

use crate::sizes::Size;

/// No allowed size holds the data: what the last one, by side, needs for it and holds.
#[derive(Clone, Copy, Debug, PartialEq, Eq)]
pub struct NoFit {
    /// The data codewords that are needed at the width of the last allowed size.
    pub needed: u32,
    /// The last allowed size.
    pub last: Size,
    /// The data codewords that it holds.
    pub held: u32,
}

ghost use Rattle.aztec_layout.specs.Allowed.{CanBeAsked, IsLast, counted_share};
ghost use Rattle.aztec_layout.specs.Sizes.{holds_of};
ghost use Rattle.aztec_layout.specs.Smallest.{HasNoFit, IsSmallest, Takes};

use crate::allowed::Allowed;
use crate::counting::{bounded_needs, count};
use crate::fitting::first_size;
use crate::sizes::{holds, width};
use bar_base::Bits;

/// The first allowed size, by side and compact before full, that holds the stuffed codewords of
/// fewer than 1,000,000 bits (ISO/IEC 24778, error correction). NoFit comes exactly where no
/// allowed size holds them.
pub fn fit(bits: &Bits, allowed: Allowed) -> Result<Size, NoFit>
    requires few { length bits.now < 1000000 }
    requires can_be_asked { CanBeAsked allowed }
    ensures smallest { IfOk result (IsSmallest bits.now allowed) }
    ensures none { IfErr result (HasNoFit bits.now allowed) }
{
    match first_size(bounded_needs(bits), allowed) {
        Some(size) => Ok(size),
        None => Err(no_fit(bits, allowed)),
    }
}

/// What the last allowed size needs and holds.
fn no_fit(bits: &Bits, allowed: Allowed) -> NoFit
    requires few { length bits.now < 1000000 }
    requires can_be_asked { CanBeAsked allowed }
    ensures last { IsLast allowed result.last }
    ensures takes { Takes bits.now result.last result.needed }
    ensures held { result.held ≡ holds_of result.last (counted_share allowed) }
{
    let last = allowed.last();
    NoFit {
        needed: count(bits, width(last)),
        last,
        held: holds(last, allowed.share()),
    }
}

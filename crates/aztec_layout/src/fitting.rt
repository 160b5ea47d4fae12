ghost use Rattle.std.specs.Prelude.{◌≡◌, ◌≤◌, ◌<◌, IfSome, IfNone};

/// The numbers of codewords that data needs at each width of a codeword.
#[derive(Clone, Copy, Debug, PartialEq, Eq)]
pub struct Needs {
    /// Codewords of 6 bits.
    pub w6: u32,
    /// Codewords of 8 bits.
    pub w8: u32,
    /// Codewords of 10 bits.
    pub w10: u32,
    /// Codewords of 12 bits.
    pub w12: u32,
}

ghost use Rattle.aztec_layout.specs.Allowed.{CanBeAsked, IsFirstSize, NoSize};
ghost use Rattle.aztec_layout.specs.Sizes.{IsSize};
ghost use Rattle.aztec_layout.specs.Smallest.{HoldsNeeds, allowed_by, needed_at, rank_of, version_named};

use crate::allowed::Allowed;
use crate::sizes::{Size, holds};

/// The number of sizes.
const SIZES: u32 = 36;

/// The first allowed size, by side and compact before full, that holds data of the numbers of
/// codewords `needs` and keeps `share` percent, 0 to 50, and three more codewords for the check.
/// Version `vers` 0 allows all sizes; 1 to 4 are the compact sizes and 5 to 36 the full ones, and
/// with such a version the share counts as 0. None where no allowed size holds the data.
pub fn smallest(needs: Needs, share: u32, vers: u32) -> Option<Size>
    requires shared { share ≤ 50 }
    requires versioned { vers ≤ 36 }
    ensures first { IfSome result (IsFirstSize (allowed_by share vers) (HoldsNeeds needs (allowed_by share vers))) }
    ensures none { IfNone result (NoSize (allowed_by share vers) (HoldsNeeds needs (allowed_by share vers))) }
{
    first_size(needs, Allowed::of(share, named(vers)))
}

/// A version but 0.
fn named(vers: u32) -> Option<u32>
    ensures { result ≡ version_named vers }
{
    if vers == 0 { None } else { Some(vers) }
}

/// The first allowed size, by side and compact before full, that holds data of the numbers of
/// codewords `needs`. None where no allowed size holds the data.
pub fn first_size(needs: Needs, allowed: Allowed) -> Option<Size>
    requires { CanBeAsked allowed }
    ensures first { IfSome result (IsFirstSize allowed (HoldsNeeds needs allowed)) }
    ensures none { IfNone result (NoSize allowed (HoldsNeeds needs allowed)) }
{
    let share = allowed.share();
    for rank in 0..SIZES {
        let size = ranked(rank);
        if allowed.allows(size) && needed(needs, size) <= holds(size, share) {
            return Some(size);
        }
    }
    None
}

/// The size at a place in the order by side, compact before full.
fn ranked(rank: u32) -> Size
    requires { rank < 36 }
    ensures sized { IsSize result }
    ensures ranked { rank_of result ≡ rank }
{
    if rank == 0 || rank == 1 || rank == 3 || rank == 5 {
        Size {
            full: false,
            layers: (rank + 3) / 2,
        }
    } else if rank <= 6 {
        Size {
            full: true,
            layers: rank / 2,
        }
    } else {
        Size {
            full: true,
            layers: rank - 3,
        }
    }
}

/// The codewords that data needs at the width of a size.
pub fn needed(needs: Needs, size: Size) -> u32
    ensures { result ≡ needed_at needs size }
{
    if size.layers <= 2 {
        needs.w6
    } else if size.layers <= 8 {
        needs.w8
    } else if size.layers <= 22 {
        needs.w10
    } else {
        needs.w12
    }
}

ghost use Rattle.std.specs.Prelude.{◌≡◌, ◌≤◌, ◌↔◌, IsTrue, Option, None, Some};
ghost use Rattle.std.specs.Option.{ForSome};
ghost use Rattle.aztec_layout.specs.Allowed.{CanBeAsked, IsAllowed, IsLast, allowed_of, counted_share, size_of_version};
ghost use Rattle.aztec_layout.specs.Sizes.{IsSize};

use crate::sizes::Size;

/// Which sizes a symbol may have.
#[derive(Clone, Copy, Debug, PartialEq, Eq)]
pub enum Allowed {
    /// All 36 sizes: this share of the codewords, 0 to 50 percent, and three more are kept for the check.
    AtShare(u32),
    /// This size alone, in which three codewords are kept for the check.
    Named(Size),
}

/// The number of compact sizes, which are the first versions.
const COMPACT_SIZES: u32 = 4;

/// The number of full sizes.
const FULL_SIZES: u32 = 32;

impl Allowed {
    /// What a version allows: the size that it names, 1 to 4 the compact ones and 5 to 36 the full ones; without a version
    /// all sizes at a share of check codewords of 0 to 50 percent.
    pub fn of(share: u32, version: Option<u32>) -> Allowed
        requires share { share ≤ 50 }
        requires version { ForSome version (λ v. (1 ≤ v) × (v ≤ 36)) }
        ensures allowed { result ≡ allowed_of share version }
        ensures can_be_asked { CanBeAsked result }
    {
        match version {
            None => Allowed::AtShare(share),
            Some(version) => Allowed::Named(size_of(version)),
        }
    }

    /// The share of check codewords that counts, in percent.
    pub fn share(self) -> u32
        requires { CanBeAsked self }
        ensures share { result ≡ counted_share self }
        ensures bounded { result ≤ 50 }
    {
        match self {
            Allowed::AtShare(share) => share,
            Allowed::Named(_) => 0,
        }
    }

    /// Whether a size is allowed.
    pub fn allows(self, size: Size) -> bool
        requires { IsSize size }
        ensures { IsTrue result ↔ IsAllowed self size }
    {
        match self {
            Allowed::AtShare(_) => true,
            Allowed::Named(named) => size == named,
        }
    }

    /// The last of the allowed sizes, by side and compact before full.
    pub fn last(self) -> Size
        requires { CanBeAsked self }
        ensures { IsLast self result }
    {
        match self {
            Allowed::AtShare(_) => Size {
                full: true,
                layers: FULL_SIZES,
            },
            Allowed::Named(size) => size,
        }
    }
}

/// The size that a version of 1 to 36 names.
fn size_of(version: u32) -> Size
    requires some { 1 ≤ version }
    requires few { version ≤ 36 }
    ensures size { result ≡ size_of_version version }
    ensures sized { IsSize result }
{
    if version <= COMPACT_SIZES {
        Size {
            full: false,
            layers: version,
        }
    } else {
        Size {
            full: true,
            layers: version - COMPACT_SIZES,
        }
    }
}

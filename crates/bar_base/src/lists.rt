//! The lists that the crates share.
ghost use Rattle.std.specs.Prelude.{◌<◌, ◌^◌};
ghost use Rattle.bar_base.specs.Elements.{IsElement};

use crate::element::Element;
use crate::items::{Item, Items};

/// A list of elements, each a byte, an ECI of at most 999,999 or FNC1.
pub type Elements = Items<Element>;

/// A list of bits, each a `bool`.
pub type Bits = Items<bool>;

/// A list of codewords, each a `u16`.
pub type Words = Items<u16>;

impl Item for Element {
    ghost is_item = { IsElement };
}

impl Item for bool {}

impl Item for u16 {
    ghost is_item = { λ word. word < 2 ^ 16 };
}

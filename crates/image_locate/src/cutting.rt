//! The grid of the modules of a symbol that stands in a picture of pixels.
ghost use Rattle.std.specs.Prelude.{◌≡◌, IfNone, IfOk, IfSome};
ghost use Rattle.bar_base.specs.Picture.{Picture};
ghost use Rattle.aztec_layout.specs.Sizes.{IsSize};
ghost use Rattle.image_locate.specs.Stands.{IsCut, IsStand};

use crate::modules_seen::module_seen;
use crate::stand::Stand;
use aztec_layout::{Size, side};
use bar_base::{Grid, NoMemory};
use std::alloc::Global;

/// The grid of the modules of a size, of the kind of a stand, as they stand in a picture of pixels: one module for each, the
/// symbol turned back. None where one of them lies outside the picture.
pub fn cut(
    alloc: Global,
    picture: &Grid,
    stand: Stand,
    size: Size,
) -> Result<Option<Grid>, NoMemory>
    requires ranged { IsStand stand }
    requires sized { IsSize size }
    requires kind { size.full ≡ stand.full }
    ensures cut { IfOk result (λ cut. IfSome cut (IsCut picture.now stand size)) }
    ensures none { IfOk result (λ cut. IfNone cut ((grid : Picture) → IsCut picture.now stand size grid → ⊥)) }
{
    let side = side(size);
    let mut grid = Grid::new(alloc, side, side)?;
    for n in 0..side * side {
        match module_seen(picture, stand, side / 2, n % side, n / side) {
            None => return Ok(None),
            Some(dark) => grid.set(n % side, n / side, dark),
        }
    }
    Ok(Some(grid))
}

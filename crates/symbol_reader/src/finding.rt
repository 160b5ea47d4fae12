ghost use Rattle.std.specs.Prelude.{◌≡◌, ℕ, IfOk, IfErr, IfSome, IfNone, true, false};
ghost use Rattle.bar_base.specs.Picture.{row_count};
ghost use Rattle.aztec_layout.specs.DataReading.{HasSide};
ghost use Rattle.symbol_reader.specs.Reading.{IsFaultIn, IsFound};
ghost use Rattle.symbol_reader.specs.Sight.{IsFirstWrong, StandsIn, earlier_of, is_earlier, seen_sight};

use crate::grid_fault::GridFault;
use crate::seen::Seen;
use aztec_layout::{Size, finder, side};
use bar_base::Grid;

/// The size of a kind whose side a square picture has.
fn size_of(grid: &Grid, full: bool) -> Option<Size>
    requires square { row_count grid.now ≡ grid.now.width }
    ensures side { IfSome result (HasSide grid.now) }
    ensures kind { IfSome result (λ size. size.full ≡ full) }
    ensures none { IfNone result ((layers : ℕ) → HasSide grid.now (record { full = full; layers = layers }) → ⊥) }
{
    let most = if full { 32u32 } else { 4u32 };
    for layers in 1..most + 1 {
        if side(Size { full, layers }) == grid.width() {
            return Some(Size { full, layers });
        }
    }
    None
}

/// Whether a place comes before another one, row by row from the top, each row from the left.
fn is_earlier(place: (u32, u32), other: (u32, u32)) -> bool
    ensures { result ≡ is_earlier place.0 place.1 other.0 other.1 }
{
    place.1 < other.1 || (place.1 == other.1 && place.0 < other.0)
}

/// The earlier of two places, where there are any.
#[tactic(auto, unfolding(crate::specs::Sight::earlier_of))]
fn earlier(one: Option<(u32, u32)>, other: Option<(u32, u32)>) -> Option<(u32, u32)>
    ensures { result ≡ earlier_of one other }
{
    match (one, other) {
        (Some(place), Some(another)) => {
            if is_earlier(another, place) {
                Some(another)
            } else {
                Some(place)
            }
        }
        (Some(place), None) => Some(place),
        (None, another) => another,
    }
}

/// The first module of finder and orientation marks that differs or is unknown, or None where they stand.
fn wrong_module(seen: &Seen<'_>, size: Size) -> Option<(u32, u32)>
    requires { HasSide seen.now.grid.now size }
    ensures stands { IfNone result (StandsIn size.full (seen_sight seen.now)) }
    ensures wrong { IfSome result (λ place. IsFirstWrong size.full (seen_sight seen.now) place.0 place.1) }
{
    let differing = finder(seen.grid, size.full);
    if seen.whole {
        return differing;
    }
    earlier(differing, finder(seen.dark, size.full))
}

/// The size of the symbol in a picture with the side of a compact size.
fn found_beside(seen: &Seen<'_>, compact: Size) -> Result<Size, GridFault>
    requires side { HasSide seen.now.grid.now compact }
    requires kind { compact.full ≡ false }
    ensures found { IfOk result (IsFound (seen_sight seen.now)) }
    ensures refused { IfErr result (IsFaultIn (seen_sight seen.now)) }
{
    let Some(place) = wrong_module(seen, compact) else {
        return Ok(compact);
    };
    let Some(full) = size_of(seen.grid, true) else {
        return Err(GridFault::NoFinder(place.0, place.1));
    };
    match wrong_module(seen, full) {
        None => Ok(full),
        Some(_) => Err(GridFault::NoFinder(place.0, place.1)),
    }
}

/// The size of the symbol in a square picture without the side of a compact size.
fn found_full(seen: &Seen<'_>) -> Result<Size, GridFault>
    requires square { row_count seen.now.grid.now ≡ seen.now.grid.now.width }
    requires none { (layers : ℕ) → HasSide seen.now.grid.now (record { full = false; layers = layers }) → ⊥ }
    ensures found { IfOk result (IsFound (seen_sight seen.now)) }
    ensures refused { IfErr result (IsFaultIn (seen_sight seen.now)) }
{
    let Some(full) = size_of(seen.grid, true) else {
        return Err(GridFault::BadSide(seen.grid.width(), seen.grid.rows()));
    };
    match wrong_module(seen, full) {
        None => Ok(full),
        Some((x, y)) => Err(GridFault::NoFinder(x, y)),
    }
}

/// The size of the symbol in a picture, by its side, its finder and its orientation marks (ISO/IEC 24778, reference
/// decode algorithm).
pub(crate) fn found_size(seen: &Seen<'_>) -> Result<Size, GridFault>
    ensures found { IfOk result (IsFound (seen_sight seen.now)) }
    ensures refused { IfErr result (IsFaultIn (seen_sight seen.now)) }
{
    if seen.grid.rows() != seen.grid.width() {
        return Err(GridFault::BadSide(seen.grid.width(), seen.grid.rows()));
    }
    match size_of(seen.grid, false) {
        Some(compact) => found_beside(seen, compact),
        None => found_full(seen),
    }
}

//! The modules of a symbol that stands in a picture of pixels.
ghost use Rattle.std.specs.Prelude.{◌≡◌, ℕ, ◌*◌, ◌≤◌, true, false};
ghost use Rattle.aztec_layout.specs.Core.{rim_of};
ghost use Rattle.image_locate.specs.Stands.{AgreesAt, IsStand, ShowsFinder, module_seen, pixel_before, turned};

use crate::stand::Stand;
use aztec_layout::{is_core, is_dark_core, rim};
use bar_base::Grid;

/// Where a module goes when a square of modules is turned about its middle.
#[tactic(auto, unfolding(crate::specs::Stands::turned))]
fn turned(turn: u32, middle: u32, a: u32, b: u32) -> (u32, u32)
    requires small { middle ≤ 75 }
    requires column { a ≤ 2 * middle }
    requires row { b ≤ 2 * middle }
    ensures turned { result ≡ turned turn middle a b }
    ensures column_inside { result.0 ≤ 150 }
    ensures row_inside { result.1 ≤ 150 }
{
    if turn == 0 {
        (a, b)
    } else if turn == 1 {
        (2 * middle - b, a)
    } else if turn == 2 {
        (2 * middle - a, 2 * middle - b)
    } else {
        (b, 2 * middle - a)
    }
}

/// So many modules in pixels.
fn in_pixels(unit: u32, modules: u32) -> u64
    requires unit { unit ≤ 64 }
    requires modules { modules ≤ 150 }
    ensures product { result ≡ unit * modules }
    ensures bounded { result ≤ 9600 }
{
    (unit * modules) as u64
}

/// The pixel that lies `back` columns left of column `p` and as many rows above row `q`; None outside the picture.
#[tactic(auto, unfolding(crate::specs::Stands::pixel_before))]
fn pixel_before(picture: &Grid, back: u64, p: u64, q: u64) -> Option<bool>
    requires back { back ≤ 9600 }
    ensures { result ≡ pixel_before picture.now back p q }
{
    if back <= p && p < back + picture.width() as u64 {
        if back <= q && q < back + picture.rows() as u64 {
            return Some(picture.dark((p - back) as u32, (q - back) as u32));
        }
    }
    None
}

/// The module in column `a` and row `b` of a square of modules whose middle is at a stand; None outside the picture.
#[tactic(auto, unfolding(crate::specs::Stands::module_seen))]
pub(crate) fn module_seen(picture: &Grid, stand: Stand, middle: u32, a: u32, b: u32) -> Option<bool>
    requires ranged { IsStand stand }
    requires small { middle ≤ 75 }
    requires column { a ≤ 2 * middle }
    requires row { b ≤ 2 * middle }
    ensures { result ≡ module_seen picture.now stand middle a b }
{
    let place = turned(stand.turn, middle, a, b);
    let p = stand.x as u64 + in_pixels(stand.u, place.0);
    let q = stand.y as u64 + in_pixels(stand.u, place.1);
    pixel_before(picture, in_pixels(stand.u, middle), p, q)
}

/// Whether a module of the finder or the marks is not as it is to be, or outside the picture.
fn differs(picture: &Grid, stand: Stand, a: u32, b: u32) -> bool
    requires ranged { IsStand stand }
    requires column { a ≤ 2 * rim_of stand.full }
    requires row { b ≤ 2 * rim_of stand.full }
    ensures differs { result ≡ true → ShowsFinder picture.now stand → ⊥ }
    ensures agrees { result ≡ false → AgreesAt picture.now stand a b }
{
    let rim = rim(stand.full);
    if !is_core(stand.full, rim, a, b) {
        return false;
    }
    match module_seen(picture, stand, rim, a, b) {
        None => true,
        Some(dark) => dark != is_dark_core(stand.full, rim, a, b),
    }
}

/// Whether a module of a row of the finder and the marks is not as it is to be.
fn differs_in_row(picture: &Grid, stand: Stand, b: u32) -> bool
    requires ranged { IsStand stand }
    requires row { b ≤ 2 * rim_of stand.full }
    ensures differs { result ≡ true → ShowsFinder picture.now stand → ⊥ }
    ensures agrees { result ≡ false → (a : ℕ) → a ≤ 2 * rim_of stand.full → AgreesAt picture.now stand a b }
{
    for a in 0..2 * rim(stand.full) + 1 {
        if differs(picture, stand, a, b) {
            return true;
        }
    }
    false
}

/// Whether a stand shows a finder.
pub(crate) fn shows_finder(picture: &Grid, stand: Stand) -> bool
    requires ranged { IsStand stand }
    ensures shows { result ≡ true → ShowsFinder picture.now stand }
    ensures none { result ≡ false → ShowsFinder picture.now stand → ⊥ }
{
    for b in 0..2 * rim(stand.full) + 1 {
        if differs_in_row(picture, stand, b) {
            return false;
        }
    }
    true
}

//! The search for the first stand that shows a finder.
ghost use Rattle.std.specs.Prelude.{◌≡◌, ℕ, ◌+◌, ◌*◌, ◌<◌, ◌≤◌, IfNone, IfSome};
ghost use Rattle.bar_base.specs.Picture.{row_count};
ghost use Rattle.image_locate.specs.Finding.{AtPixel, HasNoStand, HasRoom, InRow, IsFirstOf, IsFirstStand, OfUnit, kind_and_turn};
ghost use Rattle.image_locate.specs.Stands.{IsStand};

use crate::modules_seen::shows_finder;
use crate::rings::may_stand;
use crate::stand::Stand;
use bar_base::Grid;

/// The first stand that shows a finder in a picture of at most 1,024 by 1,024 pixels, by row, column, pixels of a module,
/// compact before full, and turn; None where no stand does. A pixel is a module of the grid.
pub fn locate(picture: &Grid) -> Option<Stand>
    requires wide { picture.now.width ≤ 1024 }
    requires high { row_count picture.now ≤ 1024 }
    ensures first { IfSome result (IsFirstStand picture.now) }
    ensures none { IfNone result (HasNoStand picture.now) }
{
    for y in 0..picture.rows() {
        match first_in_row(picture, y) {
            Some(stand) => return Some(stand),
            None => {}
        }
    }
    None
}

/// The first stand in a row of pixels.
fn first_in_row(picture: &Grid, y: u32) -> Option<Stand>
    requires row { y < row_count picture.now }
    ensures { IsFirstOf picture.now (InRow y) result }
{
    for x in 0..picture.width() {
        match first_at(picture, x, y) {
            Some(stand) => return Some(stand),
            None => {}
        }
    }
    None
}

/// The most pixels of a module for which a compact core has room at a pixel, at most 64.
fn most_pixels(picture: &Grid, x: u32, y: u32) -> u32
    requires column { x < picture.now.width }
    requires row { y < row_count picture.now }
    ensures room { HasRoom picture.now x y result }
    ensures few { result ≤ 64 }
    ensures column { x ≤ 16384 }
    ensures row { y ≤ 16384 }
    ensures most { (u : ℕ) → HasRoom picture.now x y u → u ≤ 64 → u ≤ result }
{
    let across = x.min(picture.width() - 1 - x);
    let down = y.min(picture.rows() - 1 - y);
    (across.min(down) / 5).min(64)
}

/// The first stand at a pixel.
fn first_at(picture: &Grid, x: u32, y: u32) -> Option<Stand>
    requires column { x < picture.now.width }
    requires row { y < row_count picture.now }
    ensures { IsFirstOf picture.now (AtPixel x y) result }
{
    if !picture.dark(x, y) {
        return None;
    }
    for u in 1..most_pixels(picture, x, y) + 1 {
        match first_of_unit(picture, x, y, u) {
            Some(stand) => return Some(stand),
            None => {}
        }
    }
    None
}

/// The first stand at a pixel of a symbol with modules of so many pixels.
fn first_of_unit(picture: &Grid, x: u32, y: u32, u: u32) -> Option<Stand>
    requires room { HasRoom picture.now x y u }
    requires column { x ≤ 16384 }
    requires row { y ≤ 16384 }
    requires some { 1 ≤ u }
    requires few { u ≤ 64 }
    ensures { IsFirstOf picture.now (OfUnit x y u) result }
{
    if !may_stand(picture, x, y, u) {
        return None;
    }
    first_turned(picture, x, y, u)
}

/// The first of the eight stands at a pixel of a symbol with modules of so many pixels: compact, then full, by their turns.
fn first_turned(picture: &Grid, x: u32, y: u32, u: u32) -> Option<Stand>
    requires some { 1 ≤ u }
    requires few { u ≤ 64 }
    ensures { IsFirstOf picture.now (OfUnit x y u) result }
{
    for number in 0..8 {
        let stand = stand_of(x, y, u, number);
        if shows_finder(picture, stand) {
            return Some(stand);
        }
    }
    None
}

/// The stand with a number from 0 to 7: compact, then full, by turns.
fn stand_of(x: u32, y: u32, u: u32, number: u32) -> Stand
    requires some { 1 ≤ u }
    requires few { u ≤ 64 }
    requires number { number < 8 }
    ensures ranged { IsStand result }
    ensures unit { OfUnit x y u result }
    ensures number { kind_and_turn result ≡ number }
{
    Stand {
        y,
        x,
        u,
        full: number >= 4,
        turn: number % 4,
    }
}

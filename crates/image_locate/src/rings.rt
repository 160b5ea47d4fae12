//! What each stand that shows a finder has in common at a pixel, by which most pixels are passed over.
ghost use Rattle.std.specs.Prelude.{◌≡◌, ◌+◌, ◌-◌, ◌*◌, ◌<◌, ◌≤◌, true, false};
ghost use Rattle.bar_base.specs.Picture.{row_count};
ghost use Rattle.image_locate.specs.Finding.{HasRoom, IsFirstOf, OfUnit};
ghost use Rattle.std.specs.declared.option.Option.TheVariants.{None as Nothing};

use aztec_layout::is_dark_core;
use bar_base::Grid;

/// Whether the four modules beside a central one are light. All four are looked at: in pictures of any kind one of them is
/// dark most of the time, but which one cannot be foretold.
fn is_alone(picture: &Grid, x: u32, y: u32, u: u32) -> bool
    requires room { HasRoom picture.now x y u }
    requires few { u ≤ 64 }
    requires column { x ≤ 16384 }
    requires row { y ≤ 16384 }
    ensures { result ≡ false → IsFirstOf picture.now (OfUnit x y u) Nothing }
{
    let across = has_other(picture, x, y, u, 5, 4) | has_other(picture, x, y, u, 3, 4);
    let down = has_other(picture, x, y, u, 4, 5) | has_other(picture, x, y, u, 4, 3);
    !(across | down)
}

/// Whether the four modules at the corners of a central one are light.
fn has_light_corners(picture: &Grid, x: u32, y: u32, u: u32) -> bool
    requires room { HasRoom picture.now x y u }
    requires few { u ≤ 64 }
    requires column { x ≤ 16384 }
    requires row { y ≤ 16384 }
    ensures { result ≡ false → IsFirstOf picture.now (OfUnit x y u) Nothing }
{
    if has_other(picture, x, y, u, 5, 5) || has_other(picture, x, y, u, 3, 3) {
        return false;
    }
    !has_other(picture, x, y, u, 3, 5) && !has_other(picture, x, y, u, 5, 3)
}

/// Whether the inner nine by nine modules about a central one are as in every finder.
fn has_rings(picture: &Grid, x: u32, y: u32, u: u32) -> bool
    requires room { HasRoom picture.now x y u }
    requires few { u ≤ 64 }
    requires column { x ≤ 16384 }
    requires row { y ≤ 16384 }
    ensures { result ≡ false → IsFirstOf picture.now (OfUnit x y u) Nothing }
{
    for n in 0..81 {
        if has_other(picture, x, y, u, n % 9, n / 9) {
            return false;
        }
    }
    true
}

/// Whether one of these modules is not as in every finder.
fn has_other(picture: &Grid, x: u32, y: u32, u: u32, a: u32, b: u32) -> bool
    requires room { HasRoom picture.now x y u }
    requires few { u ≤ 64 }
    requires column { x ≤ 16384 }
    requires row { y ≤ 16384 }
    requires inner_column { a < 9 }
    requires inner_row { b < 9 }
    ensures { result ≡ true → IsFirstOf picture.now (OfUnit x y u) Nothing }
{
    picture.dark(x + u * a - 4 * u, y + u * b - 4 * u) != is_dark_core(false, 5, a + 1, b + 1)
}

/// Whether a finder may stand at a pixel with modules of so many pixels.
pub(crate) fn may_stand(picture: &Grid, x: u32, y: u32, u: u32) -> bool
    requires room { HasRoom picture.now x y u }
    requires few { u ≤ 64 }
    requires column { x ≤ 16384 }
    requires row { y ≤ 16384 }
    ensures { result ≡ false → IsFirstOf picture.now (OfUnit x y u) Nothing }
{
    is_alone(picture, x, y, u) && has_light_corners(picture, x, y, u) && has_rings(picture, x, y, u)
}

ghost use Rattle.std.specs.Prelude.{◌≡◌, ℕ, ◌+◌, ◌*◌, ◌^◌, ◌<◌, ◌≤◌};
ghost use Rattle.std.specs.Bool.{OnTrue};
ghost use Rattle.aztec_layout.specs.Core.{IsBare, dark_marks, ring_of, is_among, is_dark_fixed as is_dark_fixed_at, is_dark_finder as is_dark_finder_at, is_dark_mark as is_dark_mark_at, is_dark_reference as is_dark_reference_at, is_finder as is_finder_at, is_light_mark as is_light_mark_at, light_marks, mode_line as mode_line_of, mode_place as mode_place_of, mode_run as mode_run_of, rim_of};

/// The distance of the orientation marks and the mode message from the centre, in modules: 5 in a compact symbol, 7 in
/// a full one (ISO/IEC 24778, symbol structure).
pub fn rim(full: bool) -> u32
    ensures { result ≡ rim_of full }
{
    if full { 7 } else { 5 }
}

/// The bits of the mode message on one side.
pub(crate) fn mode_run(full: bool) -> u32
    ensures { result ≡ mode_run_of full }
{
    if full { 10 } else { 7 }
}

/// The distance of a module from the centre.
fn ring(centre: u32, x: u32, y: u32) -> u32
    ensures { result ≡ ring_of centre x y }
{
    x.abs_diff(centre).max(y.abs_diff(centre))
}

/// Whether a module belongs to the finder.
pub(crate) fn is_finder(full: bool, centre: u32, x: u32, y: u32) -> bool
    ensures { result ≡ is_finder_at full centre x y }
{
    ring(centre, x, y) < rim(full)
}

/// Whether a module is a dark one of the finder.
pub(crate) fn is_dark_finder(full: bool, centre: u32, x: u32, y: u32) -> bool
    ensures { result ≡ is_dark_finder_at full centre x y }
{
    is_finder(full, centre, x, y) && ring(centre, x, y) % 2 == 0
}

/// Whether a module is a dark orientation mark.
pub(crate) fn is_dark_mark(full: bool, centre: u32, x: u32, y: u32) -> bool
    requires room { rim_of full ≤ centre }
    requires fits { centre < 2 ^ 31 }
    ensures { result ≡ is_dark_mark_at full centre x y }
{
    is_dark_corner(centre - rim(full), centre + rim(full), x, y)
}

/// Whether a module is one of the dark marks in a rim from `low` to `high`.
fn is_dark_corner(low: u32, high: u32, x: u32, y: u32) -> bool
    requires room { low + 2 ≤ high }
    ensures { result ≡ is_among x y (dark_marks low high) }
{
    if y == low {
        x == low || x == low + 1 || x == high
    } else if y == low + 1 {
        x == low || x == high
    } else {
        y == high - 1 && x == high
    }
}

/// Whether a module is a light orientation mark.
pub(crate) fn is_light_mark(full: bool, centre: u32, x: u32, y: u32) -> bool
    requires room { rim_of full ≤ centre }
    requires fits { centre < 2 ^ 31 }
    ensures { result ≡ is_light_mark_at full centre x y }
{
    is_light_corner(centre - rim(full), centre + rim(full), x, y)
}

/// Whether a module is one of the light marks in a rim from `low` to `high`.
fn is_light_corner(low: u32, high: u32, x: u32, y: u32) -> bool
    requires room { low + 2 ≤ high }
    ensures { result ≡ is_among x y (light_marks low high) }
{
    if y == high {
        x == low || x == low + 1 || x == high - 1 || x == high
    } else if y == high - 1 {
        x == low
    } else {
        y == low && x == high - 1
    }
}

/// Whether a module is a dark one of the reference grid.
fn is_dark_reference(full: bool, centre: u32, x: u32, y: u32) -> bool
    ensures { result ≡ is_dark_reference_at full centre x y }
{
    let across = x.abs_diff(centre);
    let down = y.abs_diff(centre);
    let on_line = across % 16 == 0 || down % 16 == 0;
    full && on_line && across.max(down) >= rim(full) && (across % 2 == down % 2)
}

/// Whether a module is dark whatever the symbol says.
pub(crate) fn is_dark_fixed(full: bool, centre: u32, x: u32, y: u32) -> bool
    requires room { rim_of full ≤ centre }
    requires fits { centre < 2 ^ 31 }
    ensures { result ≡ is_dark_fixed_at full centre x y }
{
    if is_bare(centre, x, y) {
        return false;
    }
    is_dark_finder(full, centre, x, y)
        || is_dark_mark(full, centre, x, y)
        || is_dark_reference(full, centre, x, y)
}

/// Whether a module lies outside each core and off each line of the reference grid.
fn is_bare(centre: u32, x: u32, y: u32) -> bool
    ensures { OnTrue result (IsBare centre x y) }
{
    let across = x.abs_diff(centre);
    let down = y.abs_diff(centre);
    across % 16 != 0 && down % 16 != 0 && across.max(down) > 7
}

/// The column and row of a bit of the mode message.
pub(crate) fn mode_place(full: bool, centre: u32, bit: u32) -> (u32, u32)
    requires room { rim_of full ≤ centre }
    requires fits { centre < 2 ^ 31 }
    requires inside { bit < 4 * mode_run_of full }
    ensures column { result.0 ≡ (mode_place_of full centre bit).0 }
    ensures row { result.1 ≡ (mode_place_of full centre bit).1 }
    ensures column_inside { result.0 ≤ centre + rim_of full }
    ensures row_inside { result.1 ≤ centre + rim_of full }
{
    let run = mode_run(full);
    let low = centre - rim(full);
    let high = centre + rim(full);
    if bit < run {
        (mode_line(full, centre, bit), low)
    } else if bit < 2 * run {
        (high, mode_line(full, centre, bit - run))
    } else if bit < 3 * run {
        (mode_line(full, centre, 3 * run - 1 - bit), high)
    } else {
        (low, mode_line(full, centre, 4 * run - 1 - bit))
    }
}

/// The column or row of bit `number` on a side.
fn mode_line(full: bool, centre: u32, number: u32) -> u32
    requires room { rim_of full ≤ centre }
    requires fits { centre < 2 ^ 31 }
    requires inside { number < mode_run_of full }
    ensures line { result ≡ mode_line_of full centre number }
    ensures bounded { result ≤ centre + 5 }
{
    if full {
        centre - 5 + number + number / 5
    } else {
        centre - 3 + number
    }
}

ghost use Rattle.std.specs.Prelude.{◌≡◌, ℕ, ◌+◌, ◌*◌, ◌/◌, ◌<◌, ◌≤◌, ◌^◌, not, false, true, List, Some, IfNone, IfSome, slice_get};
ghost use Rattle.bar_base.specs.Bits.{to_bits};
ghost use Rattle.bar_base.specs.Picture.{module_at, row_count};
ghost use Rattle.aztec_layout.specs.Core.{is_core as is_core_at, is_dark_core as is_dark_core_at, mode_place as mode_place_of, mode_run as mode_run_of, rim_of};
ghost use Rattle.aztec_layout.specs.CoreReading.{Agrees, AreModeWords, Differs, IsFirstDiffering, HasFinder, mode_module};

use crate::core_symbol::{
    is_dark_finder, is_dark_mark, is_finder, is_light_mark, mode_place, mode_run,
};
use bar_base::{Grid, Short};

/// None where the finder and the orientation marks of a kind of symbol stand in a square grid with
/// room for them, else the column and row of the first of their modules, row by row, that differs
/// (ISO/IEC 24778, symbol structure).
pub fn finder(grid: &Grid, full: bool) -> Option<(u32, u32)>
    requires square { row_count grid.now ≡ grid.now.width }
    requires room { 2 * rim_of full < grid.now.width }
    ensures found { IfNone result (HasFinder full grid.now) }
    ensures differs { IfSome result (λ place. IsFirstDiffering full grid.now place.0 place.1) }
{
    for y in 0..grid.rows() {
        match differing_in_row(grid, full, y) {
            Some(x) => return Some((x, y)),
            None => {}
        }
    }
    None
}

/// The column of the first module of finder and marks in a row that differs.
fn differing_in_row(grid: &Grid, full: bool, y: u32) -> Option<u32>
    requires square { row_count grid.now ≡ grid.now.width }
    requires room { 2 * rim_of full < grid.now.width }
    requires row { y < row_count grid.now }
    ensures agrees { IfNone result ((a : ℕ) → a < grid.now.width → Agrees full grid.now a y) }
    ensures column { IfSome result (λ x. x < grid.now.width) }
    ensures differs { IfSome result (λ x. Differs full grid.now x y) }
    ensures before { IfSome result (λ x. (a : ℕ) → a < x → Agrees full grid.now a y) }
{
    for x in 0..grid.width() {
        if differs(grid, full, x, y) {
            return Some(x);
        }
    }
    None
}

/// Whether a module belongs to finder and marks and is not as it is to be.
fn differs(grid: &Grid, full: bool, x: u32, y: u32) -> bool
    requires square { row_count grid.now ≡ grid.now.width }
    requires room { 2 * rim_of full < grid.now.width }
    requires column { x < grid.now.width }
    requires row { y < row_count grid.now }
    ensures differs { result ≡ true → Differs full grid.now x y }
    ensures agrees { result ≡ false → Agrees full grid.now x y }
{
    let centre = grid.width() / 2;
    is_core(full, centre, x, y) && grid.dark(x, y) != is_dark_core(full, centre, x, y)
}

/// Whether a module belongs to the finder or the orientation marks round a centre, for a kind of symbol (ISO/IEC 24778,
/// symbol structure).
pub fn is_core(full: bool, centre: u32, x: u32, y: u32) -> bool
    requires room { rim_of full ≤ centre }
    requires fits { centre < 2 ^ 31 }
    ensures { result ≡ is_core_at full centre x y }
{
    is_finder(full, centre, x, y)
        || is_dark_mark(full, centre, x, y)
        || is_light_mark(full, centre, x, y)
}

/// Whether a module is a dark one of the finder or the orientation marks round a centre (ISO/IEC 24778, symbol structure).
pub fn is_dark_core(full: bool, centre: u32, x: u32, y: u32) -> bool
    requires room { rim_of full ≤ centre }
    requires fits { centre < 2 ^ 31 }
    ensures { result ≡ is_dark_core_at full centre x y }
{
    is_dark_finder(full, centre, x, y) || is_dark_mark(full, centre, x, y)
}

/// The 4-bit words of a mode message as they stand in a square grid with room for the core of the
/// kind: 7 in a compact symbol, 10 in a full one (ISO/IEC 24778, mode message).
pub fn mode_read(grid: &Grid, full: bool) -> Short<10>
    requires square { row_count grid.now ≡ grid.now.width }
    requires room { 2 * rim_of full < grid.now.width }
    ensures words { AreModeWords full grid.now result }
    ensures only { (others : List ℕ) → AreModeWords full grid.now others → others ≡ result }
{
    let mut words = Short::new();
    for place in 0..mode_run(full) {
        words.push(mode_word(grid, full, place));
    }
    words
}

/// One of those words, by its place.
fn mode_word(grid: &Grid, full: bool, place: u32) -> u8
    requires square { row_count grid.now ≡ grid.now.width }
    requires room { 2 * rim_of full < grid.now.width }
    requires inside { place < mode_run_of full }
    ensures below { result < 16 }
    ensures bits { (i : ℕ) → i < 4 → slice_get (to_bits 4 result) i ≡ mode_module full grid.now (4 * place + i) }
{
    let centre = grid.width() / 2;
    let mut word = 0;
    for i in 0..4 {
        let (x, y) = mode_place(full, centre, 4 * place + i);
        word = word * 2 + u8::from(grid.dark(x, y));
    }
    word
}

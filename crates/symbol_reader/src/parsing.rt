ghost use Rattle.std.specs.Prelude.{◌≡◌, ◌≤◌, ◌*◌, ◌++◌, IfOk, IfErr, OnOk, length, replicate};
ghost use Rattle.bar_base.specs.Picture.{Picture};
ghost use Rattle.symbol_reader.specs.declared.text_fault.TextFault.TheVariants.{NoMemory as Wanting};
ghost use Rattle.symbol_reader.specs.GridLines.{IsPictureOf, IsPictureWithin, IsTextFault, IsTextFaultFor, GivesItsPicture};
ghost use Rattle.symbol_reader.specs.Scanning.{byte_modules, modules_in};

use crate::scanning::sides;
use crate::text_fault::TextFault;
use bar_base::{Grid, NoMemory};
use std::alloc::Global;

/// The most modules on a side of a symbol.
pub(crate) const MOST_ON_SIDE: u32 = 151;

/// Puts the module that a byte is, if it is one, at the end.
fn push_module(modules: &mut Vec<bool>, byte: u8) -> Result<(), NoMemory>
    ensures { OnOk result (modules.new.items ≡ modules.old.items ++ byte_modules byte) }
{
    if byte == 48 {
        modules.push(false)?;
    } else if byte == 49 {
        modules.push(true)?;
    }
    Ok(())
}

/// The modules of a text, one behind the other.
fn modules(alloc: Global, bytes: &[u8]) -> Result<Vec<bool>, NoMemory>
    ensures { IfOk result (λ modules. modules.items ≡ modules_in bytes.now) }
{
    let mut modules = Vec::new(alloc);
    for byte in bytes {
        push_module(&mut modules, *byte)?;
    }
    Ok(modules)
}

/// The picture of a text with these sides.
fn picture(alloc: Global, bytes: &[u8], width: u32, rows: u32) -> Result<Grid, NoMemory>
    requires wide { 1 ≤ width }
    requires narrow { width ≤ 16384 }
    requires tall { 1 ≤ rows }
    requires short { rows ≤ 16384 }
    requires small { rows * width ≤ 1048576 }
    requires modules { length (modules_in bytes.now) ≡ rows * width }
    ensures { IfOk result (λ grid.
        grid ≡ record { width = width; heights = replicate rows 1; modules = modules_in bytes.now }) }
{
    let modules = modules(alloc, bytes)?;
    let heights = vec![in alloc; 1; rows as usize]?;
    Grid::of_rows(alloc, width, &heights, modules)
}

/// The picture that a text shows, of at most so many rows of at most so many modules.
pub(crate) fn parsed(
    alloc: Global,
    bytes: &[u8],
    most_wide: u32,
    most_rows: u32,
) -> Result<Grid, TextFault>
    requires bytes { length bytes.now ≤ 65536 }
    requires wide { most_wide ≤ 16384 }
    requires rows { most_rows ≤ 16384 }
    requires small { most_rows * most_wide ≤ 1048576 }
    ensures picture { IfOk result (IsPictureWithin most_wide most_rows bytes.now) }
    ensures modules { IfOk result (λ grid. grid.modules ≡ modules_in bytes.now) }
    ensures refused { IfErr result (IsTextFaultFor most_wide most_rows bytes.now) }
{
    let (width, rows) = match sides(bytes) {
        Err(place) => return Err(TextFault::BadText(place)),
        Ok(sides) => sides,
    };
    if width > most_wide || rows > most_rows {
        return Err(TextFault::BadSide(width, rows));
    }
    let grid = picture(alloc, bytes, width, rows)?;
    Ok(grid)
}

/// The picture that a text shows, as `parse_grid` reads it, but of at most so many rows of at most so many modules; `BadSide` comes where
/// the text is one and is larger.
pub fn parse_within(
    alloc: Global,
    bytes: &[u8],
    most_wide: u32,
    most_rows: u32,
) -> Result<Grid, TextFault>
    requires bytes { length bytes.now ≤ 65536 }
    requires wide { most_wide ≤ 16384 }
    requires rows { most_rows ≤ 16384 }
    requires small { most_rows * most_wide ≤ 1048576 }
    ensures picture { IfOk result (IsPictureWithin most_wide most_rows bytes.now) }
    ensures only { IfOk result (λ grid.
        (other : Picture) → IsPictureWithin most_wide most_rows bytes.now other → other ≡ grid) }
    ensures refused { IfErr result (IsTextFaultFor most_wide most_rows bytes.now) }
    ensures none { IfErr result (λ fault.
        (other : Picture) → IsPictureWithin most_wide most_rows bytes.now other → fault ≡ Wanting) }
{
    parsed(alloc, bytes, most_wide, most_rows)
}

/// The picture that a text of the characters `0` and `1` shows: a line for each row of modules, all of one length, each
/// ended by a line feed, or by a carriage return and a line feed; the last end may be missing. There are at most 65,536
/// bytes. The rows get the height 1.
///
/// `BadText` comes exactly with the first byte that cannot stand where it does, or with the end of the bytes where they
/// cannot end; `BadSide` exactly where the text is one and is wider or higher than 151 modules; both unless memory is
/// wanting.
pub fn parse_grid(alloc: Global, bytes: &[u8]) -> Result<Grid, TextFault>
    requires { length bytes.now ≤ 65536 }
    ensures picture { IfOk result (IsPictureOf bytes.now) }
    ensures only { IfOk result (λ grid. (other : Picture) → IsPictureOf bytes.now other → other ≡ grid) }
    ensures refused { IfErr result (IsTextFault bytes.now) }
    ensures none { IfErr result (λ fault. (other : Picture) → IsPictureOf bytes.now other → fault ≡ Wanting) }
    // the text that is written for a picture shows the picture
    ensures text { GivesItsPicture bytes.now result }
{
    parse_within(alloc, bytes, MOST_ON_SIDE, MOST_ON_SIDE)
}

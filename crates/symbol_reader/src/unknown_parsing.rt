//! The text of a grid in which `?` stands for an unknown module.
ghost use Rattle.std.specs.Prelude.{◌≡◌, ◌≤◌, ◌++◌, IfOk, IfErr, OnOk, length};
ghost use Rattle.bar_base.specs.Picture.{Picture};
ghost use Rattle.symbol_reader.specs.GridLines.{IsTextFault};
ghost use Rattle.symbol_reader.specs.Scanning.{modules_in};
ghost use Rattle.symbol_reader.specs.UnknownLines.{IsUnknownOf, light_byte, light_text, lost_byte_modules, lost_modules};
ghost use Rattle.symbol_reader.specs.declared.text_fault.TextFault.TheVariants.{NoMemory as Wanting};
ghost use Rattle.symbol_reader.specs.declared.unknown.Unknown.{Unknown as UnknownValue};

use crate::darkening::heights_of;
use crate::parsing::{MOST_ON_SIDE, parsed};
use crate::text_fault::TextFault;
use crate::unknown::Unknown;
use bar_base::{Grid, NoMemory};
use std::alloc::Global;

/// The character of a light module in the place of `?`.
fn light_byte(byte: u8) -> u8
    ensures { result ≡ light_byte byte }
{
    if byte == 63 { 48 } else { byte }
}

/// The text with its unknown modules light.
fn light_text(alloc: Global, bytes: &[u8]) -> Result<Vec<u8>, NoMemory>
    ensures { IfOk result (λ text. text.items ≡ light_text bytes.now) }
{
    let mut text = Vec::new(alloc);
    for byte in bytes {
        text.push(light_byte(*byte))?;
    }
    Ok(text)
}

/// Puts at the end whether a byte is an unknown module, if it is a module.
fn push_lost(modules: &mut Vec<bool>, byte: u8) -> Result<(), NoMemory>
    ensures { OnOk result (modules.new.items ≡ modules.old.items ++ lost_byte_modules byte) }
{
    if byte == 63 {
        modules.push(true)?;
    } else if byte == 48 || byte == 49 {
        modules.push(false)?;
    }
    Ok(())
}

/// Which modules of a text are unknown, one behind the other.
fn lost_modules(alloc: Global, bytes: &[u8]) -> Result<Vec<bool>, NoMemory>
    ensures { IfOk result (λ modules. modules.items ≡ lost_modules bytes.now) }
{
    let mut modules = Vec::new(alloc);
    for byte in bytes {
        push_lost(&mut modules, *byte)?;
    }
    Ok(modules)
}

/// The unknown modules of a text, dark, beside the picture that it shows.
fn lost_picture(alloc: Global, bytes: &[u8], grid: &Grid) -> Result<Grid, NoMemory>
    requires { grid.now.modules ≡ modules_in (light_text bytes.now) }
    ensures { IfOk result (λ lost. lost ≡ record grid.now { modules = lost_modules bytes.now }) }
{
    let width = grid.width();
    let heights = heights_of(alloc, grid)?;
    let modules = lost_modules(alloc, bytes)?;
    Grid::of_rows(alloc, width, &heights, modules)
}

/// The picture of a text and its unknown modules.
fn parsed_unknown(alloc: Global, bytes: &[u8]) -> Result<Unknown, TextFault>
    requires { length bytes.now ≤ 65536 }
    ensures unknown { IfOk result (IsUnknownOf bytes.now) }
    ensures refused { IfErr result (IsTextFault (light_text bytes.now)) }
{
    let text = light_text(alloc, bytes)?;
    let grid = parsed(alloc, &text, MOST_ON_SIDE, MOST_ON_SIDE)?;
    let lost = lost_picture(alloc, bytes, &grid)?;
    Ok(Unknown { grid, lost })
}

/// The picture that a text of the characters `0`, `1` and `?` shows, and which of its modules are unknown: those of `?`. It
/// is otherwise the text that `parse_grid` takes, and is refused as that is where `?` stands for `0`.
pub fn parse_unknown(alloc: Global, bytes: &[u8]) -> Result<Unknown, TextFault>
    requires { length bytes.now ≤ 65536 }
    ensures unknown { IfOk result (IsUnknownOf bytes.now) }
    ensures only { IfOk result (λ unknown. (other : UnknownValue) → IsUnknownOf bytes.now other →
        (other.grid ≡ unknown.grid) × (other.lost ≡ unknown.lost)) }
    ensures refused { IfErr result (IsTextFault (light_text bytes.now)) }
    ensures none { IfErr result (λ fault. (other : UnknownValue) → IsUnknownOf bytes.now other → fault ≡ Wanting) }
{
    parsed_unknown(alloc, bytes)
}

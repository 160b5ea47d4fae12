//! Reading a row.
ghost use Rattle.std.specs.Prelude.{◌≡◌, ◌<◌, ◌≤◌, length};
ghost use Rattle.bar_base.specs.Picture.{row_count};
ghost use Rattle.bar_base.specs.Results.{Gives};
ghost use Rattle.linear_reader.specs.Drawn.{ReadsDrawn};
ghost use Rattle.linear_reader.specs.Patterns.{IsRowSymbol, start_modules, symbology_of};
ghost use Rattle.linear_reader.specs.Scan.{refusal_of, row_scan, core_scan, scan_from};

use crate::checking::checks_of;
use crate::modules::{core, turned};
use crate::patterns::start_of;
use crate::scan::{Scan, ScanFault};
use crate::spelling::row_elements;
use crate::symbology::{RowSymbology, symbology_of};
use crate::valuing::row_values;
use bar_base::Grid;
use std::alloc::Global;

/// What modules that begin with a start read as.
#[tactic(auto, unfolding(crate::specs::Scan::scan_from))]
fn scan_from(
    alloc: Global,
    symbology: RowSymbology,
    backward: bool,
    modules: &[bool],
    start: u8,
) -> Result<Scan, ScanFault>
    requires begun { start_modules symbology ≤ length modules.now }
    requires few { length modules.now ≤ 16384 }
    requires start { start < 106 }
    ensures { Gives refusal_of (λ scan. scan) result (scan_from symbology backward modules.now start) }
{
    let values = row_values(alloc, symbology, start, modules)?;
    let checks = checks_of(alloc, symbology, &values)?;
    let body = row_elements(alloc, symbology, &values)?;
    Ok(Scan {
        body,
        checks,
        backward,
    })
}

/// What a core reads as.
#[tactic(auto, unfolding(crate::specs::Scan::core_scan))]
fn core_scan(alloc: Global, symbology: RowSymbology, core: &[bool]) -> Result<Scan, ScanFault>
    requires { length core.now ≤ 16384 }
    ensures { Gives refusal_of (λ scan. scan) result (core_scan symbology core.now) }
{
    if let Some(start) = start_of(symbology, core) {
        return scan_from(alloc, symbology, false, core, start);
    }
    let backward = turned(alloc, core)?;
    match start_of(symbology, &backward) {
        None => Err(ScanFault::NoStart),
        Some(start) => scan_from(alloc, symbology, true, &backward, start),
    }
}

/// What a grid of one row reads as.
#[tactic(auto, unfolding(crate::specs::Scan::row_scan))]
fn row_scan(alloc: Global, grid: &Grid, symbology: RowSymbology) -> Result<Scan, ScanFault>
    requires { row_count grid.now ≡ 1 }
    ensures { Gives refusal_of (λ scan. scan) result (row_scan symbology grid.now.modules) }
{
    let core = core(alloc, grid)?;
    core_scan(alloc, symbology, &core)
}

/// What a grid of one row reads as by a symbology: 8 Code 39, 9 extended Code 39, 20 Code 128, 25 Code 93, 89 ITF-14. It is read from its
/// left end where it begins with a start behind its light modules, else from its right end where it does so there.
///
/// The refusals are tested in this order. `NoStart`: neither end begins with a start. `BadPattern`: the first module at which neither a
/// pattern stands nor an end behind enough of them. `BadCheck`: the first check that differs from the wanted one. `BadSpelling`: the first
/// value that may not stand there, or the place behind the last where something is pending.
pub fn read_row(alloc: Global, grid: &Grid, symbol: u32) -> Result<Scan, ScanFault>
    requires row { row_count grid.now ≡ 1 }
    requires symbol { IsRowSymbol symbol }
    ensures scan { Gives refusal_of (λ scan. scan) result (row_scan (symbology_of symbol) grid.now.modules) }
    // each row that is drawn reads as what was drawn, and so does the row turned round
    ensures drawn { ReadsDrawn (symbology_of symbol) grid.now.modules result }
{
    row_scan(alloc, grid, symbology_of(symbol))
}

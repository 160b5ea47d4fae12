//! The text of a row.
ghost use Rattle.std.specs.Prelude.{◌≡◌, ◌≤◌, IfOk, IfErr, length};
ghost use Rattle.bar_base.specs.Picture.{Picture, row_count};
ghost use Rattle.linear_reader.specs.declared.parsing.RowFault.TheVariants.{NoMemory as Wanting};
ghost use Rattle.linear_reader.specs.RowText.{IsRowOf, IsRowFault, GivesItsRow};

use bar_base::Grid;
use std::alloc::Global;
use symbol_reader::{TextFault, parse_within};
use thiserror::Error;

/// Why bytes are not read as a row.
#[derive(Debug, Clone, Copy, PartialEq, Eq, Error)]
pub enum RowFault {
    /// No memory was found.
    #[error("NoMemory")]
    NoMemory,
    /// The byte at this place, counted from 0, cannot stand there; or the bytes, which are so many, cannot end there.
    #[error("BadText")]
    BadText(usize),
    /// The lines have so many modules, and there are so many lines: more than one, or more than 16,384 modules.
    #[error("BadSide")]
    BadSide(u32, u32),
}

/// The most modules of a row.
const MOST_MODULES: u32 = 16384;

/// The picture that a text shows, or why it shows none.
fn parsed(alloc: Global, bytes: &[u8]) -> Result<Grid, RowFault>
    requires { length bytes.now ≤ 65536 }
    ensures row { IfOk result (IsRowOf bytes.now) }
    ensures refused { IfErr result (IsRowFault bytes.now) }
{
    match parse_within(alloc, bytes, MOST_MODULES, 1) {
        Ok(grid) => Ok(grid),
        Err(TextFault::NoMemory) => Err(RowFault::NoMemory),
        Err(TextFault::BadText(place)) => Err(RowFault::BadText(place)),
        Err(TextFault::BadSide(width, rows)) => Err(RowFault::BadSide(width, rows)),
    }
}

/// The picture of one row that a text of at most 65,536 bytes shows: one line of the characters `0` and `1`, at least one of them, ended by
/// a line feed, by a carriage return and a line feed, or not at all.
///
/// `BadText` comes exactly with the first byte that cannot stand where it does in the text of a grid, or with the end of the bytes where
/// they cannot end; `BadSide` exactly where the text is one and has more than one line, or more than 16,384 modules in it; both unless
/// memory is wanting.
pub fn parse_row(alloc: Global, bytes: &[u8]) -> Result<Grid, RowFault>
    requires { length bytes.now ≤ 65536 }
    ensures row { IfOk result (IsRowOf bytes.now) }
    ensures one { IfOk result (λ grid. row_count grid ≡ 1) }
    ensures only { IfOk result (λ grid. (other : Picture) → IsRowOf bytes.now other → other ≡ grid) }
    ensures refused { IfErr result (IsRowFault bytes.now) }
    ensures none { IfErr result (λ fault. (other : Picture) → IsRowOf bytes.now other → fault ≡ Wanting) }
    // the text that is written for a picture of one row gives it
    ensures text { GivesItsRow bytes.now result }
{
    parsed(alloc, bytes)
}

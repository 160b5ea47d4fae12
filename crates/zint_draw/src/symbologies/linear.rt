//! What the linear symbols and the four-state symbol share: what their faults are here, the lines of their reports, the height of a row.
ghost use Rattle.std.specs.Prelude.{◌≡◌, ◌≤◌, ◌++◌, IfOk, OnOk};
ghost use Rattle.zint_draw.specs.symbologies.Linear.{check_line, linear_fault, linear_head, row_of_height};

use bar_base::{Grid, Linear, LinearFault, NoMemory};
use std::alloc::Global;
use zint_answers::{Fault, Kind, Refusal, Unit, put_number, put_numbers, put_text};
use zint_settings::Symbology;

/// What a fault of drawing is here; `most` is how many bytes of data the symbol takes.
pub fn linear_fault(most: usize, fault: LinearFault) -> Fault
    ensures { result ≡ linear_fault most fault }
{
    match fault {
        LinearFault::NoMemory => Fault::NoMemory,
        LinearFault::BadCharacter(place) => {
            Fault::Refused(Refusal::BadData(Kind::Character, place as u64))
        }
        LinearFault::TooLong => Fault::Refused(Refusal::TooLong(most as u64, Unit::Bytes)),
        LinearFault::BadCheck(place, given, wanted) => Fault::Refused(Refusal::BadCheck {
            given,
            place: place as u64,
            wanted,
        }),
    }
}

/// The lines of the report before the grid: the number of the symbology, the check values where there are some, and the modules of the
/// width.
pub fn linear_head(
    alloc: Global,
    symbology: Symbology,
    symbol: &Linear,
) -> Result<Vec<u8>, NoMemory>
    ensures { IfOk result (λ head. head.items ≡ linear_head symbology symbol.now) }
{
    let mut head = Vec::new(alloc);
    put_text(&mut head, b"symbol=")?;
    put_number(&mut head, u64::from(symbology.number()))?;
    put_text(&mut head, b"\n")?;
    put_check_line(&mut head, symbol.checks.as_slice())?;
    put_text(&mut head, b"modules=")?;
    put_number(&mut head, u64::from(symbol.grid.width()))?;
    put_text(&mut head, b"\ngrid:\n")?;
    Ok(head)
}

/// Puts the line of the check values, where there are some, at the end of `text`.
fn put_check_line(text: &mut Vec<u8>, checks: &[u8]) -> Result<(), NoMemory>
    ensures { OnOk result (text.new.items ≡ text.old.items ++ check_line checks.now) }
{
    match checks.split_first() {
        Some(_) => {
            put_text(text, b"check=")?;
            put_numbers(text, checks)?;
            put_text(text, b"\n")?;
            Ok(())
        }
        None => Ok(()),
    }
}

/// The modules of a linear symbol, whose one row has this height, 1 to 200 modules.
pub fn row_of_height(grid: Grid, height: u32) -> Grid
    requires positive { 1 ≤ height }
    requires bounded { height ≤ 200 }
    ensures { result ≡ row_of_height height grid }
{
    let mut grid = grid;
    prove!(grid.rows() > 0);
    grid.set_height(0, height);
    grid
}

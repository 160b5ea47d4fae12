//! Whether the mode message of a picture is bad, without more of it being read.
ghost use Rattle.std.specs.Prelude.{ℕ, IfErr, IfOk};
ghost use Rattle.symbol_reader.specs.Reading.{IsBadModeOf, IsFaultIn, IsMode};
ghost use Rattle.symbol_reader.specs.Sight.{Sight, known, seen_sight};

use crate::finding::found_size;
use crate::grid_fault::GridFault;
use crate::reading::held_codewords;
use crate::seen::Seen;
use aztec_layout::Size;
use bar_base::{Grid, NoMemory, Short};
use std::alloc::Global;

/// The size of the symbol in a picture, and the number of its data codewords, by its mode message.
fn mode_in(alloc: Global, seen: &Seen<'_>) -> Result<(Size, u32), GridFault>
    ensures mode { IfOk result (λ mode. IsMode (seen_sight seen.now) mode.0 mode.1) }
    ensures refused { IfErr result (IsFaultIn (seen_sight seen.now)) }
{
    let size = found_size(seen)?;
    let held = held_codewords(alloc, seen, size)?;
    Ok((size, held))
}

/// The bad mode words that a fault names.
fn bad_words(fault: GridFault) -> Result<Option<Short<10>>, NoMemory>
    ensures { (sight : Sight) → IsFaultIn sight fault → IfOk result (IsBadModeOf sight) }
{
    match fault {
        GridFault::NoMemory => Err(NoMemory),
        GridFault::BadMode(words) => Ok(Some(words)),
        GridFault::BadSide(_, _) => Ok(None),
        GridFault::NoFinder(_, _) => Ok(None),
        GridFault::TooDamaged(_, _) => Ok(None),
        GridFault::BadWord(_) => Ok(None),
        GridFault::BadSpelling(_) => Ok(None),
    }
}

/// The mode words that a picture shows, where they are near no mode message of its size; None where they are near one, and
/// where no size has the picture's side or its finder does not stand (ISO/IEC 24778, mode message).
pub fn bad_mode(alloc: Global, grid: &Grid) -> Result<Option<Short<10>>, NoMemory>
    ensures bad { IfOk result (IsBadModeOf (known grid.now)) }
{
    let seen = Seen {
        grid,
        dark: grid,
        whole: true,
    };
    match mode_in(alloc, &seen) {
        Ok(_) => Ok(None),
        Err(fault) => bad_words(fault),
    }
}

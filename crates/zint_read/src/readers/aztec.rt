//! The Aztec symbol in an image (ISO/IEC 24778, reference decode algorithm).
ghost use Rattle.std.specs.Prelude.{◌≡◌, IfErr, IfOk};
ghost use Rattle.symbol_reader.specs.Reading.{IsFaultIn, IsReadingIn};
ghost use Rattle.zint_settings.specs.Looks.{IsFrame};
ghost use Rattle.zint_answers.specs.Steps.{MayAnswer};
ghost use Rattle.zint_read.specs.Images.{IsWithin};
ghost use Rattle.zint_read.specs.Seen.{sight_in};
ghost use Rattle.zint_read.specs.readers.Aztec.{grid_fault, reads_aztec, reads_sight};

use crate::frames::{seen_in, tells_lost};
use crate::images::bad_image;
use crate::report::report_of;
use crate::seen::Seen;
use std::alloc::Global;
use symbol_reader::{GridFault, LostReading, read_grid, read_unknown};
use zint_answers::{Fault, ImageFault, Refusal, SymbolFault};
use zint_settings::Frame;

/// The read report of the symbol in an image.
#[tactic(auto, using(zint_answers::proofs::Steps::stepping), unfolding(crate::specs::readers::Aztec::reads_aztec))]
pub(crate) fn read(alloc: Global, frame: Frame, bytes: &[u8]) -> Result<Vec<u8>, Fault>
    requires frame { IsFrame frame }
    requires short { IsWithin bytes.now }
    ensures { MayAnswer (λ report. report.items) result (reads_aztec frame bytes.now) }
{
    let seen = seen_in(alloc, frame, bytes)?;
    let read = reading_of(alloc, &seen)?;
    let report = report_of(alloc, tells_lost(frame), &read)?;
    Ok(report)
}

/// What a picture reads as, of which some modules may be unknown.
#[tactic(auto, using(crate::proofs::Refusals::sight_refused))]
fn reading_of(alloc: Global, seen: &Seen) -> Result<LostReading, Fault>
    ensures { MayAnswer (λ read. read) result (reads_sight (sight_in seen.now)) }
{
    match read_seen(alloc, seen) {
        Ok(read) => Ok(read),
        Err(fault) => Err(grid_fault(fault)),
    }
}

/// The same, with the faults of reading.
fn read_seen(alloc: Global, seen: &Seen) -> Result<LostReading, GridFault>
    ensures read { IfOk result (λ read. IsReadingIn (sight_in seen.now) read.reading read.lost) }
    ensures refused { IfErr result (IsFaultIn (sight_in seen.now)) }
{
    match seen {
        Seen::Known(grid) => {
            let reading = read_grid(alloc, grid)?;
            Ok(LostReading { reading, lost: 0 })
        }
        Seen::Marked(unknown) => {
            let read = read_unknown(alloc, unknown)?;
            Ok(read)
        }
    }
}

/// What a fault of a picture is here.
fn grid_fault(fault: GridFault) -> Fault
    ensures { result ≡ grid_fault fault }
{
    match fault {
        GridFault::NoMemory => Fault::NoMemory,
        GridFault::BadSide(width, rows) => bad_image(ImageFault::Side(width, rows)),
        GridFault::NoFinder(x, y) => bad_symbol(SymbolFault::NoFinder(x, y)),
        GridFault::BadMode(words) => bad_symbol(SymbolFault::BadMode(words)),
        GridFault::TooDamaged(codewords, check) => {
            bad_symbol(SymbolFault::TooDamaged { codewords, check })
        }
        GridFault::BadSpelling(place) => bad_symbol(SymbolFault::BadSpelling(place as u64)),
        GridFault::BadWord(place) => bad_symbol(SymbolFault::BadWord(place as u64)),
    }
}

/// The symbol cannot be read.
fn bad_symbol(fault: SymbolFault) -> Fault
    ensures { result ≡ Fault.Refused (Refusal.BadSymbol fault) }
{
    Fault::Refused(Refusal::BadSymbol(fault))
}

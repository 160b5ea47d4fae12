//! A reading of an image.
ghost use Rattle.std.specs.Prelude.{◌≡◌};
ghost use Rattle.bar_base.specs.declared.message.Message.{Message as MessageValue};
ghost use Rattle.zint_settings.specs.Looks.{IsLook};
ghost use Rattle.bar_base.specs.Steps.{never_refused};
ghost use Rattle.zint_answers.specs.Steps.{MayAnswer};
ghost use Rattle.zint_read.specs.ReadReport.{HasSameLines, HoldsNumbers};
ghost use Rattle.zint_read.specs.readers.{Drawn, HasNear, IsWithinLimit, IsWritten, Tells, TellsWhole, reads};

use crate::readers::read_as;
use std::alloc::Global;
use zint_answers::Fault;
use zint_settings::Look;

/// The read report of what is looked for in an image, or the first refusal: the bytes are no picture, or nothing is found in
/// it, and then what keeps it from being read (ISO/IEC 24778, reference decode algorithm).
///
/// A frame says how the symbol stands in the image:
///
/// - `Whole`: it is all of it. Bytes that begin with `BM` are a BMP, painted so, of at most 33,554,432 bytes; all others are
///   the text of a grid, of at most 65,536 bytes.
/// - `Unknown`: the same, and in a text `?` is a module that is unknown. A codeword or a mode word with one is lost, and the
///   line `lost=` behind `corrected=` has the number of lost codewords.
/// - `Anywhere`: the bytes are a BMP of at most 1,024 by 1,024 pixels, and the symbol is found in it: its modules are 1 to 64
///   pixels wide, and it may be turned by quarter turns. The first finder with its orientation marks counts, by row, column,
///   pixels of a module, compact before full, and turn; `NoFinder` at 0, 0 where there is none; then `BadImage` with the
///   picture's width and height where no size has all its modules in the picture; then `BadMode` where the mode message names
///   no size of which this is so.
///
/// The lines of the report are `size=`, `codewords=` (data and check codewords), `corrected=`, `append=`, `fnc1=`,
/// `eci=` and `data=`; in GS1 data `gs1=`, where the element strings have a text; and `text=`, where the body has no FNC1
/// and each part of bytes between its ECIs encodes a text in the set of the ECI before it, the first part in the set of
/// `eci=`, or of ECI 3 where there is none: these texts, joined.
#[tactic(auto, using(crate::proofs::OneMessage::one_message))]
pub fn read_report(alloc: Global, look: Look, bytes: &[u8]) -> Result<Vec<u8>, Fault>
    requires look { IsLook look }
    requires short { IsWithinLimit look bytes.now }
    ensures answer { MayAnswer (λ report. report.items) result (reads look bytes.now) }

    // Whatever was drawn: where the bytes have something near it to show, the answer tells it.
    ensures back { (drawn : Drawn look) → HasNear look bytes.now drawn
        → MayAnswer (λ report. report.items) result (never_refused (Tells look drawn)) }

    // Where the bytes are what was drawn, as it is written, it tells it with nothing corrected.
    ensures whole { (drawn : Drawn look) → IsWritten look bytes.now drawn
        → MayAnswer (λ report. report.items) result (never_refused (TellsWhole look drawn)) }

    // The four lines of a message tell it.
    ensures one_message { (one other : MessageValue) → HoldsNumbers one → HoldsNumbers other → HasSameLines one other →
        one ≡ other }
{
    read_as(alloc, look, bytes)
}

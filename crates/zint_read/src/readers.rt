//! Readers, a file each, and the call that chooses among them.
pub(crate) mod aztec;
pub(crate) mod row;

ghost use Rattle.std.specs.Prelude.{◌≡◌, ◌≤◌};
ghost use Rattle.bar_base.specs.Limits.{most_bmp_bytes};
ghost use Rattle.zint_settings.specs.Looks.{IsLook};
ghost use Rattle.zint_answers.specs.Steps.{MayAnswer};
ghost use Rattle.zint_read.specs.readers.{IsWithinLimit, picture_limit, reads};

use bar_base::{MOST_BMP_BYTES, MOST_BYTES};
use std::alloc::Global;
use zint_answers::Fault;
use zint_settings::Look;

/// The read report of what is looked for in an image.
#[tactic(auto, using(crate::proofs::RowRefusals::row_symbol, crate::proofs::RowRefusals::row_within))]
pub(crate) fn read_as(alloc: Global, look: Look, bytes: &[u8]) -> Result<Vec<u8>, Fault>
    requires look { IsLook look }
    requires short { IsWithinLimit look bytes.now }
    ensures { MayAnswer (λ report. report.items) result (reads look bytes.now) }
{
    match look {
        Look::Aztec(frame) => aztec::read(alloc, frame, bytes),
        Look::Row(symbology) => row::read(alloc, symbology.number(), bytes),
    }
}

/// How many bytes an image may have that begins with `BM`; every other has at most 65,536.
pub fn picture_limit(look: Look) -> usize
    ensures limit { result ≡ picture_limit look }
    ensures some { 2 ≤ result }
    ensures few { result ≤ most_bmp_bytes }
{
    match look {
        Look::Aztec(_) => MOST_BMP_BYTES,
        Look::Row(_) => MOST_BYTES,
    }
}

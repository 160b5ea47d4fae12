ghost use Rattle.std.specs.Prelude.{◌≡◌, ◌<◌, ◌≤◌, length, IfErr, IfOk};
ghost use Rattle.aztec_best.specs.Shortest.{IsFewest};
ghost use Rattle.aztec_layout.specs.Allowed.{CanBeAsked};
ghost use Rattle.aztec_layout.specs.Smallest.{IsSmallest};
ghost use Rattle.aztec_draw.specs.Symbol.{IsAztecSymbol, IsBitsFault, IsDrawFault, IsSymbolOf};

use crate::codewords::checked;
use crate::fault::DrawFault;
use crate::symbol::AztecSymbol;
use aztec_best::{Bench, drawn};
use aztec_layout::{Allowed, draw, fit, stuff, width};
use bar_base::{Bits, Elements};
use std::alloc::Global;

/// The symbol of the elements of a message, which begin with a header where it belongs to a structured append set (`append`): of all
/// their spellings with fewest bits the first in dictionary order, 0 before 1, in the first allowed size, by side and compact
/// before full, that holds its stuffed codewords at the share of check codewords that counts (ISO/IEC 24778).
/// There are 1 to 8,192 elements. NoFit comes exactly where no allowed size holds the spelling, unless memory
/// is wanting.
pub fn draw_elements(
    alloc: Global,
    append: bool,
    elements: &Elements,
    allowed: Allowed,
) -> Result<AztecSymbol, DrawFault>
    requires some { 0 < length elements.now }
    requires few { length elements.now ≤ 8192 }
    requires can_be_asked { CanBeAsked allowed }
    ensures drawn { IfOk result (IsAztecSymbol append elements.now allowed) }
    // no spelling of the elements has fewer bits than the one that is drawn
    ensures shortest { IfOk result (λ s. IsFewest append elements.now (length s.spelling)) }
    // every allowed size that holds the spelling is the one that is drawn, or comes after it
    ensures smallest { IfOk result (λ s. IsSmallest s.spelling allowed s.size) }
    ensures refused { IfErr result (IsDrawFault append elements.now allowed) }
{
    let mut bench = Bench::new(alloc)?;
    let spelling = drawn(alloc, &mut bench, append, elements)?;
    draw_bits(alloc, spelling, allowed)
}

/// The symbol of bits.
fn draw_bits(alloc: Global, spelling: Bits, allowed: Allowed) -> Result<AztecSymbol, DrawFault>
    requires some { 0 < length spelling }
    requires few { length spelling < 1000000 }
    requires can_be_asked { CanBeAsked allowed }
    ensures drawn { IfOk result (λ s. IsSymbolOf spelling allowed s.size s.held s.grid) }
    ensures kept { IfOk result (λ s. s.spelling ≡ spelling) }
    ensures refused { IfErr result (IsBitsFault spelling allowed) }
{
    let size = fit(&spelling, allowed)?;
    let words = stuff(alloc, &spelling, width(size))?;
    let held = words.len() as u32;
    let codewords = checked(alloc, size, words)?;
    let grid = draw(alloc, size, held, &codewords)?;
    Ok(AztecSymbol {
        spelling,
        size,
        held,
        grid,
    })
}

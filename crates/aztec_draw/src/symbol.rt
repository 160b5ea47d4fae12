ghost use Rattle.std.specs.Prelude.{◌≤◌};
ghost use Rattle.aztec_layout.specs.ModeMessage.{CanHold};
ghost use Rattle.aztec_layout.specs.Sizes.{IsSize, codewords_of};

use aztec_layout::Size;
use bar_base::{Bits, Grid};

/// An Aztec symbol.
#[derive(Debug, Drop)]
pub struct AztecSymbol {
    /// The bits of the codes that spell the elements.
    pub spelling: Bits,
    /// The size.
    pub size: Size,
    /// The number of data codewords.
    pub held: u32,
    /// The modules.
    pub grid: Grid,
    pub ghost sized: { IsSize size },
    pub ghost room: { held ≤ codewords_of size },
    pub ghost can_hold: { CanHold size held },
}

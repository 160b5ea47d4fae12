//! The symbologies, a file each, and the three calls that choose among them: to draw, the lines of the report, the modules.
pub mod aztec;
pub mod code128;
pub mod code39;
pub mod code93;
pub mod itf14;
pub mod linear;
pub mod rm4scc;
pub mod rune;

ghost use Rattle.std.specs.Prelude.{◌≡◌, ◌<◌, ◌≤◌, IfOk, length};
ghost use Rattle.zint_answers.specs.Steps.{MayAnswer};
ghost use Rattle.zint_settings.specs.Settings.{drawing_in};
ghost use Rattle.zint_draw.specs.Segments.{bytes_in_segments};
ghost use Rattle.zint_draw.specs.symbologies.{draws_as, grid_of, head_of};

use crate::symbologies::code128::Code128Symbol;
use crate::symbologies::linear::{linear_head, row_of_height};
use crate::symbologies::rune::RuneSymbol;
use aztec_draw::AztecSymbol;
use bar_base::{Grid, Linear, MOST_BYTES, NoMemory};
use std::alloc::Global;
use zint_answers::Fault;
use zint_settings::{DrawingSettings, Symbology};

/// What is drawn, by the symbology.
#[derive(Debug, Drop)]
pub enum Symbol {
    Aztec(AztecSymbol),
    Rune(RuneSymbol),
    Code128(Code128Symbol),
    /// A symbol of one row of bars, and its symbology.
    Linear(Symbology, Linear),
    /// The three rows of a four-state symbol.
    FourState(Linear),
}

/// The symbol of data that is not empty, by the symbology; only Aztec takes a structured append set and segments.
#[tactic(auto, unfolding(crate::specs::symbologies::draws_as))]
pub fn draw_as(alloc: Global, settings: &DrawingSettings<'_>, bytes: &[u8]) -> Result<Symbol, Fault>
    requires some { 0 < length bytes.now }
    requires few { bytes_in_segments (drawing_in settings.now).segments ≤ MOST_BYTES }
    ensures { MayAnswer (λ symbol. symbol) result (draws_as (drawing_in settings.now) bytes.now) }
{
    match settings.options.symbology {
        Symbology::Aztec => aztec::draw(alloc, settings, bytes),
        Symbology::AztecRune => rune::draw(alloc, bytes),
        Symbology::Code39 => code39::draw(alloc, settings, bytes),
        Symbology::ExtendedCode39 => code39::draw_full(alloc, bytes),
        Symbology::Code93 => code93::draw(alloc, bytes),
        Symbology::Itf14 => itf14::draw(alloc, bytes),
        Symbology::Rm4scc => rm4scc::draw(alloc, bytes),
        Symbology::Code128 | Symbology::Gs1Code128 => code128::draw(alloc, settings, bytes),
    }
}

impl Symbol {
    /// The lines of the report before the grid.
    pub fn head(&self, alloc: Global) -> Result<Vec<u8>, NoMemory>
        ensures { IfOk result (λ head. head.items ≡ head_of self.now) }
    {
        match self {
            Symbol::Aztec(symbol) => aztec::head(alloc, symbol),
            Symbol::Rune(symbol) => rune::head(alloc, symbol),
            Symbol::Code128(symbol) => code128::head(alloc, symbol),
            Symbol::Linear(symbology, symbol) => linear_head(alloc, *symbology, symbol),
            Symbol::FourState(symbol) => rm4scc::head(alloc, symbol),
        }
    }

    /// The modules. The row of a linear symbol has this height, 1 to 200 modules; every other row has its own.
    pub fn into_grid(self, height: u32) -> Grid
        requires positive { 1 ≤ height }
        requires bounded { height ≤ 200 }
        ensures { result ≡ grid_of height self }
    {
        match self {
            Symbol::Aztec(symbol) => symbol.grid,
            Symbol::Rune(symbol) => symbol.grid,
            Symbol::Code128(symbol) => row_of_height(symbol.grid, height),
            Symbol::Linear(_, symbol) => row_of_height(symbol.grid, height),
            Symbol::FourState(symbol) => symbol.grid,
        }
    }
}

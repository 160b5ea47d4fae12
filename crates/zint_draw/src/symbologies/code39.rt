//! Code 39 and extended Code 39 (ISO/IEC 16388).
ghost use Rattle.std.specs.Prelude.{◌≡◌};
ghost use Rattle.linear_codes.specs.Code39.{code39_full_of, code39_of};
ghost use Rattle.zint_answers.specs.Steps.{MayAnswer, answered};
ghost use Rattle.zint_draw.specs.symbologies.Code39.{draws39, draws39_full};
ghost use Rattle.zint_draw.specs.symbologies.Linear.{linear_fault};

use crate::symbologies::Symbol;
use crate::symbologies::linear::linear_fault;
use bar_base::Linear;
use linear_codes::{CODE39_MOST_BYTES, code39, code39_full};
use std::alloc::Global;
use zint_answers::Fault;
use zint_settings::{DrawingSettings, Symbology};

/// The symbol of data.
#[tactic(auto, using(zint_answers::proofs::Steps::stepping), unfolding(crate::specs::symbologies::Code39::draws39))]
pub fn draw(alloc: Global, settings: &DrawingSettings<'_>, bytes: &[u8]) -> Result<Symbol, Fault>
    ensures { MayAnswer (λ symbol. symbol) result (draws39 settings.now.options bytes.now) }
{
    let symbol = plain_symbol(alloc, settings.options.version.is_some(), bytes)?;
    Ok(Symbol::Linear(Symbology::Code39, symbol))
}

/// The symbol of data, and its check values.
#[tactic(auto, using(crate::proofs::LinearFaults::linear_answered))]
fn plain_symbol(alloc: Global, check: bool, bytes: &[u8]) -> Result<Linear, Fault>
    ensures { MayAnswer (λ symbol. symbol) result
        (answered (linear_fault CODE39_MOST_BYTES) (code39_of bytes.now check)) }
{
    match code39(alloc, bytes, check) {
        Ok(symbol) => Ok(symbol),
        Err(fault) => Err(linear_fault(CODE39_MOST_BYTES, fault)),
    }
}

/// The symbol of data in full ASCII.
#[tactic(auto, using(zint_answers::proofs::Steps::stepping), unfolding(crate::specs::symbologies::Code39::draws39_full))]
pub fn draw_full(alloc: Global, bytes: &[u8]) -> Result<Symbol, Fault>
    ensures { MayAnswer (λ symbol. symbol) result (draws39_full bytes.now) }
{
    let symbol = full_symbol(alloc, bytes)?;
    Ok(Symbol::Linear(Symbology::ExtendedCode39, symbol))
}

/// The symbol of data in full ASCII, and its check values.
#[tactic(auto, using(crate::proofs::LinearFaults::linear_answered))]
fn full_symbol(alloc: Global, bytes: &[u8]) -> Result<Linear, Fault>
    ensures { MayAnswer (λ symbol. symbol) result
        (answered (linear_fault CODE39_MOST_BYTES) (code39_full_of bytes.now)) }
{
    match code39_full(alloc, bytes) {
        Ok(symbol) => Ok(symbol),
        Err(fault) => Err(linear_fault(CODE39_MOST_BYTES, fault)),
    }
}

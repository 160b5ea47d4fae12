//! Code 93 (AIM Code 93).
ghost use Rattle.std.specs.Prelude.{◌≡◌};
ghost use Rattle.linear_codes.specs.Code93.{code93_of};
ghost use Rattle.zint_answers.specs.Steps.{MayAnswer, answered};
ghost use Rattle.zint_draw.specs.symbologies.Code93.{draws93};
ghost use Rattle.zint_draw.specs.symbologies.Linear.{linear_fault};

use crate::symbologies::Symbol;
use crate::symbologies::linear::linear_fault;
use bar_base::Linear;
use linear_codes::{CODE93_MOST_BYTES, code93};
use std::alloc::Global;
use zint_answers::Fault;
use zint_settings::Symbology;

/// The symbol of data.
#[tactic(auto, using(zint_answers::proofs::Steps::stepping), unfolding(crate::specs::symbologies::Code93::draws93))]
pub fn draw(alloc: Global, bytes: &[u8]) -> Result<Symbol, Fault>
    ensures { MayAnswer (λ symbol. symbol) result (draws93 bytes.now) }
{
    let symbol = checked_symbol(alloc, bytes)?;
    Ok(Symbol::Linear(Symbology::Code93, symbol))
}

/// The symbol of data, and its check values.
#[tactic(auto, using(crate::proofs::LinearFaults::linear_answered))]
fn checked_symbol(alloc: Global, bytes: &[u8]) -> Result<Linear, Fault>
    ensures { MayAnswer (λ symbol. symbol) result (answered (linear_fault CODE93_MOST_BYTES) (code93_of bytes.now)) }
{
    match code93(alloc, bytes) {
        Ok(symbol) => Ok(symbol),
        Err(fault) => Err(linear_fault(CODE93_MOST_BYTES, fault)),
    }
}

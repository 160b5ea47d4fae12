//! ITF-14: interleaved 2 of 5 (ISO/IEC 16390) of fourteen digits.
ghost use Rattle.std.specs.Prelude.{◌≡◌};
ghost use Rattle.linear_codes.specs.Itf14.{itf14_of};
ghost use Rattle.zint_answers.specs.Steps.{MayAnswer, answered};
ghost use Rattle.zint_draw.specs.symbologies.Itf14.{draws14};
ghost use Rattle.zint_draw.specs.symbologies.Linear.{linear_fault};

use crate::symbologies::Symbol;
use crate::symbologies::linear::linear_fault;
use bar_base::Linear;
use linear_codes::{ITF14_MOST_DIGITS, itf14};
use std::alloc::Global;
use zint_answers::Fault;
use zint_settings::Symbology;

/// The symbol of data.
#[tactic(auto, using(zint_answers::proofs::Steps::stepping), unfolding(crate::specs::symbologies::Itf14::draws14))]
pub fn draw(alloc: Global, bytes: &[u8]) -> Result<Symbol, Fault>
    ensures { MayAnswer (λ symbol. symbol) result (draws14 bytes.now) }
{
    let symbol = checked_symbol(alloc, bytes)?;
    Ok(Symbol::Linear(Symbology::Itf14, symbol))
}

/// The symbol of data, and its check values.
#[tactic(auto, using(crate::proofs::LinearFaults::linear_answered))]
fn checked_symbol(alloc: Global, bytes: &[u8]) -> Result<Linear, Fault>
    ensures { MayAnswer (λ symbol. symbol) result (answered (linear_fault ITF14_MOST_DIGITS) (itf14_of bytes.now)) }
{
    match itf14(alloc, bytes) {
        Ok(symbol) => Ok(symbol),
        Err(fault) => Err(linear_fault(ITF14_MOST_DIGITS, fault)),
    }
}

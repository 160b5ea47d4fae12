//! The four-state symbol of the Royal Mail (RM4SCC).
ghost use Rattle.std.specs.Prelude.{◌≡◌, IfOk};
ghost use Rattle.four_state.specs.FourState.{rm4scc_of};
ghost use Rattle.zint_answers.specs.Steps.{MayAnswer, answered};
ghost use Rattle.zint_draw.specs.symbologies.FourState.{draws_four_state, head_four_state};
ghost use Rattle.zint_draw.specs.symbologies.Linear.{linear_fault};

use crate::symbologies::Symbol;
use crate::symbologies::linear::{linear_fault, linear_head};
use bar_base::{Linear, NoMemory};
use four_state::{RM4SCC_MOST_BYTES, rm4scc};
use std::alloc::Global;
use zint_answers::Fault;
use zint_settings::Symbology;

/// The symbol of data.
#[tactic(auto, using(zint_answers::proofs::Steps::stepping), unfolding(crate::specs::symbologies::FourState::draws_four_state))]
pub fn draw(alloc: Global, bytes: &[u8]) -> Result<Symbol, Fault>
    ensures { MayAnswer (λ symbol. symbol) result (draws_four_state bytes.now) }
{
    let symbol = checked_symbol(alloc, bytes)?;
    Ok(Symbol::FourState(symbol))
}

/// The symbol of data, and its check values.
#[tactic(auto, using(crate::proofs::LinearFaults::linear_answered))]
fn checked_symbol(alloc: Global, bytes: &[u8]) -> Result<Linear, Fault>
    ensures { MayAnswer (λ symbol. symbol) result (answered (linear_fault RM4SCC_MOST_BYTES) (rm4scc_of bytes.now)) }
{
    match rm4scc(alloc, bytes) {
        Ok(symbol) => Ok(symbol),
        Err(fault) => Err(linear_fault(RM4SCC_MOST_BYTES, fault)),
    }
}

/// The lines of the report before the grid.
pub fn head(alloc: Global, symbol: &Linear) -> Result<Vec<u8>, NoMemory>
    ensures { IfOk result (λ head. head.items ≡ head_four_state symbol.now) }
{
    linear_head(alloc, Symbology::Rm4scc, symbol)
}

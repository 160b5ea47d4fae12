ghost use Rattle.std.specs.Prelude.{◌≡◌, ◌<◌, ◌≤◌, ◌+◌, ◌^◌, IfSome, IfNone, Some, drop, length};
ghost use Rattle.std.specs.Option.{ForSome};
ghost use Rattle.aztec_modes.specs.declared.code.Code.{Code as CodeValue};
ghost use Rattle.aztec_modes.specs.Entry.{SpellsFront, code_count};
ghost use Rattle.aztec_best.specs.Bench.{IsFilledFrom};
ghost use Rattle.aztec_best.specs.Picks.{IsCheapest, cost_through};

use crate::costs::Costs;
use crate::stand::Stand;
use crate::table::kept;
use aztec_modes::{Code, code_count, code_length, code_next};
use bar_base::Elements;

/// The bits of a code and of the cheapest rest after it.
#[tactic(auto, unfolding(crate::specs::Picks::cost_through))]
#[inline(always)]
fn bits_through(costs: &[Costs], elements: &Elements, at: Stand, code: Code) -> u64
    requires front { SpellsFront at.mode code (drop at.place elements.now) }
    requires filled { IsFilledFrom costs.now elements.now (at.place + code_count at.mode code) }
    requires within { at.place ≤ length elements.now }
    ensures value { result ≡ cost_through costs.now at.place at.mode code }
    ensures small { result < 2 ^ 40 }
{
    prove!(at.place as usize <= elements.len());
    let after = at.place as usize + code_count(at.mode, code) as usize;
    code_length(at.mode, code) + u64::from(kept(costs, after, code_next(at.mode, code)))
}

/// A code, where there is one and it begins a spelling with fewest bits.
#[inline(always)]
pub(crate) fn if_cheapest(
    costs: &[Costs],
    elements: &Elements,
    at: Stand,
    code: Option<Code>,
) -> Option<Code>
    requires front { ForSome code (λ c. SpellsFront at.mode c (drop at.place elements.now)) }
    requires filled { IsFilledFrom costs.now elements.now 0 }
    requires within { at.place < length elements.now }
    ensures found { IfSome result (λ c. (code ≡ Some c) × IsCheapest costs.now elements.now at.place at.mode c) }
    ensures none { IfNone result ((c : CodeValue) → code ≡ Some c →
        IsCheapest costs.now elements.now at.place at.mode c → ⊥) }
{
    let candidate = code?;
    if bits_through(costs, elements, at, candidate)
        == u64::from(kept(costs, at.place as usize, at.mode))
    {
        Some(candidate)
    } else {
        None
    }
}

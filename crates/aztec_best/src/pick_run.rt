ghost use Rattle.std.specs.Prelude.{◌≡◌, ◌+◌, ◌*◌, ◌<◌, ◌≤◌, All, IfSome, IfNone, Some, drop, length};
ghost use Rattle.bar_base.specs.Elements.{IsElement};
ghost use Rattle.aztec_modes.specs.declared.code.Code.{Code as CodeValue};
ghost use Rattle.aztec_modes.specs.Codes.{table_symbol};
ghost use Rattle.aztec_modes.specs.Entry.{SpellsFront};
ghost use Rattle.aztec_modes.specs.declared.table.Symbol.TheVariants.{Binary};
ghost use Rattle.aztec_best.specs.Bench.{IsFilledFrom};
ghost use Rattle.aztec_best.specs.Picks.{HasRank, IsCheapest, IsFirstOfKind};
ghost use Rattle.aztec_best.specs.Ready.{IsReady};

use crate::costs::Costs;
use crate::front::Front;
use crate::stand::Stand;
use crate::table::kept;
use aztec_modes::{Code, run_head};
use bar_base::Elements;

/// A run, where it begins a spelling with fewest bits.
#[inline(always)]
fn if_cheapest_run(
    costs: &[Costs],
    elements: &Elements,
    at: Stand,
    count: u32,
    long: bool,
) -> Option<Code>
    requires front { SpellsFront at.mode (Code.Run count long) (drop at.place elements.now) }
    requires filled { IsFilledFrom costs.now elements.now 0 }
    requires valid { All IsElement elements.now }
    requires within { at.place < length elements.now }
    requires few { count ≤ 2078 }
    ensures found { IfSome result (λ c. (Some (Code.Run count long) ≡ Some c)
        × IsCheapest costs.now elements.now at.place at.mode c) }
    ensures none { IfNone result ((c : CodeValue) → Some (Code.Run count long) ≡ Some c
        → IsCheapest costs.now elements.now at.place at.mode c → ⊥) }
{
    let rest = kept(costs, at.place as usize + count as usize, at.mode);
    if run_head(long) + 8 * count + rest == kept(costs, at.place as usize, at.mode) {
        Some(Code::Run(count, long))
    } else {
        None
    }
}

/// The first run of the long form that begins a spelling with fewest bits, by its number of bytes.
fn pick_long(costs: &[Costs], elements: &Elements, at: Stand, front: &Front) -> Option<Code>
    requires ready { IsReady costs.now elements.now at.place front.now }
    requires filled { IsFilledFrom costs.now elements.now 0 }
    requires binary { table_symbol at.mode 31 ≡ Binary }
    ensures { IsFirstOfKind costs.now elements.now at.place at.mode
        (HasRank at.mode (31 * 4096) (31 * 4096 + 2048)) result }
{
    for more in 0..front.ahead.saturating_sub(30) {
        match if_cheapest_run(costs, elements, at, more + 31, true) {
            Some(found) => return Some(found),
            None => {}
        }
    }
    None
}

/// The first run of the short form that begins a spelling with fewest bits, by its number of bytes.
fn pick_short(costs: &[Costs], elements: &Elements, at: Stand, front: &Front) -> Option<Code>
    requires ready { IsReady costs.now elements.now at.place front.now }
    requires filled { IsFilledFrom costs.now elements.now 0 }
    requires binary { table_symbol at.mode 31 ≡ Binary }
    ensures { IsFirstOfKind costs.now elements.now at.place at.mode
        (HasRank at.mode (31 * 4096 + 2048) (32 * 4096)) result }
{
    for less in 0..front.ahead.min(31) {
        match if_cheapest_run(costs, elements, at, less + 1, false) {
            Some(found) => return Some(found),
            None => {}
        }
    }
    None
}

/// The first run that begins a spelling with fewest bits: the long form has the lower bits, since five bits of 0 begin its length.
pub(crate) fn pick_run(
    costs: &[Costs],
    elements: &Elements,
    at: Stand,
    front: &Front,
) -> Option<Code>
    requires ready { IsReady costs.now elements.now at.place front.now }
    requires filled { IsFilledFrom costs.now elements.now 0 }
    requires binary { table_symbol at.mode 31 ≡ Binary }
    ensures { IsFirstOfKind costs.now elements.now at.place at.mode (HasRank at.mode (31 * 4096) (32 * 4096)) result }
{
    match pick_long(costs, elements, at, front) {
        Some(found) => Some(found),
        None => pick_short(costs, elements, at, front),
    }
}

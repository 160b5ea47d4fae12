//! Costs by whole sweeps, which go on until nothing changes.
ghost use Rattle.std.specs.Prelude.{◌≡◌, ◌<◌, ◌≤◌, length, sum};
ghost use Rattle.std.specs.Bool.{OnTrue, OnFalse};
ghost use Rattle.code128_best.specs.Costs.{IsTable, IsBest, IsStableAt, IsSettled};

use crate::costs::{cost_of_end, cost_of_own, values_through};
use crate::stepping::{Stand, stand_from};
use bar_base::Element;

/// The least cost through any value, or at the end.
#[inline(always)]
fn least(costs: &[u32], elements: &[Element], at: Stand) -> u32
    requires table { IsTable costs.now elements.now }
    requires within { at.place ≤ length elements.now }
    ensures { IsBest costs.now elements.now at 103 result }
{
    let end = cost_of_end(elements, at);
    let first = cost_of_own(costs, elements, at);
    let shift = values_through(costs, elements, at, 98);
    let to_c = values_through(costs, elements, at, 99);
    let to_b = values_through(costs, elements, at, 100);
    let to_a = values_through(costs, elements, at, 101);
    let fnc1 = values_through(costs, elements, at, 102);
    end.min(first)
        .min(shift)
        .min(to_c)
        .min(to_b)
        .min(to_a)
        .min(fnc1)
}

/// Lowers the cost at an index to the least through any value; says whether it was higher.
fn lower(costs: &mut [u32], elements: &[Element], index: usize) -> bool
    requires table { IsTable costs.old elements.now }
    requires inside { index < length costs.old }
    ensures table { IsTable costs.new elements.now }
    ensures lowered { OnTrue result (sum costs.new < sum costs.old) }
    ensures stays { OnFalse result (costs.new ≡ costs.old) }
    ensures stable { OnFalse result (IsStableAt costs.new elements.now index) }
{
    let best = least(costs, elements, stand_from(index));
    if best < costs[index] {
        costs[index] = best;
        true
    } else {
        false
    }
}

/// Lowers each cost once, from the last place to the first; says whether any was higher.
fn sweep(costs: &mut [u32], elements: &[Element]) -> bool
    requires table { IsTable costs.old elements.now }
    ensures table { IsTable costs.new elements.now }
    ensures less { sum costs.new ≤ sum costs.old }
    ensures lowered { OnTrue result (sum costs.new < sum costs.old) }
    ensures stable { OnFalse result (IsSettled costs.new elements.now) }
{
    let mut changed = false;
    let mut index = costs.len();
    while index > 0 {
        index -= 1;
        let lowered = lower(costs, elements, index);
        changed = changed || lowered;
    }
    changed
}

/// Lowers all costs until none is higher than the least through any value.
pub(crate) fn settle(costs: &mut [u32], elements: &[Element])
    requires table { IsTable costs.old elements.now }
    ensures settled { IsSettled costs.new elements.now }
{
    let mut changed = true;
    while changed {
        changed = sweep(costs, elements);
    }
}

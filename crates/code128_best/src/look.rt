//! Whether a table of costs is settled: no value leads on more cheaply than what it has.
ghost use Rattle.std.specs.Prelude.{◌≡◌, ◌≤◌, length, Bool, true, false};
ghost use Rattle.std.specs.Bool.{OnTrue};
ghost use Rattle.code128_best.specs.Steps.{text_stand, pairs_stand};
ghost use Rattle.code128_best.specs.declared.stepping.Stand.{Stand as AnyStand};
ghost use Rattle.code128_best.specs.Costs.{IsTable, IsBest, IsStable, IsSettled};

use crate::costs::cost;
use crate::kinds::{least_fnc4, least_free, least_pairs, least_shifted, pairs_stand, text_stand};
use crate::stepping::Stand;
use bar_base::Element;

/// Whether no value leads on more cheaply than the cost at a stand.
#[inline(always)]
fn is_stable(costs: &[u32], elements: &[Element], at: Stand, best: u32) -> bool
    requires table { IsTable costs.now elements.now }
    requires within { at.place ≤ length elements.now }
    requires best { IsBest costs.now elements.now at 103 best }
    ensures { OnTrue result (IsStable costs.now elements.now at) }
{
    cost(costs, elements, at) <= best
}

/// Whether the cost with a pending Shift is stable.
#[inline(always)]
fn is_stable_shifted(
    costs: &[u32],
    elements: &[Element],
    place: usize,
    is_b: bool,
    latch: bool,
    fnc4: bool,
) -> bool
    requires table { IsTable costs.now elements.now }
    requires within { place ≤ length elements.now }
    ensures { OnTrue result (IsStable costs.now elements.now (text_stand place is_b latch fnc4 true)) }
{
    is_stable(
        costs,
        elements,
        text_stand(place, is_b, latch, fnc4, true),
        least_shifted(costs, elements, place, is_b, latch, fnc4),
    )
}

/// Whether the cost with a pending FNC4 is stable.
#[inline(always)]
fn is_stable_fnc4(
    costs: &[u32],
    elements: &[Element],
    place: usize,
    is_b: bool,
    latch: bool,
) -> bool
    requires table { IsTable costs.now elements.now }
    requires within { place ≤ length elements.now }
    ensures { OnTrue result (IsStable costs.now elements.now (text_stand place is_b latch true false)) }
{
    is_stable(
        costs,
        elements,
        text_stand(place, is_b, latch, true, false),
        least_fnc4(costs, elements, place, is_b, latch),
    )
}

/// Whether the cost with nothing pending is stable.
#[inline(always)]
fn is_stable_free(
    costs: &[u32],
    elements: &[Element],
    place: usize,
    is_b: bool,
    latch: bool,
) -> bool
    requires table { IsTable costs.now elements.now }
    requires within { place ≤ length elements.now }
    ensures { OnTrue result (IsStable costs.now elements.now (text_stand place is_b latch false false)) }
{
    is_stable(
        costs,
        elements,
        text_stand(place, is_b, latch, false, false),
        least_free(costs, elements, place, is_b, latch),
    )
}

/// Whether the cost in code set C is stable.
#[inline(always)]
fn is_stable_pairs(
    costs: &[u32],
    elements: &[Element],
    place: usize,
    latch: bool,
    fnc4: bool,
    shift: bool,
) -> bool
    requires table { IsTable costs.now elements.now }
    requires within { place ≤ length elements.now }
    ensures { OnTrue result (IsStable costs.now elements.now (pairs_stand place latch fnc4 shift)) }
{
    is_stable(
        costs,
        elements,
        pairs_stand(place, latch, fnc4, shift),
        least_pairs(costs, elements, place, latch, fnc4, shift),
    )
}

/// Whether the costs in code set A or B with one latch at a place are stable.
#[inline(always)]
fn is_stable_text(
    costs: &[u32],
    elements: &[Element],
    place: usize,
    is_b: bool,
    latch: bool,
) -> bool
    requires table { IsTable costs.now elements.now }
    requires within { place ≤ length elements.now }
    ensures { OnTrue result
        ((fnc4 shift : Bool) → IsStable costs.now elements.now (text_stand place is_b latch fnc4 shift)) }
{
    if is_stable_free(costs, elements, place, is_b, latch) {
        if is_stable_fnc4(costs, elements, place, is_b, latch) {
            if is_stable_shifted(costs, elements, place, is_b, latch, false) {
                is_stable_shifted(costs, elements, place, is_b, latch, true)
            } else {
                false
            }
        } else {
            false
        }
    } else {
        false
    }
}

/// Whether the costs in code set C with one latch at a place are stable.
#[inline(always)]
fn is_stable_in_c(costs: &[u32], elements: &[Element], place: usize, latch: bool) -> bool
    requires table { IsTable costs.now elements.now }
    requires within { place ≤ length elements.now }
    ensures { OnTrue result
        ((fnc4 shift : Bool) → IsStable costs.now elements.now (pairs_stand place latch fnc4 shift)) }
{
    if is_stable_pairs(costs, elements, place, latch, false, false) {
        if is_stable_pairs(costs, elements, place, latch, false, true) {
            if is_stable_pairs(costs, elements, place, latch, true, false) {
                is_stable_pairs(costs, elements, place, latch, true, true)
            } else {
                false
            }
        } else {
            false
        }
    } else {
        false
    }
}

/// Whether the costs at a place are stable.
fn is_stable_place(costs: &[u32], elements: &[Element], place: usize) -> bool
    requires table { IsTable costs.now elements.now }
    requires within { place ≤ length elements.now }
    ensures { OnTrue result ((at : AnyStand) → at.place ≡ place → IsStable costs.now elements.now at) }
{
    if is_stable_text(costs, elements, place, false, false) {
        if is_stable_text(costs, elements, place, false, true) {
            if is_stable_text(costs, elements, place, true, false) {
                if is_stable_text(costs, elements, place, true, true) {
                    if is_stable_in_c(costs, elements, place, false) {
                        is_stable_in_c(costs, elements, place, true)
                    } else {
                        false
                    }
                } else {
                    false
                }
            } else {
                false
            }
        } else {
            false
        }
    } else {
        false
    }
}

/// Whether all costs are stable.
pub(crate) fn is_settled(costs: &[u32], elements: &[Element]) -> bool
    requires table { IsTable costs.now elements.now }
    ensures { OnTrue result (IsSettled costs.now elements.now) }
{
    for place in 0..elements.len() + 1 {
        if !is_stable_place(costs, elements, place) {
            return false;
        }
    }
    true
}

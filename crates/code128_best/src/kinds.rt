//! The least cost at a stand by the kind of its state, which leaves out the values that may not stand there.
ghost use Rattle.std.specs.Prelude.{◌≡◌, ◌≤◌, ◌+◌, length, [], true, false, if◌then◌else◌};
ghost use Rattle.code128_best.specs.Steps.{values_through, kept_values, text_stand, pairs_stand};
ghost use Rattle.code128_best.specs.Costs.{IsTable, IsBest, own_cost};

use crate::costs::{UNSPELLED, cost, cost_of_end, cost_of_own, values_through};
use crate::state::{CodeSet, State};
use crate::stepping::Stand;
use bar_base::Element;

/// The stand before an element in code set A or B.
#[inline(always)]
pub(crate) fn text_stand(place: usize, is_b: bool, latch: bool, fnc4: bool, shift: bool) -> Stand
    ensures { result ≡ text_stand place is_b latch fnc4 shift }
{
    let set = if is_b { CodeSet::B } else { CodeSet::A };
    Stand {
        place,
        state: State {
            set,
            latch,
            fnc4,
            shift,
        },
    }
}

/// The stand before an element in code set C.
#[inline(always)]
pub(crate) fn pairs_stand(place: usize, latch: bool, fnc4: bool, shift: bool) -> Stand
    ensures { result ≡ pairs_stand place latch fnc4 shift }
{
    Stand {
        place,
        state: State {
            set: CodeSet::C,
            latch,
            fnc4,
            shift,
        },
    }
}

/// One more than the cost of a state of code set A or B.
#[inline(always)]
fn onward_text(
    costs: &[u32],
    elements: &[Element],
    place: usize,
    is_b: bool,
    latch: bool,
    fnc4: bool,
    shift: bool,
) -> u32
    requires table { IsTable costs.now elements.now }
    requires within { place ≤ length elements.now }
    ensures value { result ≡ 1 + kept_values costs.now (text_stand place is_b latch fnc4 shift) }
    ensures small { result ≤ 1001 }
{
    1 + cost(costs, elements, text_stand(place, is_b, latch, fnc4, shift))
}

/// One more than the cost in code set C where no latch is on.
#[inline(always)]
fn onward_c(costs: &[u32], elements: &[Element], place: usize, latch: bool) -> u32
    requires table { IsTable costs.now elements.now }
    requires within { place ≤ length elements.now }
    ensures value { result ≡ (if latch then 1000 else 1 + kept_values costs.now (pairs_stand place false false false)) }
{
    if latch {
        UNSPELLED
    } else {
        1 + cost(costs, elements, pairs_stand(place, false, false, false))
    }
}

/// The cost through the own value of a state of code set A or B.
#[inline(always)]
fn own_text(
    costs: &[u32],
    elements: &[Element],
    place: usize,
    is_b: bool,
    latch: bool,
    fnc4: bool,
    shift: bool,
) -> u32
    requires table { IsTable costs.now elements.now }
    requires within { place ≤ length elements.now }
    ensures value { result ≡ own_cost costs.now elements.now (text_stand place is_b latch fnc4 shift) }
{
    cost_of_own(costs, elements, text_stand(place, is_b, latch, fnc4, shift))
}

/// The cost through FNC1 in code set A or B with nothing pending.
#[inline(always)]
fn fnc1_text(costs: &[u32], elements: &[Element], place: usize, is_b: bool, latch: bool) -> u32
    requires table { IsTable costs.now elements.now }
    requires within { place ≤ length elements.now }
    ensures value { result ≡ values_through costs.now elements.now (text_stand place is_b latch false false) 102 }
{
    values_through(
        costs,
        elements,
        text_stand(place, is_b, latch, false, false),
        102,
    )
}

/// The cost at the end in code set A or B with nothing pending.
#[inline(always)]
fn end_text(elements: &[Element], place: usize, is_b: bool, latch: bool) -> u32
    ensures { IsBest [] elements.now (text_stand place is_b latch false false) 0 result }
{
    cost_of_end(elements, text_stand(place, is_b, latch, false, false))
}

/// The cost through the own value of a state of code set C.
#[inline(always)]
fn own_pairs(
    costs: &[u32],
    elements: &[Element],
    place: usize,
    latch: bool,
    fnc4: bool,
    shift: bool,
) -> u32
    requires table { IsTable costs.now elements.now }
    requires within { place ≤ length elements.now }
    ensures value { result ≡ own_cost costs.now elements.now (pairs_stand place latch fnc4 shift) }
{
    cost_of_own(costs, elements, pairs_stand(place, latch, fnc4, shift))
}

/// The cost through FNC1 in code set C.
#[inline(always)]
fn fnc1_pairs(
    costs: &[u32],
    elements: &[Element],
    place: usize,
    latch: bool,
    fnc4: bool,
    shift: bool,
) -> u32
    requires table { IsTable costs.now elements.now }
    requires within { place ≤ length elements.now }
    ensures value { result ≡ values_through costs.now elements.now (pairs_stand place latch fnc4 shift) 102 }
{
    values_through(costs, elements, pairs_stand(place, latch, fnc4, shift), 102)
}

/// The cost at the end in code set C.
#[inline(always)]
fn end_pairs(elements: &[Element], place: usize, latch: bool, fnc4: bool, shift: bool) -> u32
    ensures { IsBest [] elements.now (pairs_stand place latch fnc4 shift) 0 result }
{
    cost_of_end(elements, pairs_stand(place, latch, fnc4, shift))
}

/// The least cost with a pending Shift.
#[inline(never)]
pub(crate) fn least_shifted(
    costs: &[u32],
    elements: &[Element],
    place: usize,
    is_b: bool,
    latch: bool,
    fnc4: bool,
) -> u32
    requires table { IsTable costs.now elements.now }
    requires within { place ≤ length elements.now }
    ensures { IsBest costs.now elements.now (text_stand place is_b latch fnc4 true) 103 result }
{
    own_text(costs, elements, place, is_b, latch, fnc4, true).min(UNSPELLED)
}

/// The least cost with a pending FNC4.
#[inline(never)]
pub(crate) fn least_fnc4(
    costs: &[u32],
    elements: &[Element],
    place: usize,
    is_b: bool,
    latch: bool,
) -> u32
    requires table { IsTable costs.now elements.now }
    requires within { place ≤ length elements.now }
    ensures { IsBest costs.now elements.now (text_stand place is_b latch true false) 103 result }
{
    let own = own_text(costs, elements, place, is_b, latch, true, false);
    let shift = onward_text(costs, elements, place, is_b, latch, true, true);
    let turned = onward_text(costs, elements, place, is_b, !latch, false, false);
    UNSPELLED.min(own).min(shift).min(turned)
}

/// The least cost with nothing pending.
#[inline(never)]
pub(crate) fn least_free(
    costs: &[u32],
    elements: &[Element],
    place: usize,
    is_b: bool,
    latch: bool,
) -> u32
    requires table { IsTable costs.now elements.now }
    requires within { place ≤ length elements.now }
    ensures { IsBest costs.now elements.now (text_stand place is_b latch false false) 103 result }
{
    let end = end_text(elements, place, is_b, latch);
    let own = own_text(costs, elements, place, is_b, latch, false, false);
    let shift = onward_text(costs, elements, place, is_b, latch, false, true);
    let to_c = onward_c(costs, elements, place, latch);
    let by_100 = onward_text(costs, elements, place, true, latch, is_b, false);
    let by_101 = onward_text(costs, elements, place, false, latch, !is_b, false);
    let fnc1 = fnc1_text(costs, elements, place, is_b, latch);
    end.min(own)
        .min(shift)
        .min(to_c)
        .min(by_100)
        .min(by_101)
        .min(fnc1)
}

/// The least cost in code set C.
#[inline(never)]
pub(crate) fn least_pairs(
    costs: &[u32],
    elements: &[Element],
    place: usize,
    latch: bool,
    fnc4: bool,
    shift: bool,
) -> u32
    requires table { IsTable costs.now elements.now }
    requires within { place ≤ length elements.now }
    ensures { IsBest costs.now elements.now (pairs_stand place latch fnc4 shift) 103 result }
{
    let end = end_pairs(elements, place, latch, fnc4, shift);
    let own = own_pairs(costs, elements, place, latch, fnc4, shift);
    let by_100 = onward_text(costs, elements, place, true, latch, fnc4, shift);
    let by_101 = onward_text(costs, elements, place, false, latch, fnc4, shift);
    let fnc1 = fnc1_pairs(costs, elements, place, latch, fnc4, shift);
    end.min(own).min(by_100).min(by_101).min(fnc1)
}

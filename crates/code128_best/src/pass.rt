//! Costs in one pass over all states in a good order.
ghost use Rattle.std.specs.Prelude.{◌≤◌, length};
ghost use Rattle.code128_best.specs.Costs.{IsTable, IsBest};

use crate::kinds::{least_fnc4, least_free, least_pairs, least_shifted, pairs_stand, text_stand};
use crate::state::{STATES, number};
use crate::stepping::Stand;
use bar_base::Element;

/// Lowers the cost at a stand to the least through any value.
#[inline(always)]
fn put(costs: &mut [u32], elements: &[Element], at: Stand, best: u32)
    requires table { IsTable costs.old elements.now }
    requires within { at.place ≤ length elements.now }
    requires best { IsBest costs.old elements.now at 103 best }
    ensures { IsTable costs.new elements.now }
{
    costs[STATES * at.place + number(at.state)] = best;
}

/// Lowers the cost with a pending Shift.
#[inline(always)]
fn lower_shifted(
    costs: &mut [u32],
    elements: &[Element],
    place: usize,
    is_b: bool,
    latch: bool,
    fnc4: bool,
)
    requires table { IsTable costs.old elements.now }
    requires within { place ≤ length elements.now }
    ensures { IsTable costs.new elements.now }
{
    let best = least_shifted(costs, elements, place, is_b, latch, fnc4);
    put(
        costs,
        elements,
        text_stand(place, is_b, latch, fnc4, true),
        best,
    );
}

/// Lowers the cost with a pending FNC4.
#[inline(always)]
fn lower_fnc4(costs: &mut [u32], elements: &[Element], place: usize, is_b: bool, latch: bool)
    requires table { IsTable costs.old elements.now }
    requires within { place ≤ length elements.now }
    ensures { IsTable costs.new elements.now }
{
    let best = least_fnc4(costs, elements, place, is_b, latch);
    put(
        costs,
        elements,
        text_stand(place, is_b, latch, true, false),
        best,
    );
}

/// Lowers the cost with nothing pending.
#[inline(always)]
fn lower_free(costs: &mut [u32], elements: &[Element], place: usize, is_b: bool, latch: bool)
    requires table { IsTable costs.old elements.now }
    requires within { place ≤ length elements.now }
    ensures { IsTable costs.new elements.now }
{
    let best = least_free(costs, elements, place, is_b, latch);
    put(
        costs,
        elements,
        text_stand(place, is_b, latch, false, false),
        best,
    );
}

/// Lowers the cost in code set C.
#[inline(always)]
fn lower_pairs(
    costs: &mut [u32],
    elements: &[Element],
    place: usize,
    latch: bool,
    fnc4: bool,
    shift: bool,
)
    requires table { IsTable costs.old elements.now }
    requires within { place ≤ length elements.now }
    ensures { IsTable costs.new elements.now }
{
    let best = least_pairs(costs, elements, place, latch, fnc4, shift);
    put(
        costs,
        elements,
        pairs_stand(place, latch, fnc4, shift),
        best,
    );
}

/// Lowers the costs at a place, each state after those that it leads to without spelling, and again where some of them lead back.
fn lower_place(costs: &mut [u32], elements: &[Element], place: usize)
    requires table { IsTable costs.old elements.now }
    requires within { place ≤ length elements.now }
    ensures { IsTable costs.new elements.now }
{
    lower_shifted(costs, elements, place, false, false, false);
    lower_shifted(costs, elements, place, false, false, true);
    lower_shifted(costs, elements, place, false, true, false);
    lower_shifted(costs, elements, place, false, true, true);
    lower_shifted(costs, elements, place, true, false, false);
    lower_shifted(costs, elements, place, true, false, true);
    lower_shifted(costs, elements, place, true, true, false);
    lower_shifted(costs, elements, place, true, true, true);
    lower_free(costs, elements, place, true, true);
    lower_free(costs, elements, place, false, true);
    lower_fnc4(costs, elements, place, false, false);
    lower_fnc4(costs, elements, place, true, false);
    lower_free(costs, elements, place, false, false);
    lower_free(costs, elements, place, true, false);
    lower_pairs(costs, elements, place, false, false, false);
    lower_free(costs, elements, place, false, false);
    lower_free(costs, elements, place, true, false);
    lower_fnc4(costs, elements, place, false, true);
    lower_fnc4(costs, elements, place, true, true);
    lower_free(costs, elements, place, false, true);
    lower_free(costs, elements, place, true, true);
    lower_free(costs, elements, place, false, true);
    lower_fnc4(costs, elements, place, false, false);
    lower_fnc4(costs, elements, place, true, false);
    lower_pairs(costs, elements, place, false, false, true);
    lower_pairs(costs, elements, place, false, true, false);
    lower_pairs(costs, elements, place, false, true, true);
    lower_pairs(costs, elements, place, true, false, false);
    lower_pairs(costs, elements, place, true, false, true);
    lower_pairs(costs, elements, place, true, true, false);
    lower_pairs(costs, elements, place, true, true, true);
}

/// Lowers the costs in order, from the last place to the first.
pub(crate) fn lower_places(costs: &mut [u32], elements: &[Element])
    requires table { IsTable costs.old elements.now }
    ensures { IsTable costs.new elements.now }
{
    let mut left = elements.len() + 1;
    while left > 0 {
        left -= 1;
        lower_place(costs, elements, left);
    }
}

//! The table of costs: for each place and state the fewest values that spell the rest.
ghost use Rattle.std.specs.Prelude.{◌≡◌, ◌≤◌, length, []};
ghost use Rattle.code128_best.specs.Steps.{values_through, kept_values};
ghost use Rattle.code128_best.specs.Costs.{IsTable, IsBest, own_cost};

use crate::own::own_step;
use crate::state::{STATES, number};
use crate::stepping::{Stand, ends, step};
use bar_base::Element;

/// The cost of what can't be spelled; more than the cost of all that can.
pub(crate) const UNSPELLED: u32 = 1000;

/// The cost kept for a stand.
#[inline(always)]
#[tactic(auto, unfolding(crate::specs::Steps::kept_values))]
pub(crate) fn cost(costs: &[u32], elements: &[Element], at: Stand) -> u32
    requires table { IsTable costs.now elements.now }
    requires within { at.place ≤ length elements.now }
    ensures value { result ≡ kept_values costs.now at }
    ensures small { result ≤ 1000 }
{
    costs[STATES * at.place + number(at.state)]
}

/// The cost through a value.
#[inline(always)]
#[tactic(auto, unfolding(crate::specs::Steps::values_through, crate::specs::Steps::next_cost))]
pub(crate) fn values_through(costs: &[u32], elements: &[Element], at: Stand, value: u8) -> u32
    requires table { IsTable costs.now elements.now }
    requires within { at.place ≤ length elements.now }
    ensures value { result ≡ values_through costs.now elements.now at value }
{
    match step(elements, at, value) {
        Some(next) => 1 + cost(costs, elements, next),
        None => UNSPELLED,
    }
}

/// The cost through the only value that can spell characters or digits.
#[inline(always)]
#[tactic(auto, unfolding(crate::specs::Steps::values_through, crate::specs::Steps::next_cost))]
pub(crate) fn cost_of_own(costs: &[u32], elements: &[Element], at: Stand) -> u32
    requires table { IsTable costs.now elements.now }
    requires within { at.place ≤ length elements.now }
    ensures value { result ≡ own_cost costs.now elements.now at }
{
    match own_step(elements, at) {
        Some(next) => 1 + cost(costs, elements, next),
        None => UNSPELLED,
    }
}

/// The cost where no value follows.
#[inline(always)]
pub(crate) fn cost_of_end(elements: &[Element], at: Stand) -> u32
    ensures { IsBest [] elements.now at 0 result }
{
    if ends(elements, at) { 0 } else { UNSPELLED }
}

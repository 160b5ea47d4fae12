//! The value that is taken next.
ghost use Rattle.std.specs.Prelude.{◌≡◌, ◌<◌, ◌≤◌, Some, length};
ghost use Rattle.code128_best.specs.Steps.{kept_values, values_through, value_step};
ghost use Rattle.code128_best.specs.Costs.{IsSettled};
ghost use Rattle.code128_best.specs.Picks.{IsPick};

use crate::costs::{cost, cost_of_own, values_through};
use crate::own::own_value;
use crate::stepping::{Stand, step};
use bar_base::Element;

/// The least value through which the cost is the least.
pub(crate) fn pick(costs: &[u32], elements: &[Element], at: Stand) -> u8
    requires settled { IsSettled costs.now elements.now }
    requires within { at.place ≤ length elements.now }
    requires more { 0 < kept_values costs.now at }
    requires known { kept_values costs.now at < 1000 }
    ensures { IsPick costs.now elements.now at result }
{
    let least = cost(costs, elements, at);
    if cost_of_own(costs, elements, at) == least {
        own_value(elements, at)
    } else if values_through(costs, elements, at, 98) == least {
        98
    } else if values_through(costs, elements, at, 99) == least {
        99
    } else if values_through(costs, elements, at, 100) == least {
        100
    } else if values_through(costs, elements, at, 101) == least {
        101
    } else {
        102
    }
}

/// The stand after a value through which there is a cost.
pub(crate) fn after_value(costs: &[u32], elements: &[Element], at: Stand, value: u8) -> Stand
    requires within { at.place ≤ length elements.now }
    requires known { values_through costs.now elements.now at value < 1000 }
    ensures { value_step elements.now at value ≡ Some result }
{
    match step(elements, at, value) {
        Some(next) => next,
        None => unreachable!(),
    }
}

//! The settled table of costs.
ghost use Rattle.std.specs.Prelude.{◌≤◌, length, IfOk};
ghost use Rattle.code128_best.specs.Costs.{IsTable, IsSettled};

use crate::costs::UNSPELLED;
use crate::look::is_settled;
use crate::pass::lower_places;
use crate::state::STATES;
use crate::sweeps::settle;
use bar_base::{Element, NoMemory};
use std::alloc::Global;

/// A table in which nothing is spelled yet.
pub(crate) fn unspelled_costs(alloc: Global, elements: &[Element]) -> Result<Vec<u32>, NoMemory>
    requires { length elements.now ≤ 256 }
    ensures { IfOk result (λ costs. IsTable costs.items elements.now) }
{
    let costs = vec![in alloc; UNSPELLED; STATES * (elements.len() + 1)]?;
    Ok(costs)
}

/// The table of the fewest values from each place and state on. One pass in a good order has settled every table so far, which a look
/// confirms; the sweeps are for a table that it would leave unsettled.
pub(crate) fn settled_costs(alloc: Global, elements: &[Element]) -> Result<Vec<u32>, NoMemory>
    requires { length elements.now ≤ 256 }
    ensures { IfOk result (λ costs. IsSettled costs.items elements.now) }
{
    let mut costs = unspelled_costs(alloc, elements)?;
    lower_places(&mut costs, elements);
    if !is_settled(&costs, elements) {
        settle(&mut costs, elements);
    }
    Ok(costs)
}

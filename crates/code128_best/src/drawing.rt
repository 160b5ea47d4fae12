//! The drawn values: the start and the path of picks from it.
ghost use Rattle.std.specs.Prelude.{◌≡◌, ◌<◌, ◌≤◌, ℕ, List, length, All, IfOk, IfErr, OnOk};
ghost use Rattle.code128_best.specs.declared.code_fault.CodeFault.TheVariants.{TooLong as Excess};
ghost use Rattle.bar_base.specs.Elements.{IsElement};
ghost use Rattle.code128_best.specs.Steps.{kept_values, beginning};
ghost use Rattle.code128_best.specs.Spelling.{AreDrawnValues, SymbolSpells, IsCode128Element, plain};
ghost use Rattle.code128_best.specs.Costs.{IsSettled};
ghost use Rattle.code128_best.specs.Picks.{IsBestStart, AreWholeValues};

use crate::code_fault::CodeFault;
use crate::costs::cost;
use crate::pick::{after_value, pick};
use crate::state::{CodeSet, State};
use crate::stepping::Stand;
use crate::table::settled_costs;
use crate::values::Values;
use bar_base::{Element, Elements, NoMemory};
use std::alloc::Global;

/// The most elements that are spelled.
pub const MOST_ELEMENTS: usize = 256;

/// The stand at the beginning, in a code set with nothing on.
#[tactic(auto, unfolding(crate::specs::Steps::beginning, crate::specs::Spelling::plain))]
fn beginning_in(set: CodeSet) -> Stand
    ensures value { result ≡ beginning (plain set) }
    ensures place { result.place ≡ 0 }
{
    Stand {
        place: 0,
        state: State {
            set,
            latch: false,
            fnc4: false,
            shift: false,
        },
    }
}

/// A start value and its code set.
#[derive(Clone, Copy)]
pub(crate) struct Start {
    /// The start value.
    pub(crate) value: u8,
    /// The code set.
    pub(crate) set: CodeSet,
}

/// The cost from the beginning in a code set.
fn cost_from(costs: &[u32], elements: &[Element], set: CodeSet) -> u32
    requires { IsSettled costs.now elements.now }
    ensures { result ≡ kept_values costs.now (beginning (plain set)) }
{
    cost(costs, elements, beginning_in(set))
}

/// The least start value of those with the least cost.
fn best_start(costs: &[u32], elements: &[Element]) -> Start
    requires { IsSettled costs.now elements.now }
    ensures { IsBestStart costs.now result.value (plain result.set) }
{
    let from_a = cost_from(costs, elements, CodeSet::A);
    let from_b = cost_from(costs, elements, CodeSet::B);
    let from_c = cost_from(costs, elements, CodeSet::C);
    if from_a <= from_b && from_a <= from_c {
        Start {
            value: 103,
            set: CodeSet::A,
        }
    } else if from_b <= from_c {
        Start {
            value: 104,
            set: CodeSet::B,
        }
    } else {
        Start {
            value: 105,
            set: CodeSet::C,
        }
    }
}

/// The values from a start on, each the pick at its stand.
fn values_from(
    alloc: Global,
    costs: &[u32],
    elements: &[Element],
    start: Start,
) -> Result<Vec<u8>, NoMemory>
    requires settled { IsSettled costs.now elements.now }
    requires begins { start.value ≤ 105 }
    requires known { kept_values costs.now (beginning (plain start.set)) < 1000 }
    ensures { IfOk result (λ values.
        AreWholeValues costs.now elements.now start.value (plain start.set) values.items) }
{
    let mut values = Vec::new(alloc);
    values.push(start.value)?;
    let mut at = beginning_in(start.set);
    let mut left = cost(costs, elements, at);
    while left > 0 {
        let value = pick(costs, elements, at);
        values.push(value)?;
        at = after_value(costs, elements, at, value);
        left = cost(costs, elements, at);
    }
    Ok(values)
}

/// The drawn values, by a table of costs.
fn drawn_by(alloc: Global, costs: &[u32], body: &[Element]) -> Result<Values, NoMemory>
    requires settled { IsSettled costs.now body.now }
    requires elements { All IsElement body.now }
    requires few { length body.now ≤ 256 }
    requires spelled { All IsCode128Element body.now }
    ensures { IfOk result (λ values. AreDrawnValues body.now values) }
{
    let start = best_start(costs, body);
    let values = values_from(alloc, costs, body, start)?;
    Ok(Values::of(values))
}

/// The drawn values.
fn drawn_values(alloc: Global, body: &[Element]) -> Result<Values, NoMemory>
    requires elements { All IsElement body.now }
    requires few { length body.now ≤ 256 }
    requires spelled { All IsCode128Element body.now }
    ensures { IfOk result (λ values. AreDrawnValues body.now values) }
{
    let costs = settled_costs(alloc, body)?;
    drawn_by(alloc, &costs, body)
}

/// The values that are drawn for a body of at least one element, bytes and FNC1 (ISO/IEC 15417): of all lists of values that spell it the
/// one with the fewest values, of several such lists the first in dictionary order. The start value is the first, and the check value is
/// not among them. `TooLong` comes exactly where there are more than 256 elements.
pub fn shortest(alloc: Global, body: &Elements) -> Result<Values, CodeFault>
    requires some { 1 ≤ length body.now }
    requires spelled { All IsCode128Element body.now }
    ensures drawn { IfOk result (λ values. AreDrawnValues body.now values) }
    ensures only { IfOk result (λ values.
        (others : List ℕ) → AreDrawnValues body.now others → others ≡ values) }
    ensures fewest { IfOk result (λ values.
        (others : List ℕ) → SymbolSpells others body.now → length values ≤ length others) }
    ensures fits { OnOk result (length body.now ≤ 256) }
    ensures too_long { IfErr result (λ fault. fault ≡ Excess → 256 < length body.now) }
{
    if body.len() > MOST_ELEMENTS {
        return Err(CodeFault::TooLong);
    }
    let values = drawn_values(alloc, body.as_slice())?;
    Ok(values)
}

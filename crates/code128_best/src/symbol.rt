//! The symbol of values: its check value, its patterns and its row of modules.
ghost use Rattle.std.specs.Prelude.{◌≡◌, ℕ, ◌<◌, ◌≤◌, ◌++◌, All, IfOk, OnOk, length};
ghost use Rattle.std.specs.List.{flat_map};
ghost use Rattle.bar_base.specs.Stripes.{row_picture};
ghost use Rattle.code128_best.specs.Symbol.{check128, widths128, pattern128, symbol_widths128, HasCharacterShape};

use crate::values::Values;
use crate::widths::{STOP, WIDTHS};
use bar_base::{Grid, NoMemory, number_of_widths, row_of_widths};
use std::alloc::Global;

/// The check value (ISO/IEC 15417, Symbol check character): the start and the sum of each value by its place, modulo 103.
pub fn check(values: &Values) -> u8
    ensures value { result ≡ check128 values.now }
    ensures small { result < 103 }
{
    check_of_values(values.as_slice())
}

/// The check value of a start and the values after it, at most 16,384 in all, each at most 105.
pub fn check_of_values(values: &[u8]) -> u8
    requires some { 1 ≤ length values.now }
    requires few { length values.now ≤ 16384 }
    requires small { All (λ value. value ≤ 105) values.now }
    ensures value { result ≡ check128 values.now }
    ensures small { result < 103 }
{
    let mut sum = u64::from(values[0]);
    for (place, value) in values.iter().enumerate() {
        sum += place as u64 * u64::from(*value);
    }
    (sum % 103) as u8
}

/// The widths of a value.
#[tactic(auto, unfolding(crate::specs::Symbol::widths128))]
fn widths128(value: u8) -> &'static [u8]
    requires { value ≤ 105 }
    ensures { result.now ≡ widths128 value }
{
    &WIDTHS[value as usize]
}

/// The eleven modules of a value as a number, whose binary digits from the left are the modules, dark as 1. The value is at most 105.
#[tactic(auto, using(crate::proofs::SymbolLaws::sum_widths, crate::proofs::SymbolLaws::shaped), unfolding(crate::specs::Symbol::pattern128))]
pub fn pattern(value: u8) -> u16
    requires { value ≤ 105 }
    ensures modules { result ≡ pattern128 value }
    ensures shaped { HasCharacterShape (widths128 value) }
    ensures only { (other : ℕ) → other ≤ 105 → pattern128 other ≡ result → other ≡ value }
{
    number_of_widths(widths128(value))
}

/// The widths of the symbol.
#[tactic(auto, unfolding(crate::specs::Symbol::symbol_widths128, crate::specs::Symbol::stop_widths128))]
fn widths(alloc: Global, values: &[u8]) -> Result<Vec<u8>, NoMemory>
    requires some { 1 ≤ length values.now }
    requires few { length values.now ≤ 769 }
    requires small { All (λ value. value ≤ 105) values.now }
    ensures { IfOk result (λ widths. widths.items ≡ symbol_widths128 values.now) }
{
    let mut widths = Vec::new(alloc);
    push_widths(&mut widths, values)?;
    push_widths(&mut widths, &[check_of_values(values)])?;
    widths.extend_from_slice(&STOP)?;
    Ok(widths)
}

/// Puts the widths of values at the end.
fn push_widths(widths: &mut Vec<u8>, values: &[u8]) -> Result<(), NoMemory>
    requires { All (λ value. value ≤ 105) values.now }
    ensures { OnOk result (widths.new.items ≡ widths.old.items ++ flat_map widths128 values.now) }
{
    for value in values {
        widths.extend_from_slice(widths128(*value))?;
    }
    Ok(())
}

/// The symbol (ISO/IEC 15417): one row of the values, the check value and the stop.
pub fn modules(alloc: Global, values: &Values) -> Result<Grid, NoMemory>
    ensures { IfOk result (λ grid. grid ≡ row_picture (symbol_widths128 values.now)) }
{
    let widths = widths(alloc, values.as_slice())?;
    row_of_widths(alloc, &widths)
}

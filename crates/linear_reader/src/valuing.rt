//! The values of the patterns of a row.
ghost use Rattle.std.specs.Prelude.{◌≡◌, ◌+◌, ◌<◌, ◌≤◌, ◌∷◌, All, IfOk, OnOk, length, drop, vec_len};
ghost use Rattle.std.specs.List.{flat_map};
ghost use Rattle.bar_base.specs.Results.{Gives};
ghost use Rattle.linear_reader.specs.declared.symbology.RowSymbology.TheVariants.{Code128};
ghost use Rattle.linear_reader.specs.Patterns.{start_modules, pattern_count};
ghost use Rattle.linear_reader.specs.Row.{least_patterns, most_patterns, is_proper_end, values_from, pattern_values, two_digits, listed_values, row_values, value_bound};
ghost use Rattle.linear_reader.specs.Scan.{refusal_of};

use crate::modules::behind;
use crate::patterns::{is_end, pattern_modules, start_modules, value_in_front};
use crate::scan::ScanFault;
use crate::symbology::RowSymbology;
use bar_base::NoMemory;
use std::alloc::Global;

/// The fewest patterns between start and end.
#[tactic(auto, unfolding(crate::specs::Row::least_patterns))]
fn least_patterns(symbology: RowSymbology) -> usize
    ensures { result ≡ least_patterns symbology }
{
    match symbology {
        RowSymbology::Code39 => 0,
        RowSymbology::Code39Full => 0,
        RowSymbology::Code93 => 2,
        RowSymbology::Code128 => 1,
        RowSymbology::Itf14 => 7,
    }
}

/// The most patterns.
#[tactic(auto, unfolding(crate::specs::Row::most_patterns))]
fn most_patterns(symbology: RowSymbology, modules: &[bool]) -> usize
    ensures { result ≡ most_patterns symbology modules.now }
{
    match symbology {
        RowSymbology::Code39 => modules.len(),
        RowSymbology::Code39Full => modules.len(),
        RowSymbology::Code93 => modules.len(),
        RowSymbology::Code128 => modules.len(),
        RowSymbology::Itf14 => 7,
    }
}

/// Whether modules are an end that may stand behind so many patterns.
#[tactic(auto, unfolding(crate::specs::Row::is_proper_end))]
fn is_proper_end(symbology: RowSymbology, done: usize, modules: &[bool]) -> bool
    ensures { result ≡ is_proper_end symbology done modules.now }
{
    if least_patterns(symbology) <= done {
        is_end(symbology, modules)
    } else {
        false
    }
}

/// The values of the patterns behind the start.
#[tactic(auto, unfolding(crate::specs::Row::pattern_values))]
fn pattern_values(
    alloc: Global,
    symbology: RowSymbology,
    modules: &[bool],
) -> Result<Vec<u8>, ScanFault>
    requires { start_modules symbology ≤ length modules.now }
    ensures values { Gives refusal_of (λ values. values.items) result (pattern_values symbology modules.now) }
    ensures small { IfOk result (λ values. All (λ value. value < pattern_count symbology) values.items) }
    ensures enough { IfOk result (λ values. least_patterns symbology ≤ vec_len values) }
    ensures few { IfOk result (λ values. vec_len values + start_modules symbology ≤ length modules.now) }
    ensures most { IfOk result (λ values. vec_len values ≤ most_patterns symbology modules.now) }
{
    let most = most_patterns(symbology, modules);
    let wide = pattern_modules(symbology);
    let mut values = Vec::new(alloc);
    let mut place = start_modules(symbology);
    'patterns: while !is_proper_end(symbology, values.len(), behind(modules, place)) {
        if values.len() == most {
            return Err(ScanFault::BadPattern(place));
        }
        match value_in_front(symbology, behind(modules, place)) {
            None => return Err(ScanFault::BadPattern(place)),
            Some(value) => values.push(value)?,
        }
        place += wide;
    }
    Ok(values)
}

/// The start value and the values behind it.
fn behind_start(alloc: Global, start: u8, values: &[u8]) -> Result<Vec<u8>, NoMemory>
    ensures { IfOk result (λ all. all.items ≡ start ∷ values.now) }
{
    let mut all = vec![in alloc; start; 1]?;
    all.extend_from_slice(values)?;
    Ok(all)
}

/// The digits of pairs of digits.
fn digits(alloc: Global, pairs: &[u8]) -> Result<Vec<u8>, NoMemory>
    ensures { IfOk result (λ all. all.items ≡ flat_map two_digits pairs.now) }
{
    let mut digits = Vec::new(alloc);
    for pair in pairs {
        digits.push(*pair / 10)?;
        digits.push(*pair % 10)?;
    }
    Ok(digits)
}

/// The list of values of a row.
#[tactic(auto, unfolding(crate::specs::Row::listed_values))]
fn listed_values(
    alloc: Global,
    symbology: RowSymbology,
    start: u8,
    values: Vec<u8>,
) -> Result<Vec<u8>, NoMemory>
    ensures { IfOk result (λ all. all.items ≡ listed_values symbology start values.items) }
{
    match symbology {
        RowSymbology::Code39 => Ok(values),
        RowSymbology::Code39Full => Ok(values),
        RowSymbology::Code93 => Ok(values),
        RowSymbology::Code128 => behind_start(alloc, start, &values),
        RowSymbology::Itf14 => digits(alloc, &values),
    }
}

/// The list of values of modules that begin with a start.
#[tactic(auto, unfolding(crate::specs::Row::row_values))]
pub(crate) fn row_values(
    alloc: Global,
    symbology: RowSymbology,
    start: u8,
    modules: &[bool],
) -> Result<Vec<u8>, ScanFault>
    requires begun { start_modules symbology ≤ length modules.now }
    requires few { length modules.now ≤ 16384 }
    requires start { start < 106 }
    ensures values { Gives refusal_of (λ values. values.items) result (row_values symbology start modules.now) }
    ensures small { IfOk result (λ values. All (λ value. value < value_bound symbology) values.items) }
    ensures few { IfOk result (λ values. vec_len values ≤ 16384) }
    ensures some { IfOk result (λ values. symbology ≡ Code128 → 2 ≤ vec_len values) }
{
    let values = pattern_values(alloc, symbology, modules)?;
    let all = listed_values(alloc, symbology, start, values)?;
    Ok(all)
}

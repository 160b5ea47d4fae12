//! The checks of a row.
ghost use Rattle.std.specs.Prelude.{◌≡◌, ◌<◌, ◌≤◌, [], ◌∷◌, All, IfOk, length};
ghost use Rattle.bar_base.specs.Results.{Gives};
ghost use Rattle.linear_codes.specs.Code93.{checks93};
ghost use Rattle.linear_reader.specs.declared.symbology.RowSymbology.TheVariants.{Code128};
ghost use Rattle.linear_reader.specs.Checks.{check_count, data_count, data_values, wanted_checks, first_wrong, checks_of};
ghost use Rattle.linear_reader.specs.Scan.{refusal_of};
ghost use Rattle.linear_reader.specs.Row.{value_bound};

use crate::scan::ScanFault;
use crate::symbology::RowSymbology;
use bar_base::{NoMemory, Short, check_digit};
use code128_best::check_of_values;
use linear_codes::push_checks93;
use std::alloc::Global;

/// How many of the values are checks.
#[tactic(auto, unfolding(crate::specs::Checks::check_count))]
fn check_count(symbology: RowSymbology) -> usize
    ensures { result ≡ check_count symbology }
{
    match symbology {
        RowSymbology::Code39 => 0,
        RowSymbology::Code39Full => 0,
        RowSymbology::Code93 => 2,
        RowSymbology::Code128 => 1,
        RowSymbology::Itf14 => 1,
    }
}

/// How many values stand before the checks.
#[tactic(auto, unfolding(crate::specs::Checks::data_count))]
fn data_count(symbology: RowSymbology, values: &[u8]) -> usize
    ensures value { result ≡ data_count symbology values.now }
    ensures within { result ≤ length values.now }
{
    values.len().saturating_sub(check_count(symbology))
}

/// The values before the checks.
#[tactic(auto, unfolding(crate::specs::Checks::data_values))]
pub(crate) fn data_values(symbology: RowSymbology, values: &[u8]) -> &[u8]
    ensures values { result.now ≡ data_values symbology values.now }
    ensures few { length result.now ≤ length values.now }
{
    &values[..data_count(symbology, values)]
}

/// The list of one check.
fn one(check: u8) -> Short<2>
    ensures { result ≡ check ∷ [] }
{
    let mut checks = Short::new();
    checks.push(check);
    checks
}

/// The checks of values of Code 93.
fn checks93(alloc: Global, body: &[u8]) -> Result<Short<2>, NoMemory>
    requires small { All (λ value. value < 47) body.now }
    requires few { length body.now ≤ 16384 }
    ensures { IfOk result (λ checks. checks ≡ checks93 body.now) }
{
    let mut values = Vec::from_slice(alloc, body)?;
    let checks = push_checks93(&mut values)?;
    Ok(checks)
}

/// The checks that these values want.
#[tactic(auto, unfolding(crate::specs::Checks::wanted_checks, crate::specs::Row::value_bound))]
fn wanted_checks(alloc: Global, symbology: RowSymbology, body: &[u8]) -> Result<Short<2>, NoMemory>
    requires small { All (λ value. value < value_bound symbology) body.now }
    requires few { length body.now ≤ 16384 }
    requires some { symbology ≡ Code128 → 1 ≤ length body.now }
    ensures { IfOk result (λ checks. checks ≡ wanted_checks symbology body.now) }
{
    match symbology {
        RowSymbology::Code39 => Ok(Short::new()),
        RowSymbology::Code39Full => Ok(Short::new()),
        RowSymbology::Code93 => checks93(alloc, body),
        RowSymbology::Code128 => Ok(one(check_of_values(body))),
        RowSymbology::Itf14 => Ok(one(check_digit(body))),
    }
}

/// The first check that differs from the wanted one; the first of them has a place.
fn first_wrong(place: usize, given: &[u8], wanted: &[u8]) -> Option<ScanFault>
    requires { place ≤ 65536 }
    ensures { result ≡ first_wrong place given.now wanted.now }
{
    for (at, check) in given.iter().enumerate() {
        if at == wanted.len() {
            return None;
        }
        if *check != wanted[at] {
            return Some(ScanFault::BadCheck(place + at, *check, wanted[at]));
        }
    }
    None
}

/// The checks of values, each as it is wanted.
#[tactic(auto, unfolding(crate::specs::Checks::checks_of))]
pub(crate) fn checks_of(
    alloc: Global,
    symbology: RowSymbology,
    values: &[u8],
) -> Result<Short<2>, ScanFault>
    requires small { All (λ value. value < value_bound symbology) values.now }
    requires few { length values.now ≤ 16384 }
    requires some { symbology ≡ Code128 → 2 ≤ length values.now }
    ensures { Gives refusal_of (λ checks. checks) result (checks_of symbology values.now) }
{
    let count = data_count(symbology, values);
    let wanted = wanted_checks(alloc, symbology, data_values(symbology, values))?;
    match first_wrong(count, &values[count..], wanted.as_slice()) {
        None => Ok(wanted),
        Some(fault) => Err(fault),
    }
}

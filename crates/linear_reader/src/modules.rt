//! The modules of a row, in lists.
ghost use Rattle.std.specs.Prelude.{◌≡◌, ◌≤◌, IfOk, IfSome, length, drop, reverse, vec_len};
ghost use Rattle.bar_base.specs.Bits.{number_after};
ghost use Rattle.bar_base.specs.Picture.{row_count};
ghost use Rattle.linear_reader.specs.Patterns.{front_number};
ghost use Rattle.linear_reader.specs.Row.{core, from_dark};

use bar_base::{Grid, NoMemory};
use std::alloc::Global;

/// The modules of the one row of a grid.
fn row_of(alloc: Global, grid: &Grid) -> Result<Vec<bool>, NoMemory>
    requires { row_count grid.now ≡ 1 }
    ensures modules { IfOk result (λ modules. modules.items ≡ grid.now.modules) }
    ensures few { IfOk result (λ modules. vec_len modules ≤ 16384) }
{
    let mut modules = Vec::new(alloc);
    for column in 0..grid.width() {
        modules.push(grid.dark(column, 0))?;
    }
    Ok(modules)
}

/// The modules turned round.
pub(crate) fn turned(alloc: Global, modules: &[bool]) -> Result<Vec<bool>, NoMemory>
    ensures turned { IfOk result (λ turned. turned.items ≡ reverse modules.now) }
    ensures long { IfOk result (λ turned. vec_len turned ≡ length modules.now) }
{
    let turned = modules.iter().rev().copied().collect(alloc)?;
    Ok(turned)
}

/// The modules from a place on.
pub(crate) fn behind(modules: &[bool], place: usize) -> &[bool]
    requires { place ≤ length modules.now }
    ensures { result.now ≡ drop place modules.now }
{
    &modules[place..]
}

/// The modules from the first dark one on.
fn from_dark(modules: &[bool]) -> &[bool]
    ensures modules { result.now ≡ from_dark modules.now }
    ensures few { length result.now ≤ length modules.now }
{
    for (place, dark) in modules.iter().enumerate() {
        if *dark {
            return behind(modules, place);
        }
    }
    behind(modules, modules.len())
}

/// The core of a grid of one row: the row without the light modules at its ends.
#[tactic(auto, unfolding(crate::specs::Row::core))]
pub(crate) fn core(alloc: Global, grid: &Grid) -> Result<Vec<bool>, NoMemory>
    requires { row_count grid.now ≡ 1 }
    ensures modules { IfOk result (λ modules. modules.items ≡ core grid.now.modules) }
    ensures few { IfOk result (λ modules. vec_len modules ≤ 16384) }
{
    let row = row_of(alloc, grid)?;
    let backward = turned(alloc, from_dark(&row))?;
    let core = turned(alloc, from_dark(&backward))?;
    Ok(core)
}

/// The number that at most eighteen modules write, dark as 1.
pub(crate) fn number_of(modules: &[bool]) -> u32
    requires { length modules.now ≤ 18 }
    ensures { result ≡ number_after 0 modules.now }
{
    let mut number = 0;
    for dark in modules {
        number = number * 2 + u32::from(*dark);
    }
    number
}

/// The number that the first modules write, at most eighteen, dark as 1; None where there are fewer.
#[tactic(auto, unfolding(crate::specs::Patterns::front_number))]
pub(crate) fn front_number(modules: &[bool], count: usize) -> Option<u32>
    requires { count ≤ 18 }
    ensures number { result ≡ front_number count modules.now }
    ensures within { IfSome result (λ _. count ≤ length modules.now) }
{
    if count <= modules.len() {
        Some(number_of(&modules[..count]))
    } else {
        None
    }
}

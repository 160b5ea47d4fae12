//! Rows of bars and spaces, given by their widths in modules.
ghost use Rattle.std.specs.Prelude.{◌≡◌, ◌<◌, ◌≤◌, ◌+◌, ◌*◌, ◌++◌, ◌^◌, length, replicate, sum, true, IfOk, OnOk, OnErr};
ghost use Rattle.bar_base.specs.Bits.{number_after};
ghost use Rattle.bar_base.specs.Stripes.{stripes, row_picture};

use crate::grid::Grid;
use crate::no_memory::NoMemory;
use std::alloc::Global;

/// A picture of one row of bars and spaces with these widths in modules, in turn, beginning with a bar. Their sum is 1 to 16,384.
#[tactic(auto, unfolding(crate::specs::Stripes::row_picture))]
pub fn row_of_widths(alloc: Global, widths: &[u8]) -> Result<Grid, NoMemory>
    requires some { 1 ≤ sum widths.now }
    requires few { sum widths.now ≤ 16384 }
    ensures { IfOk result (λ grid. grid ≡ row_picture widths.now) }
{
    let modules = modules_of_widths(alloc, widths)?;
    let width = modules.len() as u32;
    Grid::of_rows(alloc, width, &[1], modules)
}

/// The modules of bars and spaces with these widths, beginning with a bar.
fn modules_of_widths(alloc: Global, widths: &[u8]) -> Result<Vec<bool>, NoMemory>
    ensures { IfOk result (λ modules. modules.items ≡ stripes true widths.now) }
{
    let mut modules = Vec::new(alloc);
    let mut dark = true;
    for width in widths {
        push_stripe(&mut modules, *width, dark)?;
        dark = !dark;
    }
    Ok(modules)
}

/// Puts a bar or a space at the end.
fn push_stripe(modules: &mut Vec<bool>, width: u8, dark: bool) -> Result<(), NoMemory>
    ensures { OnOk result (modules.new.items ≡ modules.old.items ++ replicate width dark) }
{
    for _ in 0..width {
        modules.push(dark)?;
    }
    Ok(())
}

/// The number whose binary digits, from the left, are the modules of bars and spaces with these widths, a dark module being 1. The sum
/// of the widths is at most 16.
pub fn number_of_widths(widths: &[u8]) -> u16
    requires { sum widths.now ≤ 16 }
    ensures { result ≡ number_after 0 (stripes true widths.now) }
{
    let mut number = 0;
    let mut dark = true;
    for width in widths {
        number = with_stripe(number, *width, dark);
        dark = !dark;
    }
    number
}

/// A number with the binary digits of a bar or a space behind its own.
fn with_stripe(number: u16, width: u8, dark: bool) -> u16
    requires { (number + 1) * 2 ^ width ≤ 2 ^ 16 }
    ensures digits { result ≡ number_after number (replicate width dark) }
    ensures bounded { result + 1 ≤ (number + 1) * 2 ^ width }
{
    let mut longer = number;
    for _ in 0..width {
        longer = longer * 2 + u16::from(dark);
    }
    longer
}

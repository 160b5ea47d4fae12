//! Lists of coefficients: their sums, and multiples of one added to another.

ghost use Rattle.std.specs.Prelude.{◌≡◌, ◌≤◌, ◌-◌, length, replicate, IfOk};
ghost use Rattle.galois.specs.Coefficients.{total, added, added_behind};

use bar_base::NoMemory;
use galois::{Field, Tables};
use std::alloc::Global;

/// As many zeros.
pub fn zeros<F: Field>(alloc: Global, count: usize) -> Result<Vec<F>, NoMemory>
    ensures { IfOk result (λ v. length v.items ≡ count) }
{
    let zero = F::zero();
    let mut list = Vec::with_capacity(alloc, count)?;
    for _place in 0..count {
        list.push(zero)?;
    }
    Ok(list)
}

/// Makes all elements zero.
pub fn clear<F: Field>(list: &mut [F])
    ensures { list.new ≡ replicate (length list.old) F.nought }
{
    let zero = F::zero();
    for element in list.iter_mut() {
        *element = zero;
    }
}

/// The sum of all elements, first the last.
pub fn sum<F: Field>(list: &[F]) -> F
    ensures { result ≡ total F.nought F.plus list.now }
{
    let mut sum = F::zero();
    for element in list {
        sum = sum.add(*element);
    }
    sum
}

// Adds the source times a power of alpha, place by place.
fn add_power_multiple<F: Field>(tables: &Tables<F>, target: &mut [F], source: &[F], exponent: usize)
    requires alike { length source.now ≡ length target.old }
    requires power { exponent ≤ F.ORDER }
    ensures { target.new ≡ added F.plus F.times (F.power exponent) target.old source.now }
{
    for i in 0..target.len() {
        target[i] = target[i].add(tables.times_power(source[i], exponent));
    }
}

// Adds the source times a factor, place by place.
fn add_multiple<F: Field>(tables: &Tables<F>, target: &mut [F], source: &[F], factor: F)
    requires alike { length source.now ≡ length target.old }
    ensures { target.new ≡ added F.plus F.times factor target.old source.now }
{
    if factor == F::zero() {
        return;
    }
    add_power_multiple(tables, target, source, tables.exponent(factor));
}

/// Adds the source times a factor to the last places of the target.
pub fn add_behind<F: Field>(tables: &Tables<F>, target: &mut [F], source: &[F], factor: F)
    requires shorter { length source.now ≤ length target.old }
    ensures { target.new ≡
        added_behind F.plus F.times factor (length target.old - length source.now) target.old source.now }
{
    let shift = target.len() - source.len();
    add_multiple(tables, &mut target[shift..], source, factor);
}

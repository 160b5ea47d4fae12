//! Division by the generator polynomial, one coefficient at a time.

ghost use Rattle.std.specs.Prelude.{◌≡◌, ◌<◌, List, [], ◌∷◌, ◌++◌, All, length, drop, replicate};
ghost use Rattle.rs_encode.specs.Division.{moved, Completes};
ghost use Rattle.rs_encode.specs.Generator.{IsGenerator};

use galois::{Field, Tables};

/// Makes all registers zero.
pub fn clear<F: Field>(registers: &mut [F])
    ensures { registers.new ≡ replicate (length registers.old) F.nought }
{
    let zero = F::zero();
    for register in registers.iter_mut() {
        *register = zero;
    }
}

// Moves the registers up by one place; the last becomes zero.
fn move_zeros<F: Field>(exponents: &[u16], registers: &mut [F])
    requires some { 0 < length registers.old }
    requires alike { length exponents.now ≡ length registers.old }
    ensures { registers.new ≡ moved F.plus F.times F.power F.nought (drop 1 registers.old) exponents.now }
{
    let last = registers.len() - 1;
    for i in 0..last {
        registers[i] = registers[i + 1];
    }
    registers[last] = F::zero();
}

// Moves the registers up by one place and adds a power of alpha times the generator's coefficients.
fn move_power<F: Field>(tables: &Tables<F>, exponents: &[u16], registers: &mut [F], log: usize)
    requires some { 0 < length registers.old }
    requires alike { length exponents.now ≡ length registers.old }
    requires below { All (λ exponent. exponent < F.ORDER) exponents.now }
    requires log { log < F.ORDER }
    ensures { registers.new ≡ moved F.plus F.times F.power (F.power log) (drop 1 registers.old) exponents.now }
{
    let last = registers.len() - 1;
    for i in 0..last {
        registers[i] = registers[i + 1].add(tables.power(log + usize::from(exponents[i])));
    }
    registers[last] = tables.power(log + usize::from(exponents[last]));
}

/// Moves the registers up by one place and adds a factor times the generator's coefficients.
pub fn move_up<F: Field>(tables: &Tables<F>, exponents: &[u16], registers: &mut [F], factor: F)
    requires some { 0 < length registers.old }
    requires alike { length exponents.now ≡ length registers.old }
    requires below { All (λ exponent. exponent < F.ORDER) exponents.now }
    ensures { registers.new ≡ moved F.plus F.times F.power factor (drop 1 registers.old) exponents.now }
{
    if factor == F::zero() {
        move_zeros(exponents, registers);
    } else {
        move_power(tables, exponents, registers, tables.exponent(factor));
    }
}

// Feeds one element more.
fn feed<F: Field>(tables: &Tables<F>, exponents: &[u16], registers: &mut [F], element: F)
    requires some { 0 < length registers.old }
    requires alike { length exponents.now ≡ length registers.old }
    requires generator { IsGenerator F.nought F.unit F.plus F.times F.power F.ORDER exponents.now }
    ensures { (fed : List F) → Completes F.nought F.plus F.times F.power fed registers.old →
        Completes F.nought F.plus F.times F.power (fed ++ element ∷ []) registers.new }
{
    let factor = registers[0].add(element);
    move_up(tables, exponents, registers, factor);
}

/// Leaves in the registers, which are zero before, the check elements of a word.
pub fn divide<F: Field>(tables: &Tables<F>, exponents: &[u16], registers: &mut [F], word: &[F])
    requires some { 0 < length registers.old }
    requires alike { length exponents.now ≡ length registers.old }
    requires generator { IsGenerator F.nought F.unit F.plus F.times F.power F.ORDER exponents.now }
    requires zeros { registers.old ≡ replicate (length registers.old) F.nought }
    ensures { Completes F.nought F.plus F.times F.power word.now registers.new }
{
    for element in word {
        feed(tables, exponents, registers, *element);
    }
}

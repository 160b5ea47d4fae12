//! The generator polynomial, by the exponents of its coefficients, each found from the one before it.

ghost use Rattle.std.specs.Prelude.{◌<◌, length};
ghost use Rattle.rs_encode.specs.Generator.{IsGenerator, IsNext};

use galois::{Field, Tables};

// The exponent of the next coefficient: of `count` coefficients behind the leading one, `behind` are behind it.
fn next_exponent<F: Field>(tables: &Tables<F>, count: usize, behind: usize, before: usize) -> usize
    requires few { count < F.ORDER }
    requires behind { behind < count }
    requires before { before < F.ORDER }
    ensures below { result < F.ORDER }
    ensures next { IsNext F.plus F.times F.power count behind before result }
{
    let high = tables.power(count);
    let upper = high.add(tables.power(count + behind + 1));
    let lower = tables.power(behind).add(high);
    tables.exponent(tables.over(tables.times_power(upper, before), lower))
}

/// Writes the exponents of the coefficients behind the leading one, the highest coefficient first (ISO/IEC 24778,
/// Reed-Solomon error correction).
pub fn write_generator<F: Field>(tables: &Tables<F>, exponents: &mut [u16])
    requires { length exponents.old < F.ORDER }
    ensures { IsGenerator F.nought F.unit F.plus F.times F.power F.ORDER exponents.new }
{
    let count = exponents.len();
    let mut before = 0;
    for place in 0..count {
        before = next_exponent(tables, count, count - 1 - place, before);
        exponents[place] = before as u16;
    }
}

//! Division by the generator polynomial with multiples of it in rows, for long words: an element is the sum of what
//! each four bits of its number stand for, and for each of these there is a row.

ghost use Rattle.std.specs.Prelude.{◌≡◌, ℕ, ◌+◌, ◌*◌, ◌/◌, ◌%◌, ◌<◌, ◌≤◌, List, [], ◌∷◌, ◌++◌, All, length, drop, replicate, slice_index_or};
ghost use Rattle.std.specs.Bool.{OnTrue};
ghost use Rattle.rs_encode.specs.Division.{moved, Completes};
ghost use Rattle.rs_encode.specs.Generator.{IsGenerator};
ghost use Rattle.rs_encode.specs.Rows.{HasRow, HasRows, IsProduct, row_number};

use crate::division::move_up;
use galois::{Field, Tables, element_of};

// The number of the element whose multiples are in a row.
#[tactic(auto, unfolding(crate::specs::Rows::row_number))]
fn row_number(row: usize) -> u32
    requires { row < 48 }
    ensures { result ≡ row_number row }
{
    if row < 16 {
        row as u32
    } else if row < 32 {
        (row as u32 - 16) * 16
    } else {
        (row as u32 - 32) * 256
    }
}

// The element of a number, zero where there is none.
fn element_or_zero<F: Field>(number: u32) -> F
    ensures { (x : F) → F.value x ≡ number → result ≡ x }
{
    match F::from_number(number) {
        Some(element) => element,
        None => F::zero(),
    }
}

// Writes a row.
fn fill_row<F: Field>(tables: &Tables<F>, exponents: &[u16], rows: &mut [u16], row: usize)
    requires room { length rows.old ≡ 24576 }
    requires few { length exponents.now ≤ 512 }
    requires below { All (λ exponent. exponent < F.ORDER) exponents.now }
    requires row { row < 48 }
    ensures kept { (j : ℕ) → j < row * 512 → slice_index_or rows.new j 0 ≡ slice_index_or rows.old j 0 }
    ensures row { HasRow F.times F.power F.value F.ORDER exponents.now rows.new row }
{
    let factor = element_or_zero::<F>(row_number(row));
    for i in 0..exponents.len() {
        let product = tables.times_power(factor, usize::from(exponents[i]));
        rows[row * 512 + i] = product.number() as u16;
    }
}

// Writes all rows.
fn fill_rows<F: Field>(tables: &Tables<F>, exponents: &[u16], rows: &mut [u16])
    requires room { length rows.old ≡ 24576 }
    requires few { length exponents.now ≤ 512 }
    requires below { All (λ exponent. exponent < F.ORDER) exponents.now }
    ensures { HasRows F.times F.power F.value F.ORDER exponents.now rows.new 48 }
{
    for row in 0..48 {
        fill_row(tables, exponents, rows, row);
    }
}

// The sum of what three rows have at a place.
#[inline(always)]
fn summed<F: Field>(rows: &[u16], a: usize, b: usize, c: usize, i: usize) -> F
    requires room { length rows.now ≡ 24576 }
    requires i { i < 512 }
    requires a { a < 48 }
    requires b { b < 48 }
    requires c { c < 48 }
    requires in_a { slice_index_or rows.now (a * 512 + i) 0 ≤ F.ORDER }
    requires in_b { slice_index_or rows.now (b * 512 + i) 0 ≤ F.ORDER }
    requires in_c { slice_index_or rows.now (c * 512 + i) 0 ≤ F.ORDER }
    ensures { (x y z : F) → slice_index_or rows.now (a * 512 + i) 0 ≡ F.value x →
        slice_index_or rows.now (b * 512 + i) 0 ≡ F.value y → slice_index_or rows.now (c * 512 + i) 0 ≡ F.value z →
        result ≡ F.plus x (F.plus y z) }
{
    let first: F = element_of(u32::from(rows[a * 512 + i]));
    let second: F = element_of(u32::from(rows[b * 512 + i]));
    let third: F = element_of(u32::from(rows[c * 512 + i]));
    first.add(second.add(third))
}

// Moves the registers up by one place and adds three rows.
fn add_rows<F: Field>(rows: &[u16], a: usize, b: usize, c: usize, registers: &mut [F])
    requires room { length rows.now ≡ 24576 }
    requires some { 0 < length registers.old }
    requires few { length registers.old ≤ 512 }
    requires a { a < 48 }
    requires b { b < 48 }
    requires c { c < 48 }
    requires in_a { (i : ℕ) → i < length registers.old → slice_index_or rows.now (a * 512 + i) 0 ≤ F.ORDER }
    requires in_b { (i : ℕ) → i < length registers.old → slice_index_or rows.now (b * 512 + i) 0 ≤ F.ORDER }
    requires in_c { (i : ℕ) → i < length registers.old → slice_index_or rows.now (c * 512 + i) 0 ≤ F.ORDER }
    ensures { (x y z : F) (exponents : List ℕ) → length exponents ≡ length registers.old →
        IsProduct F.times F.power F.value exponents rows.now a x →
        IsProduct F.times F.power F.value exponents rows.now b y →
        IsProduct F.times F.power F.value exponents rows.now c z →
        registers.new ≡ moved F.plus F.times F.power (F.plus x (F.plus y z)) (drop 1 registers.old) exponents }
{
    let last = registers.len() - 1;
    for i in 0..last {
        registers[i] = registers[i + 1].add(summed(rows, a, b, c, i));
    }
    registers[last] = summed(rows, a, b, c, last);
}

// Whether an element is the sum of those of its number's lowest four bits, of the next four and of the others.
fn is_split<F: Field>(element: F, number: u32) -> bool
    ensures { OnTrue result ((x y z : F) × (F.value x ≡ number % 16) × (F.value y ≡ number / 16 % 16 * 16) ×
        (F.value z ≡ number / 256 * 256) × (F.plus x (F.plus y z) ≡ element)) }
{
    let Some(low) = F::from_number(number % 16) else {
        return false;
    };
    let Some(middle) = F::from_number(number / 16 % 16 * 16) else {
        return false;
    };
    let Some(high) = F::from_number(number / 256 * 256) else {
        return false;
    };
    low.add(middle.add(high)) == element
}

// Moves the registers up by one place and adds a factor times the generator's coefficients.
fn move_by_rows<F: Field>(
    tables: &Tables<F>,
    exponents: &[u16],
    rows: &[u16],
    registers: &mut [F],
    factor: F,
)
    requires some { 0 < length registers.old }
    requires few { length registers.old ≤ 512 }
    requires alike { length exponents.now ≡ length registers.old }
    requires below { All (λ exponent. exponent < F.ORDER) exponents.now }
    requires room { length rows.now ≡ 24576 }
    requires rows { HasRows F.times F.power F.value F.ORDER exponents.now rows.now 48 }
    ensures { registers.new ≡ moved F.plus F.times F.power factor (drop 1 registers.old) exponents.now }
{
    let number = factor.number();
    if is_split(factor, number) {
        add_rows(
            rows,
            (number % 16) as usize,
            16 + (number / 16 % 16) as usize,
            32 + (number / 256) as usize,
            registers,
        );
    } else {
        move_up(tables, exponents, registers, factor);
    }
}

// Feeds one element more.
fn feed_by_rows<F: Field>(
    tables: &Tables<F>,
    exponents: &[u16],
    rows: &[u16],
    registers: &mut [F],
    element: F,
)
    requires some { 0 < length registers.old }
    requires few { length registers.old ≤ 512 }
    requires alike { length exponents.now ≡ length registers.old }
    requires generator { IsGenerator F.nought F.unit F.plus F.times F.power F.ORDER exponents.now }
    requires room { length rows.now ≡ 24576 }
    requires rows { HasRows F.times F.power F.value F.ORDER exponents.now rows.now 48 }
    ensures { (fed : List F) → Completes F.nought F.plus F.times F.power fed registers.old →
        Completes F.nought F.plus F.times F.power (fed ++ element ∷ []) registers.new }
{
    let factor = registers[0].add(element);
    move_by_rows(tables, exponents, rows, registers, factor);
}

/// Leaves in the registers, which are zero before, the check elements of a word. It is not inlined, so that a short word does not pay for
/// the rows on the stack.
#[inline(never)]
pub fn divide_by_rows<F: Field>(
    tables: &Tables<F>,
    exponents: &[u16],
    registers: &mut [F],
    word: &[F],
)
    requires some { 0 < length registers.old }
    requires few { length registers.old ≤ 512 }
    requires alike { length exponents.now ≡ length registers.old }
    requires generator { IsGenerator F.nought F.unit F.plus F.times F.power F.ORDER exponents.now }
    requires zeros { registers.old ≡ replicate (length registers.old) F.nought }
    ensures { Completes F.nought F.plus F.times F.power word.now registers.new }
{
    let mut rows = [0; 24576];
    fill_rows(tables, exponents, &mut rows);
    for element in word {
        feed_by_rows(tables, exponents, &rows, registers, *element);
    }
}

//! The check elements of a front.

ghost use Rattle.std.specs.Prelude.{◌≡◌, ◌<◌, ◌≤◌, ◌+◌, length, replicate};
ghost use Rattle.galois.specs.CheckWord.{IsCheckOf};
ghost use Rattle.rs_encode.specs.Division.{Completes};

use crate::division::{clear, divide};
use crate::generator::write_generator;
use crate::rows::divide_by_rows;
use galois::{Field, Tables};

/// The longest generator polynomial that is divided by rows.
const LONGEST_ROW: usize = 512;

/// The shortest word that pays for the rows.
const SHORTEST_WORD: usize = 200;

// Leaves in the registers, which are zero before, the check elements of a word, with the generator's exponents in a
// list that is lent.
fn write_in<F: Field>(tables: &Tables<F>, front: &[F], check: &mut [F], room: &mut [u16])
    requires some { 0 < length check.old }
    requires few { length check.old < F.ORDER }
    requires zeros { check.old ≡ replicate (length check.old) F.nought }
    requires room { length check.old ≤ length room.old }
    ensures { Completes F.nought F.plus F.times F.power front.now check.new }
{
    let exponents = &mut room[..check.len()];
    write_generator(tables, exponents);
    if check.len() <= LONGEST_ROW && front.len() >= SHORTEST_WORD {
        divide_by_rows(tables, exponents, check, front);
    } else {
        divide(tables, exponents, check, front);
    }
}

// The same with lists of its own, over a field of at most 1024 elements.
#[inline(never)]
fn write_check_small<F: Field>(front: &[F], check: &mut [F])
    requires small { F.ORDER < 1024 }
    requires some { 0 < length check.old }
    requires few { length check.old < F.ORDER }
    requires zeros { check.old ≡ replicate (length check.old) F.nought }
    ensures { Completes F.nought F.plus F.times F.power front.now check.new }
{
    let mut powers = [0; 2046];
    let mut numbers = [0; 1024];
    let mut exponents = [0; 1023];
    let tables = Tables::new(&mut powers, &mut numbers);
    write_in(&tables, front, check, &mut exponents);
}

// The same over any field.
#[inline(never)]
fn write_check_large<F: Field>(front: &[F], check: &mut [F])
    requires some { 0 < length check.old }
    requires few { length check.old < F.ORDER }
    requires zeros { check.old ≡ replicate (length check.old) F.nought }
    ensures { Completes F.nought F.plus F.times F.power front.now check.new }
{
    let mut powers = [0; 8190];
    let mut numbers = [0; 4096];
    let mut exponents = [0; 4095];
    let tables = Tables::new(&mut powers, &mut numbers);
    write_in(&tables, front, check, &mut exponents);
}

// The same with lists no longer than the field needs: a page of memory that is not touched costs no time.
fn write_check<F: Field>(front: &[F], check: &mut [F])
    requires some { 0 < length check.old }
    requires few { length check.old < F.ORDER }
    requires zeros { check.old ≡ replicate (length check.old) F.nought }
    ensures { Completes F.nought F.plus F.times F.power front.now check.new }
{
    if F::ORDER < 1024 {
        write_check_small(front, check);
    } else {
        write_check_large(front, check);
    }
}

/// Writes the check elements of `front` into `check`, as many as it has room for. Then `front` followed by `check`,
/// read as a polynomial with the highest coefficient first, has the roots alpha, alpha to the power 2 and so on up to
/// the number of check elements, and no other check elements give that. It takes no memory. (ISO/IEC 24778,
/// Reed-Solomon error correction.)
///
/// Together they may have as many elements as the field has powers of alpha.
pub fn encode<F: Field>(front: &[F], check: &mut [F])
    requires { length front.now + length check.old ≤ F.ORDER }
    ensures { IsCheckOf F.nought F.plus F.times F.power front.now check.new }
{
    clear(check);
    if front.is_empty() || check.is_empty() {
        return;
    }
    write_check(front, check);
}

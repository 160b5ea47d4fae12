//! The values of the errors, once their places are known.

ghost use Rattle.std.specs.Prelude.{◌≡◌, ◌≢◌, ◌≤◌, ◌<◌, ◌+◌, ◌-◌, ℕ, List, length, drop, All, slice_index_or};
ghost use Rattle.galois.specs.CheckWord.{word_sum};
ghost use Rattle.rs_decode.specs.Values.{lowered, power_sums, IsErrorAt};
ghost use Rattle.galois.specs.Locator.{IsFalling};

use crate::lists::sum;
use crate::powers::{power_at, quotient, times_power_at};
use galois::{Field, Tables};

/// Takes one place out of the power sums: each becomes itself less the one before it times the place.
pub fn lower<F: Field>(tables: &Tables<F>, sums: &mut [F], first: F, place: u32)
    ensures { sums.new ≡ lowered F.plus F.times (F.power place) first sums.old }
{
    let mut before = first;
    for i in 0..sums.len() {
        let here = sums[i];
        sums[i] = here.add(times_power_at(tables, before, place));
        before = here;
    }
}

// Divides each value by its place less another one.
fn divide<F: Field>(tables: &Tables<F>, values: &mut [F], places: &[u32], place: u32)
    requires { length places.now ≡ length values.old }
    ensures { (k : ℕ) → (other : F) → k < length values.old →
        F.plus (F.power (slice_index_or places.now k 0)) (F.power place) ≢ F.nought →
        F.times (slice_index_or values.new k other) (F.plus (F.power (slice_index_or places.now k 0)) (F.power place)) ≡
        slice_index_or values.old k other }
{
    let root = power_at(tables, place);
    for i in 0..values.len() {
        values[i] = quotient(tables, values[i], power_at(tables, places[i]).add(root));
    }
}

/// Turns the power sums of values at places into the values.
pub fn solve<F: Field>(tables: &Tables<F>, sums: &mut [F], places: &[u32])
    requires { length places.now ≡ length sums.old }
    ensures { (bound : ℕ) → (values : List F) →
        IsFalling bound places.now → bound ≤ F.ORDER → length values ≡ length places.now →
        sums.old ≡ power_sums F.nought F.plus F.times F.power places.now values 0 (length places.now) →
        sums.new ≡ values }
{
    if places.is_empty() {
        return;
    }
    let place = places[0];
    let first = sums[0];
    lower(tables, &mut sums[1..], first, place);
    solve(tables, &mut sums[1..], &places[1..]);
    divide(tables, &mut sums[1..], &places[1..], place);
    sums[0] = first.add(sum(&sums[1..]));
}

/// Adds the error with the values at the places to the word.
pub fn mend<F: Field>(tables: &Tables<F>, word: &mut [F], places: &[u32], values: &[F])
    requires { length places.now ≡ length values.now }
    ensures { (error : List F) →
        IsErrorAt F.nought F.times F.power places.now values.now error →
        length error ≡ length word.old → word.new ≡ word_sum F.plus word.old error }
{
    if places.is_empty() {
        return;
    }
    let place = places[0];
    if (place as usize) < word.len() {
        let at = word.len() - 1 - place as usize;
        word[at] = word[at].add(tables.over(values[0], power_at(tables, place)));
        mend(tables, &mut word[at + 1..], &places[1..], &values[1..]);
    }
}

//! The lost places, and those at which a locator vanishes.

ghost use Rattle.std.specs.Prelude.{◌≡◌, ◌≢◌, ◌≤◌, ◌<◌, ◌+◌, ◌-◌, ◌∷◌, ℕ, length, drop, if◌then◌else◌};
ghost use Rattle.galois.specs.Coefficients.{total};
ghost use Rattle.galois.specs.Locator.{beside_lost, locator_value};
ghost use Rattle.rs_decode.specs.Search.{next_terms, AreSearched};

use crate::lists::sum;
use crate::lost::is_lost;
use galois::{Field, Tables};

// Steps each term to the next place.
fn advance<F: Field>(tables: &Tables<F>, terms: &mut [F])
    requires { length terms.old ≤ F.ORDER + 1 }
    ensures { terms.new ≡ next_terms F.times F.power terms.old }
{
    let count = terms.len();
    for i in 0..count {
        terms[i] = tables.times_power(terms[i], count - 1 - i);
    }
}

// Writes the place before the others if the value there is zero, and answers how many there are.
fn note<F: Field>(places: &mut [u32], count: usize, place: usize, value: F) -> usize
    requires room { count < length places.old }
    requires small { place < 4096 }
    ensures most { result ≤ count + 1 }
    ensures root { value ≡ F.nought →
        drop (length places.old - result) places.new ≡ place ∷ drop (length places.old - count) places.old }
    ensures other { value ≢ F.nought →
        drop (length places.old - result) places.new ≡ drop (length places.old - count) places.old }
{
    if value == F::zero() {
        let at = places.len() - 1 - count;
        places[at] = place as u32;
        return count + 1;
    }
    count
}

// What the search looks at: zero at a lost place, else the sum of the terms.
fn value_of<F: Field>(terms: &[F], gone: bool) -> F
    ensures { result ≡ (if gone then F.nought else total F.nought F.plus terms.now) }
{
    if gone { F::zero() } else { sum(terms) }
}

/// Leaves at the end of `places` the lost ones and those at which the locator vanishes, and answers how many there are.
/// The locator is used up.
pub fn find_places<F: Field>(
    tables: &Tables<F>,
    terms: &mut [F],
    lost: &[bool],
    places: &mut [u32],
) -> usize
    requires terms { length terms.old ≤ F.ORDER + 1 }
    requires places { length places.old ≤ F.ORDER }
    ensures count { result ≤ length places.old }
    ensures places { AreSearched F.nought F.times F.power
        (beside_lost F.nought (length places.old) lost.now (locator_value F.nought F.plus F.times F.power terms.old)) (length places.old)
        (drop (length places.old - result) places.new) }
{
    let mut count = 0;
    let long = places.len();
    for place in 0..long {
        let value = value_of(terms, is_lost(lost, long - 1 - place));
        count = note(places, count, place, value);
        advance(tables, terms);
    }
    count
}

//! The places of the errors: the lost ones, and those at which the error locator vanishes.

ghost use Rattle.std.specs.Prelude.{◌≡◌, ◌≤◌, ◌<◌, ◌+◌, ◌-◌, ◌*◌, ◌/◌, ℕ, length, drop, IfOk};
ghost use Rattle.galois.specs.CheckWord.{lost_count};
ghost use Rattle.rs_decode.specs.Nearness.{HasRoom};
ghost use Rattle.rs_decode.specs.Search.{AreErrorPlaces};

use crate::lists::zeros;
use crate::remainders::find_locator;
use crate::search::find_places;
use bar_base::NoMemory;
use galois::{Field, Tables};
use std::alloc::Global;
use std::marker::Model;

/// The lists of Euclid's algorithm: two remainders and their factors. As a value it is half of the number of syndromes
/// that it serves at most.
#[derive(Drop)]
pub struct Remainders<F: Field> {
    high: Vec<F>,
    high_factor: Vec<F>,
    low: Vec<F>,
    low_factor: Vec<F>,
}

impl<F: Field> Model for Remainders<F> {
    ghost Value = { ℕ };

    ghost view = { λ r. length r.high_factor.items - 2 };

    ghost invariant = { λ r. HasRoom (length r.high_factor.items - 2) (length r.high.items)
        (length r.high_factor.items) (length r.low.items) (length r.low_factor.items) };
}

impl<F: Field> Remainders<F> {
    /// The lists for up to twice `half` syndromes.
    pub fn new(alloc: Global, half: usize) -> Result<Remainders<F>, NoMemory>
        requires { half < 4096 }
        ensures { IfOk result (λ remainders. remainders ≡ half) }
    {
        Ok(Remainders {
            high: zeros(alloc, 2 * half + 1)?,
            high_factor: zeros(alloc, half + 2)?,
            low: zeros(alloc, 2 * half + 1)?,
            low_factor: zeros(alloc, half + 2)?,
        })
    }
}

// The same in lists that may be longer than is needed.
fn find_errors_in<F: Field>(
    tables: &Tables<F>,
    syndromes: &[F],
    high: &mut [F],
    high_factor: &mut [F],
    low: &mut [F],
    low_factor: &mut [F],
    lost: &[bool],
    places: &mut [u32],
) -> usize
    requires few { length syndromes.now ≤ length places.old }
    requires fits { length places.old ≤ F.ORDER }
    requires high { 2 * (length syndromes.now / 2) + 1 ≤ length high.old }
    requires high_factor { length syndromes.now / 2 + 2 ≤ length high_factor.old }
    requires low { 2 * (length syndromes.now / 2) + 1 ≤ length low.old }
    requires low_factor { length syndromes.now / 2 + 2 ≤ length low_factor.old }
    ensures few { result ≤ lost_count lost.now + length syndromes.now / 2 }
    ensures places { AreErrorPlaces F.nought F.plus F.times F.power syndromes.now lost.now (length places.old)
        (drop (length places.old - result) places.new) }
{
    let half = syndromes.len() / 2;
    let width = find_locator(
        tables,
        syndromes,
        &mut high[..2 * half + 1],
        &mut high_factor[..half + 2],
        &mut low[..2 * half + 1],
        &mut low_factor[..half + 2],
        half,
    );
    find_places(tables, &mut low_factor[..width], lost, places)
}

/// Leaves at the end of `places` the lost ones and those at which a word may be wrong, and answers how many there are. The
/// syndromes are those that are left once the lost places are taken out of them.
pub fn find_errors<F: Field>(
    tables: &Tables<F>,
    syndromes: &[F],
    remainders: &mut Remainders<F>,
    lost: &[bool],
    places: &mut [u32],
) -> usize
    requires few { length syndromes.now ≤ length places.old }
    requires fits { length places.old ≤ F.ORDER }
    requires room { length syndromes.now / 2 ≤ remainders.old }
    ensures few { result ≤ lost_count lost.now + length syndromes.now / 2 }
    ensures places { AreErrorPlaces F.nought F.plus F.times F.power syndromes.now lost.now (length places.old)
        (drop (length places.old - result) places.new) }
    ensures room { remainders.new ≡ remainders.old }
{
    find_errors_in(
        tables,
        syndromes,
        &mut remainders.high,
        &mut remainders.high_factor,
        &mut remainders.low,
        &mut remainders.low_factor,
        lost,
        places,
    )
}

//! The error locator, by Euclid's algorithm on a power of x and the syndromes.

ghost use Rattle.std.specs.Prelude.{◌≡◌, ◌≢◌, ◌≤◌, ◌<◌, ◌+◌, ◌-◌, ◌*◌, ◌↔◌, ℕ, true, List, [], ◌∷◌, ◌++◌, length, take, slice_index_or};
ghost use Rattle.rs_decode.specs.Euclid.{IsEuclid, HoldsEuclid};
ghost use Rattle.galois.specs.Locator.{IsLocator};

use crate::lists::{add_behind, clear};
use galois::{Field, Tables};

// How long the two remainders are, how many syndromes there are, and half of that.
#[derive(Clone, Copy)]
pub struct Sizes {
    few: usize,
    half: usize,
    high: usize,
    low: usize,
}

// Takes the multiple of the lower remainder off the higher that makes its last coefficient zero.
fn reduce<F: Field>(
    tables: &Tables<F>,
    high: &mut [F],
    high_factor: &mut [F],
    low: &[F],
    low_factor: &[F],
)
    requires some { 0 < length low.now }
    requires lower { length low.now ≤ length high.old }
    requires wide { length low_factor.now + length high.old ≡ length high_factor.old + length low.now }
    requires leads { (other : F) → slice_index_or low.now (length low.now - 1) other ≢ F.nought }
    ensures { (series : ℕ → F) → (few : ℕ) →
        IsEuclid F.nought F.unit F.plus F.times series few high.old high_factor.old low.now low_factor.now →
        IsEuclid F.nought F.unit F.plus F.times series few
        (take (length high.old - 1) high.new) high_factor.new low.now (low_factor.now ++ F.nought ∷ []) }
{
    let factor = tables.over(high[high.len() - 1], low[low.len() - 1]);
    add_behind(tables, high, low, factor);
    add_behind(tables, high_factor, low_factor, factor);
}

// One step: the lower remainder is cut by a last coefficient that is zero, or else the higher is reduced by it.
fn step<F: Field>(
    tables: &Tables<F>,
    high: &mut [F],
    high_factor: &mut [F],
    low: &mut [F],
    low_factor: &mut [F],
    sizes: Sizes,
) -> Sizes
    requires few { sizes.few ≡ 2 * sizes.half }
    requires small { sizes.half < 4096 }
    requires above { sizes.half < sizes.low }
    requires lower { sizes.low ≤ sizes.high }
    requires most { sizes.high ≤ sizes.few + 1 }
    requires high { sizes.high ≤ length high.old }
    requires low { sizes.low ≤ length low.old }
    requires high_factor { length high_factor.old ≡ sizes.half + 2 }
    requires low_factor { length low_factor.old ≡ sizes.half + 2 }
    ensures kept { (series : ℕ → F) →
        HoldsEuclid F.nought F.unit F.plus F.times series sizes.few
        high.old high_factor.old low.old low_factor.old sizes.high sizes.low →
        HoldsEuclid F.nought F.unit F.plus F.times series sizes.few
        high.new high_factor.new low.new low_factor.new result.high result.low }
    ensures few { result.few ≡ sizes.few }
    ensures half { result.half ≡ sizes.half }
    ensures high { result.high ≤ sizes.high }
    ensures low { result.low ≤ sizes.low }
    ensures one_less { result.high + result.low + 1 ≡ sizes.high + sizes.low }
{
    let high_width = sizes.few + 2 - sizes.low;
    let low_width = sizes.few + 2 - sizes.high;
    if low[sizes.low - 1] == F::zero() {
        high_factor[high_width] = F::zero();
        return Sizes {
            few: sizes.few,
            half: sizes.half,
            high: sizes.high,
            low: sizes.low - 1,
        };
    }
    reduce(
        tables,
        &mut high[..sizes.high],
        &mut high_factor[..high_width],
        &low[..sizes.low],
        &low_factor[..low_width],
    );
    low_factor[low_width] = F::zero();
    Sizes {
        few: sizes.few,
        half: sizes.half,
        high: sizes.high - 1,
        low: sizes.low,
    }
}

// One step with the longer remainder as the higher.
fn turn<F: Field>(
    tables: &Tables<F>,
    high: &mut [F],
    high_factor: &mut [F],
    low: &mut [F],
    low_factor: &mut [F],
    sizes: Sizes,
) -> Sizes
    requires few { sizes.few ≡ 2 * sizes.half }
    requires small { sizes.half < 4096 }
    requires above_high { sizes.half < sizes.high }
    requires above_low { sizes.half < sizes.low }
    requires most_high { sizes.high ≤ sizes.few + 1 }
    requires most_low { sizes.low ≤ sizes.few + 1 }
    requires high { length high.old ≡ sizes.few + 1 }
    requires low { length low.old ≡ sizes.few + 1 }
    requires high_factor { length high_factor.old ≡ sizes.half + 2 }
    requires low_factor { length low_factor.old ≡ sizes.half + 2 }
    ensures kept { (series : ℕ → F) →
        HoldsEuclid F.nought F.unit F.plus F.times series sizes.few
        high.old high_factor.old low.old low_factor.old sizes.high sizes.low →
        HoldsEuclid F.nought F.unit F.plus F.times series sizes.few
        high.new high_factor.new low.new low_factor.new result.high result.low }
    ensures few { result.few ≡ sizes.few }
    ensures half { result.half ≡ sizes.half }
    ensures high { result.high ≤ sizes.high }
    ensures low { result.low ≤ sizes.low }
    ensures one_less { result.high + result.low + 1 ≡ sizes.high + sizes.low }
{
    if sizes.high >= sizes.low {
        return step(tables, high, high_factor, low, low_factor, sizes);
    }
    let turned = Sizes {
        few: sizes.few,
        half: sizes.half,
        high: sizes.low,
        low: sizes.high,
    };
    let next = step(tables, low, low_factor, high, high_factor, turned);
    Sizes {
        few: next.few,
        half: next.half,
        high: next.low,
        low: next.high,
    }
}

// The remainders and factors to begin with: a power of x, and the syndromes.
fn begin<F: Field>(
    syndromes: &[F],
    high: &mut [F],
    high_factor: &mut [F],
    low: &mut [F],
    low_factor: &mut [F],
    few: usize,
)
    requires syndromes { few ≤ length syndromes.now }
    requires high { length high.old ≡ few + 1 }
    requires low { length low.old ≡ few + 1 }
    requires high_factor { 2 ≤ length high_factor.old }
    requires low_factor { 2 ≤ length low_factor.old }
    ensures { HoldsEuclid F.nought F.unit F.plus F.times (λ t. slice_index_or syndromes.now t F.nought) few
        high.new high_factor.new low.new low_factor.new (few + 1) few }
{
    clear(high);
    high[few] = F::one();
    low[..few].copy_from_slice(&syndromes[..few]);
    clear(high_factor);
    low_factor[0] = F::one();
}

// Whether both remainders are longer than half of the syndromes.
fn goes_on(sizes: Sizes) -> bool
    ensures { (result ≡ true) ↔ ((sizes.half < sizes.high) × (sizes.half < sizes.low)) }
{
    if sizes.high <= sizes.half {
        return false;
    }
    sizes.half < sizes.low
}

// Puts the factor of the short remainder into the place of the lower one, and answers its width.
fn pick<F: Field>(high_factor: &[F], low_factor: &mut [F], sizes: Sizes) -> usize
    requires few { sizes.few ≡ 2 * sizes.half }
    requires small { sizes.half < 4096 }
    requires short { (sizes.half < sizes.low) → (sizes.high ≤ sizes.half) }
    requires long { 2 * sizes.half < sizes.high + sizes.low }
    requires most_high { sizes.high ≤ sizes.few + 1 }
    requires most_low { sizes.low ≤ sizes.few + 1 }
    requires high_least { sizes.half ≤ sizes.high }
    requires low_least { sizes.half ≤ sizes.low }
    requires high_factor { length high_factor.now ≡ sizes.half + 2 }
    requires low_factor { length low_factor.old ≡ sizes.half + 2 }
    ensures locator { (series : ℕ → F) → (high low : List F) →
        HoldsEuclid F.nought F.unit F.plus F.times series sizes.few
        high high_factor.now low low_factor.old sizes.high sizes.low →
        IsLocator F.nought F.plus F.times series sizes.half (take result low_factor.new) }
    ensures width { result ≤ sizes.half + 1 }
{
    if sizes.low <= sizes.half {
        return sizes.few + 2 - sizes.high;
    }
    low_factor.copy_from_slice(high_factor);
    sizes.few + 2 - sizes.low
}

/// Leaves an error locator at the head of `low_factor`, and answers its width.
pub fn find_locator<F: Field>(
    tables: &Tables<F>,
    syndromes: &[F],
    high: &mut [F],
    high_factor: &mut [F],
    low: &mut [F],
    low_factor: &mut [F],
    half: usize,
) -> usize
    requires syndromes { 2 * half ≤ length syndromes.now }
    requires small { half < 4096 }
    requires high { length high.old ≡ 2 * half + 1 }
    requires low { length low.old ≡ 2 * half + 1 }
    requires high_factor { length high_factor.old ≡ half + 2 }
    requires low_factor { length low_factor.old ≡ half + 2 }
    ensures locator { IsLocator F.nought F.plus F.times (λ t. slice_index_or syndromes.now t F.nought) half
        (take result low_factor.new) }
    ensures width { result ≤ half + 1 }
{
    begin(syndromes, high, high_factor, low, low_factor, 2 * half);
    let mut sizes = Sizes {
        few: 2 * half,
        half,
        high: 2 * half + 1,
        low: 2 * half,
    };
    while goes_on(sizes) {
        sizes = turn(tables, high, high_factor, low, low_factor, sizes);
    }
    pick(high_factor, low_factor, sizes)
}

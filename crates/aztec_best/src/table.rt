ghost use Rattle.std.specs.Prelude.{◌≡◌};
ghost use Rattle.aztec_modes.specs.declared.mode.Mode.{Mode as ModeValue};
ghost use Rattle.aztec_best.specs.Bench.{mode_cost, kept_cost, kept_bytes};

use crate::costs::Costs;
use crate::fill::NO_COSTS;
use aztec_modes::Mode;

/// The cost kept for a mode.
#[tactic(auto, unfolding(crate::specs::Bench::mode_cost))]
#[inline(always)]
fn cost_in(costs: &Costs, mode: Mode) -> u32
    ensures { result ≡ mode_cost costs.now mode }
{
    match mode {
        Mode::Upper => costs.upper,
        Mode::Lower => costs.lower,
        Mode::Mixed => costs.mixed,
        Mode::Punct => costs.punct,
        Mode::Digit => costs.digit,
    }
}

/// The cost kept for a place and a mode, 0 past the last place.
#[tactic(auto, unfolding(crate::specs::Bench::kept_cost))]
#[inline(always)]
pub(crate) fn kept(costs: &[Costs], place: usize, mode: Mode) -> u32
    ensures { result ≡ kept_cost costs.now place mode }
{
    match costs.get(place) {
        Some(costs) => cost_in(costs, mode),
        None => cost_in(&NO_COSTS, mode),
    }
}

/// What is kept for a place, nothing past the last place.
#[tactic(auto, unfolding(crate::specs::Bench::kept_cost))]
#[inline(always)]
pub(crate) fn row_kept(costs: &[Costs], place: usize) -> Costs
    ensures { (mode : ModeValue) → mode_cost result mode ≡ kept_cost costs.now place mode }
{
    match costs.get(place) {
        Some(costs) => *costs,
        None => NO_COSTS,
    }
}

/// The number of bytes kept for a place, 0 past the last place.
#[tactic(auto, unfolding(crate::specs::Bench::kept_bytes))]
pub(crate) fn bytes_kept(costs: &[Costs], place: usize) -> u32
    ensures { result ≡ kept_bytes costs.now place }
{
    match costs.get(place) {
        Some(costs) => costs.bytes,
        None => 0,
    }
}

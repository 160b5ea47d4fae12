ghost use Rattle.std.specs.Prelude.{◌≡◌, ◌<◌, ◌≤◌, ◌+◌, ◌*◌, length, min};
ghost use Rattle.aztec_modes.specs.declared.mode.Mode.{Mode as ModeValue};
ghost use Rattle.aztec_modes.specs.declared.mode.Mode.TheVariants.{Upper, Lower, Mixed};
ghost use Rattle.aztec_best.specs.Bench.{kept_cost};
ghost use Rattle.aztec_best.specs.Lows.{key};

use crate::costs::Costs;

/// More than any cost: what stands for one where there is none.
pub(crate) const NO_COST: u32 = 1_073_741_824;

/// A number for each mode that has binary runs.
#[derive(Clone, Copy)]
pub(crate) struct Lows {
    pub(crate) upper: u32,
    pub(crate) lower: u32,
    pub(crate) mixed: u32,
}

/// No number for any mode.
pub(crate) const NO_LOWS: Lows = Lows {
    upper: NO_COST,
    lower: NO_COST,
    mixed: NO_COST,
};

/// The costs of a place, and 8 bits more for each element before it.
#[tactic(auto, unfolding(crate::specs::Lows::key, crate::specs::Bench::kept_cost, crate::specs::Bench::mode_cost))]
pub(crate) fn keys_at(costs: &[Costs], place: usize) -> Lows
    requires within { place < length costs.now }
    requires few { place ≤ 8192 }
    requires small { (mode : ModeValue) → kept_cost costs.now place mode ≤ 303113 }
    ensures upper { result.upper ≡ key costs.now Upper place }
    ensures lower { result.lower ≡ key costs.now Lower place }
    ensures mixed { result.mixed ≡ key costs.now Mixed place }
{
    let here = &costs[place];
    let passed = 8 * place as u32;
    Lows {
        upper: here.upper + passed,
        lower: here.lower + passed,
        mixed: here.mixed + passed,
    }
}

/// The lesser number for each mode.
pub(crate) fn lower_of(former: Lows, latter: Lows) -> Lows
    ensures upper { result.upper ≡ min former.upper latter.upper }
    ensures lower { result.lower ≡ min former.lower latter.lower }
    ensures mixed { result.mixed ≡ min former.mixed latter.mixed }
{
    Lows {
        upper: former.upper.min(latter.upper),
        lower: former.lower.min(latter.lower),
        mixed: former.mixed.min(latter.mixed),
    }
}

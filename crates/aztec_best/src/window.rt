ghost use Rattle.std.specs.Prelude.{◌≡◌, ◌<◌, ◌≤◌, ◌+◌, false, length, ℕ, List};
ghost use Rattle.aztec_best.specs.declared.costs.Costs.{Costs as CostsValue};
ghost use Rattle.aztec_best.specs.Lows.{HasKeys, AreLows, ArePrefixes, IsWindow, lows_at};

use crate::costs::Costs;
use crate::lows::{Lows, NO_LOWS, keys_at, lower_of};

/// A sliding minimum over the keys of places. A list keeps for each place from `split` on the least from `split` up to it; `recent` is
/// the least of those before.
#[derive(Clone, Copy)]
pub(crate) struct Window {
    pub(crate) split: usize,
    pub(crate) recent: Lows,
}

/// A window without places.
pub(crate) const NO_WINDOW: Window = Window {
    split: 0,
    recent: NO_LOWS,
};

/// Writes for each place the least key from `low` up to it.
fn refill(costs: &[Costs], stored: &mut [Lows], low: usize, top: usize)
    requires keys { HasKeys costs.now low top }
    requires room { top < low + length stored.old }
    ensures { ArePrefixes costs.now stored.new low top }
{
    let mut running = NO_LOWS;
    for place in low..top + 1 {
        running = lower_of(running, keys_at(costs, place));
        stored[place - low] = running;
    }
}

/// Whether a window of the places up to `top` begins anew: with its first place, or where all that is kept in the list is past.
fn begins_anew(first: bool, top: usize, split: usize) -> bool
    ensures goes_on { result ≡ false → first ≡ false }
    ensures kept { result ≡ false → split ≤ top }
{
    first || top < split
}

/// Slides a window to the places from `low` to `top`, `low` among them for the first time, and gives their least keys.
pub(crate) fn slide(
    window: &mut Window,
    costs: &[Costs],
    stored: &mut [Lows],
    low: usize,
    top: usize,
    first: bool,
) -> Lows
    requires keys { HasKeys costs.now low top }
    requires room { top < low + length stored.old }
    requires goes_on { first ≡ false → IsWindow costs.now stored.old (low + 1) top window.old }
    ensures window { IsWindow costs.now stored.new low top window.new }
    ensures lows { AreLows costs.now low (top + 1) result }
{
    if begins_anew(first, top, window.split) {
        refill(costs, stored, low, top);
        window.split = low;
        window.recent = NO_LOWS;
        return stored[top - low];
    }
    window.recent = lower_of(window.recent, keys_at(costs, low));
    lower_of(window.recent, stored[top - window.split])
}

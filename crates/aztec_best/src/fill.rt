ghost use Rattle.std.specs.Prelude.{◌≡◌, ◌<◌, ◌≤◌, length, min};
ghost use Rattle.aztec_modes.specs.declared.mode.Mode.TheVariants.{Upper};
ghost use Rattle.aztec_best.specs.Shortest.{IsLeast};
ghost use Rattle.aztec_best.specs.Bench.{IsFilledFrom};
ghost use Rattle.aztec_best.specs.declared.limit.TheConstants.{MOST_ELEMENTS};

use crate::costs::Costs;
use crate::front::{bytes_from, front_at};
use crate::lows::Lows;
use crate::runs::runs_at;
use crate::settle::costs_at;
use crate::table::kept;
use crate::window::NO_WINDOW;
use aztec_modes::Mode;
use bar_base::Elements;

/// The costs where no element is left.
pub(crate) const NO_COSTS: Costs = Costs {
    upper: 0,
    lower: 0,
    mixed: 0,
    punct: 0,
    digit: 0,
    bytes: 0,
};

/// Fills the table with what is kept for each place, from the last to the first.
fn fill_places(costs: &mut [Costs], shorts: &mut [Lows], longs: &mut [Lows], elements: &Elements)
    requires room { length elements.now < length costs.old }
    requires short_room { length shorts.old ≡ 31 }
    requires long_room { min (length elements.now) 2048 ≤ length longs.old }
    requires fits { length elements.now ≤ MOST_ELEMENTS }
    ensures { IsFilledFrom costs.new elements.now 0 }
{
    let mut place = elements.len();
    let mut bytes = 0;
    let mut short = NO_WINDOW;
    let mut long = NO_WINDOW;
    costs[place] = NO_COSTS;
    while place > 0 {
        place -= 1;
        bytes = bytes_from(elements, place, bytes);
        let front = front_at(elements, place, bytes);
        let runs = runs_at(
            &mut short,
            &mut long,
            costs,
            shorts,
            longs,
            place as u32,
            bytes,
        );
        costs[place] = costs_at(costs, elements, place, &front, runs, bytes);
    }
}

/// Fills the table, and gives the fewest bits of any spelling of the elements from Upper mode on.
pub(crate) fn fill(
    costs: &mut [Costs],
    shorts: &mut [Lows],
    longs: &mut [Lows],
    elements: &Elements,
) -> u64
    requires room { length elements.now < length costs.old }
    requires short_room { length shorts.old ≡ 31 }
    requires long_room { min (length elements.now) 2048 ≤ length longs.old }
    requires fits { length elements.now ≤ MOST_ELEMENTS }
    ensures filled { IsFilledFrom costs.new elements.now 0 }
    ensures fewest { IsLeast Upper elements.now result }
{
    fill_places(costs, shorts, longs, elements);
    u64::from(kept(costs, 0, Mode::Upper))
}

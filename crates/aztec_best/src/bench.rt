ghost use Rattle.std.specs.Prelude.{◌≡◌, ◌<◌, ◌≤◌, ◌+◌, List, drop, length, IfOk, Ok, vec_capacity};
ghost use Rattle.aztec_modes.specs.declared.mode.Mode.TheVariants.{Upper};
ghost use Rattle.aztec_best.specs.declared.costs.Costs.{Costs as CostsValue};
ghost use Rattle.aztec_best.specs.Bench.{IsFilled, padded};
ghost use Rattle.aztec_best.specs.Shortest.{IsLeast, BeginsFirst};
ghost use Rattle.aztec_best.specs.declared.limit.TheConstants.{MOST_ELEMENTS};

use crate::costs::Costs;
use crate::fill::{NO_COSTS, fill};
use crate::limit::MOST_ELEMENTS;
use crate::lows::{Lows, NO_LOWS};
use crate::pick::next_code;
use crate::stand::Stand;
use aztec_modes::Code;
use bar_base::{Elements, NoMemory};
use std::alloc::{AllocError, Global};
use std::marker::Model;

/// The places of a bench: before each element, and after the last.
const PLACES: usize = MOST_ELEMENTS + 1;

/// The numbers of bytes of a run in the short form, and in the long one.
const SHORT_RUNS: usize = 31;

const LONG_RUNS: usize = 2048;

/// The tables of the search for the shortest spelling of up to 8,192 elements.
#[derive(Drop)]
pub struct Bench {
    costs: Vec<Costs>,
    shorts: Vec<Lows>,
    longs: Vec<Lows>,
}

impl Model for Bench {
    ghost Value = { List CostsValue };

    ghost view = { λ b. padded b.costs.items };

    ghost invariant = { λ b. record {
      costs : length b.costs.items ≤ MOST_ELEMENTS + 1;
      reserved : MOST_ELEMENTS + 1 ≤ vec_capacity b.costs;
      shorts : length b.shorts.items ≡ 31;
      longs : length b.longs.items ≤ 2048;
      longs_reserved : 2048 ≤ vec_capacity b.longs;
    } };
}

impl Bench {
    /// Reserves the tables for 8,192 elements at once, about 330 kB. Afterwards `shortest` and `path_next` take no memory. The only
    /// refusal is want of memory.
    pub fn new(alloc: Global) -> Result<Bench, NoMemory>
        ensures reserved { IfOk result (λ bench. length bench ≡ MOST_ELEMENTS + 1) }
    {
        let costs = listed(Vec::with_capacity(alloc, PLACES))?;
        let shorts = listed(vec![in alloc; NO_LOWS; SHORT_RUNS])?;
        let longs = listed(Vec::with_capacity(alloc, LONG_RUNS))?;
        Ok(Bench {
            costs,
            shorts,
            longs,
        })
    }
}

/// The list, or that there was no memory for it.
fn listed<T>(made: Result<Vec<T>, AllocError>) -> Result<Vec<T>, NoMemory>
    ensures { IfOk result (λ list. made ≡ Ok list) }
{
    match made {
        Ok(list) => Ok(list),
        Err(_) => Err(NoMemory),
    }
}

/// Makes so many rows, for which there is room.
fn make_rows(costs: &mut Vec<Costs>, count: usize)
    requires few { count ≤ MOST_ELEMENTS + 1 }
    requires shorter { length costs.old.items ≤ MOST_ELEMENTS + 1 }
    requires reserved { MOST_ELEMENTS + 1 ≤ vec_capacity costs.old }
    ensures made { count ≤ length costs.new.items }
    ensures shorter { length costs.new.items ≤ MOST_ELEMENTS + 1 }
    ensures reserved { MOST_ELEMENTS + 1 ≤ vec_capacity costs.new }
{
    while costs.len() < count {
        match costs.push(NO_COSTS) {
            Ok(()) => {}
            Err(_) => unreachable!(),
        }
    }
}

/// Makes so many rows of least numbers, for which there is room. A short message touches no more of the list than it needs.
fn make_lows(longs: &mut Vec<Lows>, count: usize)
    requires few { count ≤ 2048 }
    requires shorter { length longs.old.items ≤ 2048 }
    requires reserved { 2048 ≤ vec_capacity longs.old }
    ensures made { count ≤ length longs.new.items }
    ensures shorter { length longs.new.items ≤ 2048 }
    ensures reserved { 2048 ≤ vec_capacity longs.new }
{
    while longs.len() < count {
        match longs.push(NO_LOWS) {
            Ok(()) => {}
            Err(_) => unreachable!(),
        }
    }
}

/// The fewest bits of any spelling of the elements from Upper mode on, over all codes, latches and binary runs. Afterwards the bench is
/// filled for these elements. It takes no memory.
pub fn shortest(bench: &mut Bench, elements: &Elements) -> u64
    requires { length elements.now ≤ MOST_ELEMENTS }
    ensures fewest { IsLeast Upper elements.now result }
    ensures filled { IsFilled bench.new elements.now }
{
    make_rows(&mut bench.costs, elements.len() + 1);
    make_lows(&mut bench.longs, elements.len().min(LONG_RUNS));
    fill(
        &mut bench.costs,
        &mut bench.shorts,
        &mut bench.longs,
        elements,
    )
}

/// The rows of the bench that are in use.
pub(crate) fn rows(bench: &Bench) -> &[Costs]
    ensures { padded result.now ≡ bench.now }
{
    &bench.costs
}

/// The first code of the first spelling of the rest: of all spellings of the elements from the place on, from the mode on, it begins the
/// one with fewest bits whose bits come first in dictionary order. The bench is filled for the elements, and the place is below their
/// number. It takes no memory.
pub fn path_next(bench: &Bench, elements: &Elements, at: Stand) -> Code
    requires filled { IsFilled bench.now elements.now }
    requires within { at.place < length elements.now }
    ensures first { BeginsFirst at.mode (drop at.place elements.now) result }
{
    prove!((at.place as usize) < elements.len());
    next_code(rows(bench), elements, at)
}

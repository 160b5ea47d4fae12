ghost use Rattle.std.specs.Prelude.{◌≡◌, ◌<◌, ◌≤◌, ◌+◌, IsTrue, drop, length, min};
ghost use Rattle.aztec_modes.specs.declared.mode.Mode.{Mode as ModeValue};
ghost use Rattle.aztec_best.specs.Latches.{latch_bits};
ghost use Rattle.aztec_best.specs.Bench.{kept_cost, mode_cost};
ghost use Rattle.aztec_best.specs.Numbers.{has_pair, punct_length, single_length};
ghost use Rattle.aztec_best.specs.Ready.{IsReady};
ghost use Rattle.aztec_best.specs.Runs.{AreRunStarts};
ghost use Rattle.aztec_best.specs.Start.{data_start, start_in, settled, start_of};
ghost use Rattle.aztec_best.specs.Front.{bytes_ahead};
ghost use Rattle.aztec_best.specs.Shortest.{IsLeast};

use crate::costs::Costs;
use crate::front::Front;
use crate::lengths::{pair_lengths, single_lengths};
use crate::lows::Lows;
use crate::numbers::has_pair;
use crate::starts::Starts;
use crate::table::row_kept;
use aztec_modes::Mode;
use bar_base::Elements;

/// The fewest bits of latches from a mode to another.
#[tactic(auto, unfolding(crate::specs::Latches::latch_bits))]
#[inline(always)]
fn bits_of_latches(mode: Mode, to: Mode) -> u32
    ensures value { result ≡ latch_bits mode to }
    ensures small { result < 15 }
{
    match (mode, to) {
        (Mode::Upper, Mode::Upper) => 0,
        (Mode::Upper, Mode::Lower) => 5,
        (Mode::Upper, Mode::Mixed) => 5,
        (Mode::Upper, Mode::Punct) => 10,
        (Mode::Upper, Mode::Digit) => 5,
        (Mode::Lower, Mode::Upper) => 9,
        (Mode::Lower, Mode::Lower) => 0,
        (Mode::Lower, Mode::Mixed) => 5,
        (Mode::Lower, Mode::Punct) => 10,
        (Mode::Lower, Mode::Digit) => 5,
        (Mode::Mixed, Mode::Upper) => 5,
        (Mode::Mixed, Mode::Lower) => 5,
        (Mode::Mixed, Mode::Mixed) => 0,
        (Mode::Mixed, Mode::Punct) => 5,
        (Mode::Mixed, Mode::Digit) => 10,
        (Mode::Punct, Mode::Upper) => 5,
        (Mode::Punct, Mode::Lower) => 10,
        (Mode::Punct, Mode::Mixed) => 10,
        (Mode::Punct, Mode::Punct) => 0,
        (Mode::Punct, Mode::Digit) => 10,
        (Mode::Digit, Mode::Upper) => 4,
        (Mode::Digit, Mode::Lower) => 9,
        (Mode::Digit, Mode::Mixed) => 9,
        (Mode::Digit, Mode::Punct) => 14,
        (Mode::Digit, Mode::Digit) => 0,
    }
}

/// The fewest bits from a mode on, by latches to a mode and what begins there.
#[tactic(auto, unfolding(crate::specs::Start::settled, crate::specs::Start::start_of))]
#[inline(always)]
fn settled_bits(mode: Mode, starts: &Starts) -> u32
    requires { (to : ModeValue) → start_of starts.now to ≤ 2000000000 }
    ensures { result ≡ settled mode (start_of starts.now) }
{
    let upper = bits_of_latches(mode, Mode::Upper) + starts.upper;
    let lower = bits_of_latches(mode, Mode::Lower) + starts.lower;
    let mixed = bits_of_latches(mode, Mode::Mixed) + starts.mixed;
    let punct = bits_of_latches(mode, Mode::Punct) + starts.punct;
    let digit = bits_of_latches(mode, Mode::Digit) + starts.digit;
    upper.min(lower.min(mixed.min(punct.min(digit))))
}

/// The lesser bits in each mode.
#[tactic(auto, unfolding(crate::specs::Start::start_of))]
#[inline(always)]
fn lesser(former: Starts, latter: Starts) -> Starts
    ensures { (mode : ModeValue) → start_of result mode ≡ min (start_of former mode) (start_of latter mode) }
{
    Starts {
        upper: former.upper.min(latter.upper),
        lower: former.lower.min(latter.lower),
        mixed: former.mixed.min(latter.mixed),
        punct: former.punct.min(latter.punct),
        digit: former.digit.min(latter.digit),
    }
}

/// The bits of codes and of the cheapest rest after them, in each mode.
#[tactic(auto, unfolding(crate::specs::Start::start_of, crate::specs::Bench::mode_cost))]
#[inline(always)]
fn before_rest(lengths: Starts, rest: Costs) -> Starts
    requires few { (mode : ModeValue) → start_of lengths mode ≤ 1073741824 }
    requires small { (mode : ModeValue) → mode_cost rest mode ≤ 303113 }
    ensures value { (mode : ModeValue) → start_of result mode ≡ start_of lengths mode + mode_cost rest mode }
    ensures small { (mode : ModeValue) → start_of result mode ≤ 1100000000 }
{
    Starts {
        upper: lengths.upper + rest.upper,
        lower: lengths.lower + rest.lower,
        mixed: lengths.mixed + rest.mixed,
        punct: lengths.punct + rest.punct,
        digit: lengths.digit + rest.digit,
    }
}

/// The fewest bits in each mode that begin with a code, other than a run, which spells one element.
#[inline(always)]
fn single_starts(costs: &[Costs], elements: &Elements, place: usize, front: &Front) -> Starts
    requires { IsReady costs.now elements.now place front.now }
    ensures value { (mode : ModeValue) → start_of result mode
        ≡ single_length mode front.now.first + kept_cost costs.now (place + 1) mode }
    ensures small { (mode : ModeValue) → start_of result mode ≤ 1100000000 }
{
    before_rest(single_lengths(front.first), row_kept(costs, place + 1))
}

/// The fewest bits in each mode that begin with a code which spells two bytes.
#[inline(always)]
fn pair_starts(costs: &[Costs], elements: &Elements, place: usize, front: &Front) -> Starts
    requires ready { IsReady costs.now elements.now place front.now }
    requires pair { IsTrue (has_pair front.now.first front.now.second) }
    ensures { (mode : ModeValue) → start_of result mode ≡ punct_length mode + kept_cost costs.now (place + 2) mode }
{
    before_rest(pair_lengths(), row_kept(costs, place + 2))
}

/// The fewest bits in each mode that begin with a code, other than a run, which spells something.
#[tactic(auto, unfolding(crate::specs::Start::data_start))]
#[inline(always)]
fn data_starts(costs: &[Costs], elements: &Elements, place: usize, front: &Front) -> Starts
    requires { IsReady costs.now elements.now place front.now }
    ensures value { (mode : ModeValue) → start_of result mode ≡ data_start costs.now place mode front.now }
    ensures small { (mode : ModeValue) → start_of result mode ≤ 1100000000 }
{
    let singles = single_starts(costs, elements, place, front);
    if has_pair(front.first, front.second) {
        lesser(singles, pair_starts(costs, elements, place, front))
    } else {
        singles
    }
}

/// What begins in each mode with a code that spells something.
#[tactic(auto, unfolding(crate::specs::Start::start_of, crate::specs::Start::start_in))]
fn starts_at(
    costs: &[Costs],
    elements: &Elements,
    place: usize,
    front: &Front,
    runs: Lows,
) -> Starts
    requires { IsReady costs.now elements.now place front.now }
    ensures value { (mode : ModeValue) → start_of result mode ≡ start_in costs.now place mode front.now runs }
    ensures small { (mode : ModeValue) → start_of result mode ≤ 1100000000 }
{
    let data = data_starts(costs, elements, place, front);
    Starts {
        upper: data.upper.min(runs.upper),
        lower: data.lower.min(runs.lower),
        mixed: data.mixed.min(runs.mixed),
        punct: data.punct,
        digit: data.digit,
    }
}

/// The fewest bits from a mode on.
#[inline(always)]
fn least_from(
    costs: &[Costs],
    elements: &Elements,
    place: usize,
    front: &Front,
    runs: Lows,
    starts: &Starts,
    mode: Mode,
) -> u32
    requires ready { IsReady costs.now elements.now place front.now }
    requires runs { AreRunStarts costs.now place (bytes_ahead (drop place elements.now)) runs }
    requires starts { (from : ModeValue) → start_of starts.now from ≡ start_in costs.now place from front.now runs }
    requires small { (from : ModeValue) → start_of starts.now from ≤ 1100000000 }
    ensures { IsLeast mode (drop place elements.now) result }
{
    settled_bits(mode, starts)
}

/// What is kept for a place: the fewest bits from each mode on, and the number of bytes.
#[tactic(auto, unfolding(crate::specs::Bench::mode_cost))]
pub(crate) fn costs_at(
    costs: &[Costs],
    elements: &Elements,
    place: usize,
    front: &Front,
    runs: Lows,
    bytes: u32,
) -> Costs
    requires ready { IsReady costs.now elements.now place front.now }
    requires runs { AreRunStarts costs.now place (bytes_ahead (drop place elements.now)) runs }
    ensures least { (mode : ModeValue) → IsLeast mode (drop place elements.now) (mode_cost result mode) }
    ensures bytes { result.bytes ≡ bytes }
{
    let starts = starts_at(costs, elements, place, front, runs);
    Costs {
        upper: least_from(costs, elements, place, front, runs, &starts, Mode::Upper),
        lower: least_from(costs, elements, place, front, runs, &starts, Mode::Lower),
        mixed: least_from(costs, elements, place, front, runs, &starts, Mode::Mixed),
        punct: least_from(costs, elements, place, front, runs, &starts, Mode::Punct),
        digit: least_from(costs, elements, place, front, runs, &starts, Mode::Digit),
        bytes,
    }
}

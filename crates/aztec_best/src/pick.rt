ghost use Rattle.std.specs.Prelude.{◌≡◌, ◌+◌, ◌*◌, ◌<◌, ◌≤◌, Some, drop, length};
ghost use Rattle.std.specs.Bool.{OnTrue, OnFalse};
ghost use Rattle.std.specs.Option.{ForSome};
ghost use Rattle.aztec_modes.specs.declared.mode.Mode.TheVariants.{Punct};
ghost use Rattle.aztec_modes.specs.Codes.{table_symbol};
ghost use Rattle.aztec_modes.specs.Entry.{shift_number};
ghost use Rattle.aztec_best.specs.Bench.{IsFilledFrom};
ghost use Rattle.aztec_best.specs.Numbers.{controls_from};
ghost use Rattle.aztec_best.specs.Picks.{HasRank, IsDataCode, IsFirstCheapest, IsFirstOfKind, data_code, flag_code};
ghost use Rattle.aztec_best.specs.Ready.{IsReady};

use crate::cheapest::if_cheapest;
use crate::costs::Costs;
use crate::front::{Front, front_at};
use crate::numbers::{controls_from, fewest_digits, own_number, pair_number};
use crate::pick_run::pick_run;
use crate::stand::Stand;
use crate::table::bytes_kept;
use aztec_modes::{Code, Mode, Symbol, symbol_at};
use bar_base::{Element, Elements};

/// FLG(n) for FNC1 or for an ECI with as few digits as it has.
#[tactic(auto, unfolding(crate::specs::Picks::flag_code))]
#[inline(always)]
fn flag_code(element: Option<Element>) -> Option<Code>
    ensures { result ≡ flag_code element }
{
    match element {
        Some(Element::Fnc1) => Some(Code::Fnc1),
        Some(Element::Eci(number)) => Some(Code::Eci(number, fewest_digits(number) as u8)),
        Some(Element::Byte(_)) => None,
        None => None,
    }
}

/// Whether a mode is Punct, which has FLG(n) as its code 0; each other mode has the shift to Punct there.
#[tactic(auto, unfolding(aztec_modes::specs::Codes::table_symbol, aztec_modes::specs::Codes::code_table))]
#[inline(always)]
fn is_punct(mode: Mode) -> bool
    ensures punct { OnTrue result (mode ≡ Punct) }
    ensures other { OnFalse result (table_symbol mode 0 ≡ Symbol.ShiftTo Punct) }
{
    match mode {
        Mode::Punct => true,
        Mode::Upper => false,
        Mode::Lower => false,
        Mode::Mixed => false,
        Mode::Digit => false,
    }
}

/// The data code of a number, behind a shift where one is given; none for the number 0.
#[tactic(auto, unfolding(crate::specs::Picks::data_code))]
#[inline(always)]
fn data_code(shift: Option<Mode>, number: u8) -> Option<Code>
    ensures { result ≡ data_code shift number }
{
    if number == 0 {
        return None;
    }
    match shift {
        None => Some(Code::Plain(number)),
        Some(to) => Some(Code::Shift(to, number)),
    }
}

/// The first data code, behind a shift where one is given, that begins a spelling with fewest bits: of the codes for the first element
/// and for the first two, the one with the lower number is tried first.
#[inline(always)]
fn pick_data(
    costs: &[Costs],
    elements: &Elements,
    at: Stand,
    front: &Front,
    shift: Option<Mode>,
) -> Option<Code>
    requires ready { IsReady costs.now elements.now at.place front.now }
    requires filled { IsFilledFrom costs.now elements.now 0 }
    requires shift { ForSome shift (λ to. table_symbol at.mode (shift_number at.mode to) ≡ Symbol.ShiftTo to) }
    ensures { IsFirstOfKind costs.now elements.now at.place at.mode (IsDataCode shift) result }
{
    let mode = shift.unwrap_or(at.mode);
    let own = own_number(mode, front.first);
    let pair = pair_number(mode, front.first, front.second);
    let former = data_code(shift, own.min(pair));
    let latter = data_code(shift, own.max(pair));
    match if_cheapest(costs, elements, at, former) {
        Some(found) => Some(found),
        None => if_cheapest(costs, elements, at, latter),
    }
}

/// The first data code of the mode that begins a spelling with fewest bits.
#[inline(always)]
fn pick_plain(costs: &[Costs], elements: &Elements, at: Stand, front: &Front) -> Option<Code>
    requires ready { IsReady costs.now elements.now at.place front.now }
    requires filled { IsFilledFrom costs.now elements.now 0 }
    ensures { IsFirstOfKind costs.now elements.now at.place at.mode
        (HasRank at.mode 4096 (controls_from at.mode * 4096)) result }
{
    pick_data(costs, elements, at, front, None)
}

/// The first code that begins with a shift of the given number and begins a spelling with fewest bits. FLG(n) is not among them.
#[inline(always)]
fn pick_shift(
    costs: &[Costs],
    elements: &Elements,
    at: Stand,
    front: &Front,
    first: u8,
    to: Mode,
) -> Option<Code>
    requires ready { IsReady costs.now elements.now at.place front.now }
    requires filled { IsFilledFrom costs.now elements.now 0 }
    requires shift { table_symbol at.mode first ≡ Symbol.ShiftTo to }
    ensures { IsFirstOfKind costs.now elements.now at.place at.mode (HasRank at.mode (first * 4096 + 7)
        (first * 4096 + 4096)) result }
{
    pick_data(costs, elements, at, front, Some(to))
}

/// The first of the codes that begin with number 0 and begin a spelling with fewest bits: FLG(n), and after the shift to Punct its data
/// codes.
#[inline(always)]
fn pick_zero(costs: &[Costs], elements: &Elements, at: Stand, front: &Front) -> Option<Code>
    requires ready { IsReady costs.now elements.now at.place front.now }
    requires filled { IsFilledFrom costs.now elements.now 0 }
    ensures { IsFirstOfKind costs.now elements.now at.place at.mode (HasRank at.mode 0 4096) result }
{
    match if_cheapest(costs, elements, at, flag_code(front.first)) {
        Some(found) => return Some(found),
        None => {}
    }
    if is_punct(at.mode) {
        return None;
    }
    pick_shift(costs, elements, at, front, 0, Mode::Punct)
}

/// The first code that begins with the number of a latch, of a shift or of B/S, other than 0, and begins a spelling with fewest bits.
fn pick_control(
    costs: &[Costs],
    elements: &Elements,
    at: Stand,
    front: &Front,
    first: u8,
) -> Option<Code>
    requires ready { IsReady costs.now elements.now at.place front.now }
    requires filled { IsFilledFrom costs.now elements.now 0 }
    requires control { controls_from at.mode ≤ first }
    ensures { IsFirstOfKind costs.now elements.now at.place at.mode (HasRank at.mode (first * 4096)
        (first * 4096 + 4096)) result }
{
    match symbol_at(at.mode, first) {
        Symbol::LatchTo(to) => if_cheapest(costs, elements, at, Some(Code::Latch(to))),
        Symbol::ShiftTo(to) => pick_shift(costs, elements, at, front, first, to),
        Symbol::Binary => pick_run(costs, elements, at, front),
        Symbol::Absent => None,
        Symbol::One(_) => None,
        Symbol::Two(_, _) => None,
        Symbol::Flag => None,
    }
}

/// The first code behind the data codes of the mode that begins a spelling with fewest bits.
fn pick_controls(costs: &[Costs], elements: &Elements, at: Stand, front: &Front) -> Option<Code>
    requires ready { IsReady costs.now elements.now at.place front.now }
    requires filled { IsFilledFrom costs.now elements.now 0 }
    ensures { IsFirstOfKind costs.now elements.now at.place at.mode (HasRank at.mode (controls_from at.mode * 4096)
        (32 * 4096)) result }
{
    for first in controls_from(at.mode)..32u8 {
        match pick_control(costs, elements, at, front, first) {
            Some(found) => return Some(found),
            None => {}
        }
    }
    None
}

/// The first code that begins a spelling with fewest bits.
fn pick(costs: &[Costs], elements: &Elements, at: Stand, front: &Front) -> Option<Code>
    requires ready { IsReady costs.now elements.now at.place front.now }
    requires filled { IsFilledFrom costs.now elements.now 0 }
    ensures { IsFirstOfKind costs.now elements.now at.place at.mode (HasRank at.mode 0 (32 * 4096)) result }
{
    match pick_zero(costs, elements, at, front) {
        Some(found) => return Some(found),
        None => {}
    }
    match pick_plain(costs, elements, at, front) {
        Some(found) => return Some(found),
        None => {}
    }
    pick_controls(costs, elements, at, front)
}

/// The first code of the first of the shortest spellings of the rest.
pub(crate) fn next_code(costs: &[Costs], elements: &Elements, at: Stand) -> Code
    requires filled { IsFilledFrom costs.now elements.now 0 }
    requires within { at.place < length elements.now }
    ensures { IsFirstCheapest costs.now elements.now at.place at.mode result }
{
    let place = at.place as usize;
    prove!(place < elements.len());
    let front = front_at(elements, place, bytes_kept(costs, place));
    match pick(costs, elements, at, &front) {
        Some(code) => code,
        None => unreachable!(),
    }
}

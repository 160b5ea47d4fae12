//! What the values of Code 128 spell.
ghost use Rattle.std.specs.Prelude.{◌≡◌, ◌≤◌, ◌++◌, OnOk, IfOk, length};
ghost use Rattle.bar_base.specs.Results.{Gives};
ghost use Rattle.code128_best.specs.Spelling.{state_after_start, plain};
ghost use Rattle.code128_best.specs.Values.{is_free, spelled_elements};
ghost use Rattle.linear_reader.specs.Data.{spelled_from, spelled128};
ghost use Rattle.linear_reader.specs.Scan.{refusal_of};

use crate::scan::ScanFault;
use bar_base::{Element, Elements, NoMemory};
use code128_best::{CodeSet, Spelled, State, act};
use std::alloc::Global;

/// A state with nothing on.
#[tactic(auto, unfolding(code128_best::specs::Spelling::plain))]
fn plain(set: CodeSet) -> State
    ensures { result ≡ plain set }
{
    State {
        set,
        latch: false,
        fnc4: false,
        shift: false,
    }
}

/// The state after a start value.
#[tactic(auto, unfolding(code128_best::specs::Spelling::state_after_start))]
fn state_after_start(start: u8) -> Option<State>
    ensures { result ≡ state_after_start start }
{
    if start == 103 {
        Some(plain(CodeSet::A))
    } else if start == 104 {
        Some(plain(CodeSet::B))
    } else if start == 105 {
        Some(plain(CodeSet::C))
    } else {
        None
    }
}

/// Whether nothing is pending.
#[tactic(auto, unfolding(code128_best::specs::Values::is_free))]
fn is_free(state: State) -> bool
    ensures { result ≡ is_free state }
{
    !state.fnc4 && !state.shift
}

/// Puts what a value spells at the end.
#[tactic(auto, unfolding(code128_best::specs::Values::spelled_elements))]
fn push_spelled(elements: &mut Elements, spelled: Spelled) -> Result<(), NoMemory>
    ensures { OnOk result (elements.new ≡ elements.old ++ spelled_elements spelled) }
{
    match spelled {
        Spelled::Nothing => {}
        Spelled::Character(byte) => elements.push(Element::Byte(byte))?,
        Spelled::Digits(first, second) => {
            elements.push(Element::Byte(first))?;
            elements.push(Element::Byte(second))?;
        }
        Spelled::Fnc1 => elements.push(Element::Fnc1)?,
    }
    Ok(())
}

/// What values spell from a state on; the first has the place 1.
fn spelled_from(alloc: Global, state: State, values: &[u8]) -> Result<Elements, ScanFault>
    requires { length values.now ≤ 16384 }
    ensures { Gives refusal_of (λ elements. elements) result (spelled_from 1 state values.now) }
{
    let mut elements = Elements::new(alloc);
    let mut state = state;
    for (place, value) in values.iter().enumerate() {
        match act(state, *value) {
            None => return Err(ScanFault::BadSpelling(1 + place)),
            Some(effect) => {
                push_spelled(&mut elements, effect.spelled)?;
                state = effect.next;
            }
        }
    }
    if is_free(state) {
        Ok(elements)
    } else {
        Err(ScanFault::BadSpelling(1 + values.len()))
    }
}

/// What a start value and the values after it spell.
#[tactic(auto, unfolding(crate::specs::Data::spelled128))]
pub(crate) fn spelled128(alloc: Global, values: &[u8]) -> Result<Elements, ScanFault>
    requires { length values.now ≤ 16384 }
    ensures { Gives refusal_of (λ elements. elements) result (spelled128 values.now) }
{
    let [start, rest @ ..] = values else {
        return Err(ScanFault::BadSpelling(0));
    };
    match state_after_start(*start) {
        None => Err(ScanFault::BadSpelling(0)),
        Some(state) => spelled_from(alloc, state, rest),
    }
}

//! Steps from stand to stand.
ghost use Rattle.std.specs.Prelude.{◌≡◌, ◌≤◌, length};
ghost use Rattle.code128_best.specs.Values.{spelled_count};
ghost use Rattle.code128_best.specs.Steps.{is_byte, is_fnc1_element, stands_at, follow, value_step, is_end, stand_of};

use crate::effect::{Effect, Spelled, act, is_free};
use crate::state::{STATES, State, state_from};
use bar_base::Element;

/// Where the next value is read: before an element, in a state.
#[derive(Debug, Clone, Copy, PartialEq, Eq)]
pub(crate) struct Stand {
    /// The place of the next element, counted from 0.
    pub(crate) place: usize,
    /// The state.
    pub(crate) state: State,
}

/// The stand of an index of the table of costs.
#[tactic(auto, unfolding(crate::specs::Steps::stand_of))]
pub(crate) fn stand_from(index: usize) -> Stand
    ensures { result ≡ stand_of index }
{
    Stand {
        place: index / STATES,
        state: state_from(index % STATES),
    }
}

/// Whether an element is there and is this byte.
#[inline(always)]
#[tactic(auto, unfolding(crate::specs::Steps::is_byte))]
fn is_byte(element: Option<Element>, byte: u8) -> bool
    ensures { result ≡ is_byte element byte }
{
    match element {
        None => false,
        Some(Element::Byte(other)) => byte == other,
        Some(Element::Eci(_)) => false,
        Some(Element::Fnc1) => false,
    }
}

/// Whether an element is there and is FNC1.
#[inline(always)]
#[tactic(auto, unfolding(crate::specs::Steps::is_fnc1_element))]
fn is_fnc1_element(element: Option<Element>) -> bool
    ensures { result ≡ is_fnc1_element element }
{
    match element {
        None => false,
        Some(Element::Byte(_)) => false,
        Some(Element::Eci(_)) => false,
        Some(Element::Fnc1) => true,
    }
}

/// Whether the elements at a place are those that a value spells.
#[inline(always)]
#[tactic(auto, unfolding(crate::specs::Steps::stands_at))]
fn stands(spelled: Spelled, elements: &[Element], place: usize) -> bool
    requires { place ≤ length elements.now }
    ensures { result ≡ stands_at spelled elements.now place }
{
    match spelled {
        Spelled::Nothing => true,
        Spelled::Character(byte) => is_byte(elements.get(place).copied(), byte),
        Spelled::Digits(first, second) => {
            is_byte(elements.get(place).copied(), first)
                && is_byte(elements.get(place + 1).copied(), second)
        }
        Spelled::Fnc1 => is_fnc1_element(elements.get(place).copied()),
    }
}

/// How many elements a value spells.
#[inline(always)]
#[tactic(auto, unfolding(crate::specs::Values::spelled_count))]
fn count(spelled: Spelled) -> usize
    ensures value { result ≡ spelled_count spelled }
    ensures small { result ≤ 2 }
{
    match spelled {
        Spelled::Nothing => 0,
        Spelled::Character(_) => 1,
        Spelled::Digits(_, _) => 2,
        Spelled::Fnc1 => 1,
    }
}

/// The stand after a value at a place.
#[inline(always)]
#[tactic(auto, unfolding(crate::specs::Steps::follow))]
fn after(elements: &[Element], place: usize, effect: Option<Effect>) -> Option<Stand>
    requires { place ≤ length elements.now }
    ensures { result ≡ follow elements.now place effect }
{
    let effect = effect?;
    if stands(effect.spelled, elements, place) {
        Some(Stand {
            place: place + count(effect.spelled),
            state: effect.next,
        })
    } else {
        None
    }
}

/// The stand after a value; None where the value may not stand, or spells something else than the next elements.
#[inline(always)]
#[tactic(auto, unfolding(crate::specs::Steps::value_step))]
pub(crate) fn step(elements: &[Element], at: Stand, value: u8) -> Option<Stand>
    requires { at.place ≤ length elements.now }
    ensures { result ≡ value_step elements.now at value }
{
    after(elements, at.place, act(at.state, value))
}

/// Whether all elements are spelled and nothing is pending.
#[inline(always)]
#[tactic(auto, unfolding(crate::specs::Steps::is_end))]
pub(crate) fn ends(elements: &[Element], at: Stand) -> bool
    ensures { result ≡ is_end elements.now at }
{
    at.place == elements.len() && is_free(at.state)
}

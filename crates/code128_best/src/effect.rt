//! What a value does in a state (ISO/IEC 15417, symbol character values and special characters).
ghost use Rattle.std.specs.Prelude.{◌≡◌, ◌<◌, true};
ghost use Rattle.code128_best.specs.Values.{character_of_set, other_set, reading_set, reads_high, character_of, spent, with_fnc4, is_free, silent_if, fnc1_if, character_effect, act_of, act_in_a, act_in_b, act_in_c};

use crate::state::{CodeSet, State};

/// What a value spells.
#[derive(Debug, Clone, Copy, PartialEq, Eq)]
pub enum Spelled {
    /// No element.
    Nothing,
    /// A byte.
    Character(u8),
    /// The bytes of two digits.
    Digits(u8, u8),
    /// FNC1.
    Fnc1,
}

/// What a value does.
#[derive(Debug, Clone, Copy, PartialEq, Eq)]
pub struct Effect {
    /// The state afterwards.
    pub next: State,
    /// What it spells.
    pub spelled: Spelled,
}

/// The character of a value below 96 in code set A or B, below 128.
#[inline(always)]
#[tactic(auto, unfolding(crate::specs::Values::character_of_set))]
fn character(set: CodeSet, value: u8) -> u8
    requires { value < 96 }
    ensures value { result ≡ character_of_set set value }
    ensures small { result < 128 }
{
    match set {
        CodeSet::A => { if value < 64 { 32 + value } else { value - 64 } }
        CodeSet::B => 32 + value,
        CodeSet::C => value,
    }
}

/// The other one of the code sets A and B.
#[inline(always)]
#[tactic(auto, unfolding(crate::specs::Values::other_set))]
fn other(set: CodeSet) -> CodeSet
    ensures { result ≡ other_set set }
{
    match set {
        CodeSet::A => CodeSet::B,
        CodeSet::B => CodeSet::A,
        CodeSet::C => CodeSet::C,
    }
}

/// The code set in which a character is read.
#[inline(always)]
#[tactic(auto, unfolding(crate::specs::Values::reading_set))]
pub(crate) fn reading(state: State) -> CodeSet
    ensures { result ≡ reading_set state }
{
    if state.shift {
        other(state.set)
    } else {
        state.set
    }
}

/// Whether a character is a byte from 128 on.
#[inline(always)]
#[tactic(auto, unfolding(crate::specs::Values::reads_high))]
pub(crate) fn reads_high(state: State) -> bool
    ensures { result ≡ reads_high state }
{
    if state.latch { !state.fnc4 } else { state.fnc4 }
}

/// The byte that a value below 96 spells in a state with code set A or B.
#[inline(always)]
#[tactic(auto, unfolding(crate::specs::Values::character_of))]
fn byte_of(state: State, value: u8) -> u8
    requires { value < 96 }
    ensures { result ≡ character_of state value }
{
    let byte = character(reading(state), value);
    if reads_high(state) { byte + 128 } else { byte }
}

/// The state after a character.
#[inline(always)]
#[tactic(auto, unfolding(crate::specs::Values::spent))]
pub(crate) fn after_character(state: State) -> State
    ensures { result ≡ spent state }
{
    State {
        set: state.set,
        latch: state.latch,
        fnc4: false,
        shift: false,
    }
}

/// The state after FNC4.
#[inline(always)]
#[tactic(auto, unfolding(crate::specs::Values::with_fnc4))]
fn after_fnc4(state: State) -> State
    ensures { result ≡ with_fnc4 state }
{
    if state.fnc4 {
        State {
            set: state.set,
            latch: !state.latch,
            fnc4: false,
            shift: state.shift,
        }
    } else {
        State {
            set: state.set,
            latch: state.latch,
            fnc4: true,
            shift: state.shift,
        }
    }
}

/// The state with another code set.
#[inline(always)]
fn in_set(state: State, set: CodeSet) -> State
    ensures { result ≡ record state { set = set } }
{
    State {
        set,
        latch: state.latch,
        fnc4: state.fnc4,
        shift: state.shift,
    }
}

/// The state with a pending Shift.
#[inline(always)]
fn with_shift(state: State) -> State
    ensures { result ≡ record state { shift = true } }
{
    State {
        set: state.set,
        latch: state.latch,
        fnc4: state.fnc4,
        shift: true,
    }
}

/// Whether nothing is pending.
#[inline(always)]
#[tactic(auto, unfolding(crate::specs::Values::is_free))]
pub(crate) fn is_free(state: State) -> bool
    ensures { result ≡ is_free state }
{
    !state.fnc4 && !state.shift
}

/// A value that spells nothing, where it may stand.
#[inline(always)]
#[tactic(auto, unfolding(crate::specs::Values::silent_if))]
fn silent(may: bool, next: State) -> Option<Effect>
    ensures { result ≡ silent_if may next }
{
    if may {
        Some(Effect {
            next,
            spelled: Spelled::Nothing,
        })
    } else {
        None
    }
}

/// FNC1, where it may stand.
#[inline(always)]
#[tactic(auto, unfolding(crate::specs::Values::fnc1_if))]
fn fnc1(may: bool, state: State) -> Option<Effect>
    ensures { result ≡ fnc1_if may state }
{
    if may {
        Some(Effect {
            next: state,
            spelled: Spelled::Fnc1,
        })
    } else {
        None
    }
}

/// One character.
#[inline(always)]
#[tactic(auto, unfolding(crate::specs::Values::character_effect))]
fn one_character(state: State, value: u8) -> Effect
    requires { value < 96 }
    ensures { result ≡ character_effect state value }
{
    Effect {
        next: after_character(state),
        spelled: Spelled::Character(byte_of(state, value)),
    }
}

/// What a value does in code set A.
#[inline(always)]
#[tactic(auto, unfolding(crate::specs::Values::act_in_a))]
fn act_a(state: State, value: u8) -> Option<Effect>
    ensures { result ≡ act_in_a state value }
{
    if value < 96 {
        Some(one_character(state, value))
    } else if value == 98 {
        silent(!state.shift, with_shift(state))
    } else if value == 99 {
        silent(is_free(state) && !state.latch, in_set(state, CodeSet::C))
    } else if value == 100 {
        silent(is_free(state), in_set(state, CodeSet::B))
    } else if value == 101 {
        silent(!state.shift, after_fnc4(state))
    } else if value == 102 {
        fnc1(is_free(state), state)
    } else {
        None
    }
}

/// What a value does in code set B.
#[inline(always)]
#[tactic(auto, unfolding(crate::specs::Values::act_in_b))]
fn act_b(state: State, value: u8) -> Option<Effect>
    ensures { result ≡ act_in_b state value }
{
    if value < 96 {
        Some(one_character(state, value))
    } else if value == 98 {
        silent(!state.shift, with_shift(state))
    } else if value == 99 {
        silent(is_free(state) && !state.latch, in_set(state, CodeSet::C))
    } else if value == 100 {
        silent(!state.shift, after_fnc4(state))
    } else if value == 101 {
        silent(is_free(state), in_set(state, CodeSet::A))
    } else if value == 102 {
        fnc1(is_free(state), state)
    } else {
        None
    }
}

/// What a value does in code set C.
#[inline(always)]
#[tactic(auto, unfolding(crate::specs::Values::act_in_c))]
fn act_c(state: State, value: u8) -> Option<Effect>
    ensures { result ≡ act_in_c state value }
{
    if value < 100 {
        Some(Effect {
            next: state,
            spelled: Spelled::Digits(48 + value / 10, 48 + value % 10),
        })
    } else if value == 100 {
        silent(true, in_set(state, CodeSet::B))
    } else if value == 101 {
        silent(true, in_set(state, CodeSet::A))
    } else if value == 102 {
        fnc1(is_free(state), state)
    } else {
        None
    }
}

/// What a value does in a state; None where it may not stand there.
#[inline(always)]
#[tactic(auto, unfolding(crate::specs::Values::act_of))]
pub fn act(state: State, value: u8) -> Option<Effect>
    ensures { result ≡ act_of state value }
{
    match state.set {
        CodeSet::A => act_a(state, value),
        CodeSet::B => act_b(state, value),
        CodeSet::C => act_c(state, value),
    }
}

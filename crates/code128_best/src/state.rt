//! Code sets and states, and the states by numbers.
ghost use Rattle.std.specs.Prelude.{◌≡◌, ◌<◌};
ghost use Rattle.code128_best.specs.States.{set_number, state_number, numbered_set, numbered_state};

/// A code set of Code 128.
#[derive(Debug, Clone, Copy, PartialEq, Eq)]
pub enum CodeSet {
    /// Upper-case letters, digits, signs and control characters.
    A,
    /// Upper-case and lower-case letters, digits and signs.
    B,
    /// Pairs of digits.
    C,
}

/// What decides how the next value is read.
#[derive(Debug, Clone, Copy, PartialEq, Eq)]
pub struct State {
    /// The code set.
    pub set: CodeSet,
    /// Whether the latch for bytes from 128 on is on.
    pub latch: bool,
    /// Whether one FNC4 is pending.
    pub fnc4: bool,
    /// Whether a Shift is pending.
    pub shift: bool,
}

/// How many states there are.
pub(crate) const STATES: usize = 24;

/// The number of a code set.
#[inline(always)]
#[tactic(auto, unfolding(crate::specs::States::set_number))]
fn number_of_set(set: CodeSet) -> usize
    ensures value { result ≡ set_number set }
    ensures small { result < 3 }
{
    match set {
        CodeSet::A => 0,
        CodeSet::B => 1,
        CodeSet::C => 2,
    }
}

/// The number of a state, below 24.
#[inline(always)]
#[tactic(auto, unfolding(crate::specs::States::state_number))]
pub(crate) fn number(state: State) -> usize
    ensures value { result ≡ state_number state }
    ensures small { result < 24 }
{
    8 * number_of_set(state.set)
        + if state.latch { 4 } else { 0 }
        + if state.fnc4 { 2 } else { 0 }
        + if state.shift { 1 } else { 0 }
}

/// The code set of a number.
#[tactic(auto, unfolding(crate::specs::States::numbered_set))]
fn set_from(number: usize) -> CodeSet
    ensures { result ≡ numbered_set number }
{
    if number == 0 {
        CodeSet::A
    } else if number == 1 {
        CodeSet::B
    } else {
        CodeSet::C
    }
}

/// The state of a number.
#[tactic(auto, unfolding(crate::specs::States::numbered_state))]
pub(crate) fn state_from(number: usize) -> State
    ensures { result ≡ numbered_state number }
{
    State {
        set: set_from(number / 8),
        latch: number / 4 % 2 == 1,
        fnc4: number / 2 % 2 == 1,
        shift: number % 2 == 1,
    }
}

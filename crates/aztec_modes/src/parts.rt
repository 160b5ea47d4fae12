ghost use Rattle.std.specs.Prelude.{◌≡◌, ◌≤◌};
ghost use Rattle.aztec_modes.specs.Entry.{code_count, code_length, code_next, data_count, flag_width, run_head};

use crate::code::Code;
use crate::mode::Mode;
use crate::table::{Symbol, symbol_at, width};

/// The mode after a code of `mode`: a latch changes it, every other code keeps it.
#[tactic(auto, unfolding(crate::specs::Entry::code_next))]
#[inline(always)]
pub fn code_next(mode: Mode, code: Code) -> Mode
    ensures { result ≡ code_next mode code }
{
    match code {
        Code::Latch(next) => next,
        Code::Plain(_) | Code::Shift(_, _) | Code::Fnc1 | Code::Eci(_, _) | Code::Run(_, _) => mode,
    }
}

/// How many bits FLG(n) has, with P/S outside Punct: 8, 12 in Digit, else 13.
#[tactic(auto, unfolding(crate::specs::Entry::flag_width, crate::specs::Codes::mode_width))]
#[inline(always)]
pub fn flag_width(mode: Mode) -> u32
    ensures is { result ≡ flag_width mode }
    ensures few { result ≤ 13 }
{
    match mode {
        Mode::Punct => 8,
        Mode::Digit => 12,
        Mode::Upper | Mode::Lower | Mode::Mixed => 13,
    }
}

/// How many bits B/S and the length of a run have: 10 in the short form, 21 in the long one.
#[inline(always)]
pub fn run_head(long: bool) -> u32
    ensures is { result ≡ run_head long }
    ensures few { result ≤ 21 }
{
    if long { 21 } else { 10 }
}

/// How many bits a code of `mode` has.
#[tactic(auto, unfolding(crate::specs::Entry::code_length))]
#[inline(always)]
pub fn code_length(mode: Mode, code: Code) -> u64
    ensures { result ≡ code_length mode code }
{
    match code {
        Code::Latch(_) | Code::Plain(_) => u64::from(width(mode)),
        Code::Shift(to, _) => u64::from(width(mode)) + u64::from(width(to)),
        Code::Fnc1 => u64::from(flag_width(mode)),
        Code::Eci(_, count) => u64::from(flag_width(mode)) + 4 * u64::from(count),
        Code::Run(count, long) => u64::from(run_head(long)) + 8 * u64::from(count),
    }
}

/// How many bytes a data code spells.
#[tactic(auto, unfolding(crate::specs::Entry::data_count))]
#[inline(always)]
fn data_count(symbol: Symbol) -> u32
    ensures { result ≡ data_count symbol }
{
    match symbol {
        Symbol::Two(_, _) => 2,
        _ => 1,
    }
}

/// How many elements a code of `mode` spells.
#[tactic(auto, unfolding(crate::specs::Entry::code_count))]
#[inline(always)]
pub fn code_count(mode: Mode, code: Code) -> u32
    ensures { result ≡ code_count mode code }
{
    match code {
        Code::Latch(_) => 0,
        Code::Plain(number) => data_count(symbol_at(mode, number)),
        Code::Shift(to, number) => data_count(symbol_at(to, number)),
        Code::Fnc1 | Code::Eci(_, _) => 1,
        Code::Run(count, _) => count,
    }
}

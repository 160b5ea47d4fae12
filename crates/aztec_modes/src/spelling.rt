ghost use Rattle.std.specs.Prelude.{◌≡◌, ◌<◌, ◌≤◌, ◌++◌, ℕ, Bool, List, IsTrue, OnOk, IfOk};
ghost use Rattle.bar_base.specs.declared.element.Element.{Element as ElementValue};
ghost use Rattle.aztec_modes.specs.declared.code.Code.{Code as CodeValue};
ghost use Rattle.aztec_modes.specs.Codes.{number_bits, table_symbol};
ghost use Rattle.aztec_modes.specs.Entry.{HasCode, code_bits, digit_bits, element_bits, element_byte, flag_bits, latch_number, length_bits, shift_number};
ghost use Rattle.aztec_modes.specs.Spelling.{IsPathOf, Spells};
ghost use Rattle.aztec_modes.specs.declared.mode.Mode.TheVariants.{Upper};

use crate::code::Code;
use crate::mode::Mode;
use crate::parts::{code_count, code_next};
use crate::path::Path;
use crate::table::{Symbol, symbol_at, width};
use bar_base::{Bits, Element, Elements, NoMemory, push_bits};
use std::alloc::Global;

/// Puts the last `count` decimal digits of a number at the end as codes of Digit mode, the highest first.
#[tactic(auto, unfolding(crate::specs::Entry::digit_bits))]
fn push_digits(bits: &mut Bits, count: u8, number: u32) -> Result<(), NoMemory>
    ensures { OnOk result (bits.new ≡ bits.old ++ digit_bits count number) }
{
    if count == 0 {
        return Ok(());
    }
    push_digits(bits, count - 1, number / 10)?;
    push_code_number(bits, Mode::Digit, (number % 10 + 2) as u8)?;
    Ok(())
}

/// Puts a number of the table of a mode at the end.
#[tactic(auto, unfolding(crate::specs::Codes::number_bits))]
fn push_code_number(bits: &mut Bits, mode: Mode, number: u8) -> Result<(), NoMemory>
    ensures { OnOk result (bits.new ≡ bits.old ++ number_bits mode number) }
{
    push_bits(bits, width(mode), u32::from(number))
}

/// Where a latch or a shift is looked for first.
fn likely_number(mode: Mode, wanted: Symbol) -> u8 {
    match wanted {
        Symbol::LatchTo(Mode::Upper) => match mode {
            Mode::Mixed => 29,
            Mode::Punct => 31,
            Mode::Digit => 14,
            Mode::Upper | Mode::Lower => 0,
        },
        Symbol::LatchTo(Mode::Lower) => 28,
        Symbol::LatchTo(Mode::Mixed) => 29,
        Symbol::LatchTo(Mode::Punct) => 30,
        Symbol::LatchTo(Mode::Digit) => 30,
        Symbol::ShiftTo(Mode::Upper) => match mode {
            Mode::Lower => 28,
            Mode::Digit => 15,
            Mode::Upper | Mode::Mixed | Mode::Punct => 0,
        },
        Symbol::ShiftTo(_) => 0,
        Symbol::Absent | Symbol::One(_) | Symbol::Two(_, _) | Symbol::Binary | Symbol::Flag => 0,
    }
}

/// The number of a symbol that stands in the table of a mode.
fn control_number(mode: Mode, wanted: Symbol) -> u8
    requires { (number : ℕ) × (number < 32) × (table_symbol mode number ≡ wanted) }
    ensures { table_symbol mode result ≡ wanted }
{
    let likely = likely_number(mode, wanted);
    if symbol_at(mode, likely) == wanted {
        return likely;
    }
    for number in 0..32u8 {
        if symbol_at(mode, number) == wanted {
            return number;
        }
    }
    unreachable!()
}

/// Puts the latch to a mode at the end.
fn push_latch(bits: &mut Bits, mode: Mode, to: Mode) -> Result<(), NoMemory>
    requires { table_symbol mode (latch_number mode to) ≡ Symbol.LatchTo to }
    ensures { OnOk result (bits.new ≡ bits.old ++ number_bits mode (latch_number mode to)) }
{
    push_code_number(bits, mode, control_number(mode, Symbol::LatchTo(to)))
}

/// Puts the shift to a mode at the end.
fn push_shift(bits: &mut Bits, mode: Mode, to: Mode) -> Result<(), NoMemory>
    requires { table_symbol mode (shift_number mode to) ≡ Symbol.ShiftTo to }
    ensures { OnOk result (bits.new ≡ bits.old ++ number_bits mode (shift_number mode to)) }
{
    push_code_number(bits, mode, control_number(mode, Symbol::ShiftTo(to)))
}

/// Puts FLG(n) at the end, code 0 of Punct, after P/S, code 0 of each other mode.
#[tactic(auto, unfolding(crate::specs::Entry::flag_bits))]
fn push_flag(bits: &mut Bits, mode: Mode, n: u8) -> Result<(), NoMemory>
    ensures { OnOk result (bits.new ≡ bits.old ++ flag_bits mode n) }
{
    match mode {
        Mode::Punct => {
            push_code_number(bits, Mode::Punct, 0)?;
            push_bits(bits, 3, u32::from(n))
        }
        Mode::Upper | Mode::Lower | Mode::Mixed | Mode::Digit => {
            push_code_number(bits, mode, 0)?;
            push_code_number(bits, Mode::Punct, 0)?;
            push_bits(bits, 3, u32::from(n))
        }
    }
}

/// Puts the length of a run at the end; in the long form it is at least 31.
#[tactic(auto, unfolding(crate::specs::Entry::length_bits))]
fn push_length(bits: &mut Bits, count: u32, long: bool) -> Result<(), NoMemory>
    requires { IsTrue long → 31 ≤ count }
    ensures { OnOk result (bits.new ≡ bits.old ++ length_bits count long) }
{
    if long {
        push_bits(bits, 5, 0)?;
        return push_bits(bits, 11, count - 31);
    }
    push_bits(bits, 5, count)
}

/// The byte of an element, 0 where it is none.
#[tactic(auto, unfolding(crate::specs::Entry::element_byte))]
fn byte_in(element: Element) -> u8
    ensures { result ≡ element_byte element }
{
    match element {
        Element::Byte(byte) => byte,
        Element::Eci(_) | Element::Fnc1 => 0,
    }
}

/// Puts the bytes of elements at the end, 8 bits each.
#[tactic(auto, using(crate::proofs::Steps::push_steps), unfolding(crate::specs::Entry::element_bits))]
fn push_run(bits: &mut Bits, elements: &[Element]) -> Result<(), NoMemory>
    ensures { OnOk result (bits.new ≡ bits.old ++ element_bits elements.now) }
{
    for element in elements {
        push_bits(bits, 8, u32::from(byte_in(*element)))?;
    }
    Ok(())
}

/// Puts a binary run over these elements, which are bytes, at the end: B/S is code 31.
fn push_binary(
    bits: &mut Bits,
    mode: Mode,
    count: u32,
    long: bool,
    elements: &[Element],
) -> Result<(), NoMemory>
    requires { IsTrue long → 31 ≤ count }
    ensures { OnOk result (bits.new ≡ bits.old ++ (number_bits mode 31
        ++ (length_bits count long ++ element_bits elements.now))) }
{
    push_code_number(bits, mode, 31)?;
    push_length(bits, count, long)?;
    push_run(bits, elements)
}

/// Puts a shift and one data code of the mode shifted to at the end.
fn push_shifted(bits: &mut Bits, mode: Mode, to: Mode, number: u8) -> Result<(), NoMemory>
    requires { table_symbol mode (shift_number mode to) ≡ Symbol.ShiftTo to }
    ensures { OnOk result (bits.new ≡ bits.old ++ (number_bits mode (shift_number mode to) ++ number_bits to number)) }
{
    push_shift(bits, mode, to)?;
    push_code_number(bits, to, number)
}

/// Puts FLG(n) and the n digits of an ECI at the end.
fn push_eci(bits: &mut Bits, mode: Mode, number: u32, count: u8) -> Result<(), NoMemory>
    ensures { OnOk result (bits.new ≡ bits.old ++ (flag_bits mode count ++ digit_bits count number)) }
{
    push_flag(bits, mode, count)?;
    push_digits(bits, count, number)
}

/// Puts the bits of a code of `mode` at the end, which spells these elements (ISO/IEC 24778, Character encodation). Without memory some
/// of them may have been put there; that is the only refusal.
#[tactic(auto, unfolding(crate::specs::Entry::code_bits))]
pub fn push_code(
    bits: &mut Bits,
    mode: Mode,
    code: Code,
    spelled: &[Element],
) -> Result<(), NoMemory>
    requires { HasCode mode code }
    ensures pushed { OnOk result (bits.new ≡ bits.old ++ code_bits mode code spelled.now) }
{
    match code {
        Code::Latch(to) => push_latch(bits, mode, to),
        Code::Plain(number) => push_code_number(bits, mode, number),
        Code::Shift(to, number) => push_shifted(bits, mode, to, number),
        Code::Fnc1 => push_flag(bits, mode, 0),
        Code::Eci(number, count) => push_eci(bits, mode, number, count),
        Code::Run(count, long) => push_binary(bits, mode, count, long, spelled),
    }
}

/// The bits of a path that spells the elements from Upper mode (ISO/IEC 24778, Character encodation). The path has no other bits, and no
/// other path has these bits. The only refusal is want of memory.
pub fn spell(alloc: Global, path: &Path, elements: &Elements) -> Result<Bits, NoMemory>
    requires { IsPathOf Upper path.now elements.now }
    ensures spelled { IfOk result (λ bits. Spells Upper path.now bits elements.now) }
    ensures only { IfOk result (λ bits. (others : List Bool) → Spells Upper path.now others elements.now →
        others ≡ bits) }
    ensures sole { IfOk result (λ bits. (codes : List CodeValue) (spelled : List ElementValue) →
        Spells Upper codes bits spelled
        → (codes ≡ path.now) × (spelled ≡ elements.now)) }
{
    let items = elements.as_slice();
    let mut bits = Bits::new(alloc);
    let mut mode = Mode::Upper;
    let mut at = 0;
    let codes = path.as_slice();
    for code in codes {
        let after = at + code_count(mode, *code) as usize;
        push_code(&mut bits, mode, *code, &items[at..after])?;
        at = after;
        mode = code_next(mode, *code);
    }
    Ok(bits)
}

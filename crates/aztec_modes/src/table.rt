ghost use Rattle.std.specs.Prelude.{◌≡◌, ◌≤◌};
ghost use Rattle.aztec_modes.specs.Codes.{code_table, table_symbol, mode_width};

use crate::mode::Mode;

/// What one number of a code table stands for.
#[derive(Debug, Clone, Copy, PartialEq, Eq)]
pub enum Symbol {
    /// No code has this number.
    Absent,
    /// A data code for one byte.
    One(u8),
    /// A data code for two bytes.
    Two(u8, u8),
    /// A latch to a mode.
    LatchTo(Mode),
    /// A shift to a mode for one code.
    ShiftTo(Mode),
    /// B/S, which begins a binary run.
    Binary,
    /// FLG(n).
    Flag,
}

/// The codes of Upper mode by their numbers (ISO/IEC 24778, code table).
pub const UPPER: [Symbol; 32] = [
    Symbol::ShiftTo(Mode::Punct),
    Symbol::One(b' '),
    Symbol::One(b'A'),
    Symbol::One(b'B'),
    Symbol::One(b'C'),
    Symbol::One(b'D'),
    Symbol::One(b'E'),
    Symbol::One(b'F'),
    Symbol::One(b'G'),
    Symbol::One(b'H'),
    Symbol::One(b'I'),
    Symbol::One(b'J'),
    Symbol::One(b'K'),
    Symbol::One(b'L'),
    Symbol::One(b'M'),
    Symbol::One(b'N'),
    Symbol::One(b'O'),
    Symbol::One(b'P'),
    Symbol::One(b'Q'),
    Symbol::One(b'R'),
    Symbol::One(b'S'),
    Symbol::One(b'T'),
    Symbol::One(b'U'),
    Symbol::One(b'V'),
    Symbol::One(b'W'),
    Symbol::One(b'X'),
    Symbol::One(b'Y'),
    Symbol::One(b'Z'),
    Symbol::LatchTo(Mode::Lower),
    Symbol::LatchTo(Mode::Mixed),
    Symbol::LatchTo(Mode::Digit),
    Symbol::Binary,
];

/// The codes of Lower mode by their numbers.
pub const LOWER: [Symbol; 32] = [
    Symbol::ShiftTo(Mode::Punct),
    Symbol::One(b' '),
    Symbol::One(b'a'),
    Symbol::One(b'b'),
    Symbol::One(b'c'),
    Symbol::One(b'd'),
    Symbol::One(b'e'),
    Symbol::One(b'f'),
    Symbol::One(b'g'),
    Symbol::One(b'h'),
    Symbol::One(b'i'),
    Symbol::One(b'j'),
    Symbol::One(b'k'),
    Symbol::One(b'l'),
    Symbol::One(b'm'),
    Symbol::One(b'n'),
    Symbol::One(b'o'),
    Symbol::One(b'p'),
    Symbol::One(b'q'),
    Symbol::One(b'r'),
    Symbol::One(b's'),
    Symbol::One(b't'),
    Symbol::One(b'u'),
    Symbol::One(b'v'),
    Symbol::One(b'w'),
    Symbol::One(b'x'),
    Symbol::One(b'y'),
    Symbol::One(b'z'),
    Symbol::ShiftTo(Mode::Upper),
    Symbol::LatchTo(Mode::Mixed),
    Symbol::LatchTo(Mode::Digit),
    Symbol::Binary,
];

/// The codes of Mixed mode by their numbers.
pub const MIXED: [Symbol; 32] = [
    Symbol::ShiftTo(Mode::Punct),
    Symbol::One(b' '),
    Symbol::One(1),
    Symbol::One(2),
    Symbol::One(3),
    Symbol::One(4),
    Symbol::One(5),
    Symbol::One(6),
    Symbol::One(7),
    Symbol::One(8),
    Symbol::One(9),
    Symbol::One(10),
    Symbol::One(11),
    Symbol::One(12),
    Symbol::One(13),
    Symbol::One(27),
    Symbol::One(28),
    Symbol::One(29),
    Symbol::One(30),
    Symbol::One(31),
    Symbol::One(b'@'),
    Symbol::One(b'\\'),
    Symbol::One(b'^'),
    Symbol::One(b'_'),
    Symbol::One(b'`'),
    Symbol::One(b'|'),
    Symbol::One(b'~'),
    Symbol::One(127),
    Symbol::LatchTo(Mode::Lower),
    Symbol::LatchTo(Mode::Upper),
    Symbol::LatchTo(Mode::Punct),
    Symbol::Binary,
];

/// The codes of Punct mode by their numbers.
pub const PUNCT: [Symbol; 32] = [
    Symbol::Flag,
    Symbol::One(13),
    Symbol::Two(13, 10),
    Symbol::Two(b'.', b' '),
    Symbol::Two(b',', b' '),
    Symbol::Two(b':', b' '),
    Symbol::One(b'!'),
    Symbol::One(b'"'),
    Symbol::One(b'#'),
    Symbol::One(b'$'),
    Symbol::One(b'%'),
    Symbol::One(b'&'),
    Symbol::One(b'\''),
    Symbol::One(b'('),
    Symbol::One(b')'),
    Symbol::One(b'*'),
    Symbol::One(b'+'),
    Symbol::One(b','),
    Symbol::One(b'-'),
    Symbol::One(b'.'),
    Symbol::One(b'/'),
    Symbol::One(b':'),
    Symbol::One(b';'),
    Symbol::One(b'<'),
    Symbol::One(b'='),
    Symbol::One(b'>'),
    Symbol::One(b'?'),
    Symbol::One(b'['),
    Symbol::One(b']'),
    Symbol::One(b'{'),
    Symbol::One(b'}'),
    Symbol::LatchTo(Mode::Upper),
];

/// The codes of Digit mode by their numbers.
pub const DIGIT: [Symbol; 16] = [
    Symbol::ShiftTo(Mode::Punct),
    Symbol::One(b' '),
    Symbol::One(b'0'),
    Symbol::One(b'1'),
    Symbol::One(b'2'),
    Symbol::One(b'3'),
    Symbol::One(b'4'),
    Symbol::One(b'5'),
    Symbol::One(b'6'),
    Symbol::One(b'7'),
    Symbol::One(b'8'),
    Symbol::One(b'9'),
    Symbol::One(b','),
    Symbol::One(b'.'),
    Symbol::LatchTo(Mode::Upper),
    Symbol::ShiftTo(Mode::Upper),
];

/// The code table of a mode.
#[tactic(auto, unfolding(crate::specs::Codes::code_table))]
#[inline(always)]
fn table(mode: Mode) -> &'static [Symbol]
    ensures { result.now ≡ code_table mode }
{
    match mode {
        Mode::Upper => &UPPER,
        Mode::Lower => &LOWER,
        Mode::Mixed => &MIXED,
        Mode::Punct => &PUNCT,
        Mode::Digit => &DIGIT,
    }
}

/// What a number stands for in a mode; `Symbol::Absent` where no code of the mode has it.
#[tactic(auto, unfolding(crate::specs::Codes::table_symbol))]
#[inline(always)]
pub fn symbol_at(mode: Mode, number: u8) -> Symbol
    ensures { result ≡ table_symbol mode number }
{
    match table(mode).get(number as usize) {
        Some(found) => *found,
        None => Symbol::Absent,
    }
}

/// How many bits the codes of a mode have: 5, and 4 in Digit mode.
#[tactic(auto, unfolding(crate::specs::Codes::mode_width))]
#[inline(always)]
pub fn width(mode: Mode) -> u32
    ensures is { result ≡ mode_width mode }
    ensures narrow { result ≤ 5 }
{
    match mode {
        Mode::Digit => 4,
        Mode::Upper | Mode::Lower | Mode::Mixed | Mode::Punct => 5,
    }
}

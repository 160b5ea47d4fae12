//! What keeps a picture from being read.
ghost use Rattle.std.specs.Prelude.{◌≡◌, ◌+◌, ◌*◌, ◌≤◌, ◌++◌, codes, length, decimal};
ghost use Rattle.arrayvec.specs.ArrayVec.{array_vec_len};
ghost use Rattle.zint_answers.specs.Report.{numbers_text, spaced_text};
ghost use Rattle.zint_answers.specs.SymbolFaults.{damage_detail_of, symbol_detail_of, symbol_status};

use crate::detail::{Detail, put, put_digits};
use crate::image_fault::number_detail;
use arrayvec::ArrayVec;
use bar_base::Short;
use itoa::Buffer;

/// What keeps a picture from being read.
#[derive(Debug, Drop)]
pub enum SymbolFault {
    /// No finder with its orientation marks stands in the picture; the column and row of the first module that differs.
    NoFinder(u32, u32),
    /// These mode words, as the picture shows them, are near no mode message of its size.
    BadMode(Short<10>),
    /// So many codewords, with so many check codewords among them, are more damaged than can be corrected.
    TooDamaged { codewords: u32, check: u32 },
    /// The data codeword at this place, counted from 0, is all zeros or all ones.
    BadWord(u64),
    /// No reading goes past this bit, counted from 0 in the bits that the data codewords carry.
    BadSpelling(u64),
    /// At this module of a row, counted from 0 in the direction of reading, neither a pattern nor an end stands.
    BadPattern(u64),
    /// The value at this place of a row may not stand there.
    BadValue(u64),
}

impl SymbolFault {
    /// The exit status.
    pub fn status(&self) -> u8
        ensures { result ≡ symbol_status self.now }
    {
        match self {
            SymbolFault::NoFinder(_, _) => 14,
            SymbolFault::BadMode(_) => 15,
            SymbolFault::TooDamaged { .. } => 16,
            SymbolFault::BadWord(_) => 17,
            SymbolFault::BadSpelling(_) => 17,
            SymbolFault::BadPattern(_) => 17,
            SymbolFault::BadValue(_) => 17,
        }
    }

    /// What it is about.
    pub(crate) fn detail(&self) -> Detail
        ensures { result.items ≡ symbol_detail_of self.now }
    {
        match self {
            SymbolFault::NoFinder(x, y) => module_detail(*x, *y),
            SymbolFault::BadMode(words) => words_detail(words),
            SymbolFault::TooDamaged { codewords, check } => damage_detail(*codewords, *check),
            SymbolFault::BadWord(place) => number_detail(b"codeword ", *place),
            SymbolFault::BadSpelling(place) => number_detail(b"bit ", *place),
            SymbolFault::BadPattern(place) => number_detail(b"module ", *place),
            SymbolFault::BadValue(place) => number_detail(b"value ", *place),
        }
    }
}

/// The detail of a module that differs from the finder: its column and its row, as in `7,7`.
fn module_detail(x: u32, y: u32) -> Detail
    ensures { result.items ≡ decimal x ++ codes "," ++ decimal y }
{
    let mut detail: Detail = ArrayVec::new();
    put_digits(&mut detail, u64::from(x));
    put(&mut detail, b",");
    put_digits(&mut detail, u64::from(y));
    detail
}

/// The detail of damage that cannot be corrected, as in `17 codewords, 7 check`.
fn damage_detail(codewords: u32, check: u32) -> Detail
    ensures { result.items ≡ damage_detail_of codewords check }
{
    let mut detail: Detail = ArrayVec::new();
    put_digits(&mut detail, u64::from(codewords));
    put(&mut detail, b" codewords, ");
    put_digits(&mut detail, u64::from(check));
    put(&mut detail, b" check");
    detail
}

/// Puts the decimal digits of a byte, at most 3, at the end of a detail that has the room.
fn put_byte(detail: &mut Detail, number: u8)
    requires { array_vec_len detail.old + 3 ≤ 128 }
    ensures items { detail.new.items ≡ detail.old.items ++ decimal number }
    ensures counted { array_vec_len detail.new ≤ array_vec_len detail.old + 3 }
{
    let mut buffer = Buffer::new();
    put(detail, buffer.format(number).as_bytes());
}

/// Puts a space and the decimal digits of each number at the end of a detail that has the room.
fn put_spaced_bytes(detail: &mut Detail, numbers: &[u8])
    requires { array_vec_len detail.old + 4 * length numbers.now ≤ 128 }
    ensures { detail.new.items ≡ detail.old.items ++ spaced_text numbers.now }
{
    for number in numbers {
        put(detail, b" ");
        put_byte(detail, *number);
    }
}

/// The detail of mode words that are near no mode message, with one space between.
fn words_detail(words: &Short<10>) -> Detail
    ensures { result.items ≡ numbers_text words.now }
{
    let mut detail: Detail = ArrayVec::new();
    match words.as_slice().split_first() {
        Some((first, rest)) => {
            put_byte(&mut detail, *first);
            put_spaced_bytes(&mut detail, rest);
            detail
        }
        None => detail,
    }
}

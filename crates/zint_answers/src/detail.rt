//! The details of fault lines, made on the stack.
ghost use Rattle.std.specs.Prelude.{◌≡◌, ◌+◌, ◌≤◌, ◌++◌, length, decimal};
ghost use Rattle.arrayvec.specs.ArrayVec.{array_vec_len};
ghost use Rattle.zint_answers.specs.Detail.{kind_text, unit_text, check_detail_of, limit_detail_of, place_detail_of, segment_detail_of, size_detail_of};
ghost use Rattle.zint_answers.specs.Report.{size_text};

use arrayvec::ArrayVec;
use aztec_layout::{NoFit, Size};
use itoa::Buffer;

/// What is wrong with data: the first word of the detail of its fault line.
#[derive(Debug, Clone, Copy, PartialEq, Eq)]
pub enum Kind {
    /// There is no data.
    Empty,
    /// A backslash begins no escape.
    Escape,
    /// A byte begins no whole character of UTF-8.
    Text,
    /// A character that the symbol does not take.
    Character,
    /// No number in the symbol's range.
    Number,
    /// A bracket of a GS1 element string is missing.
    Bracket,
    /// No GS1 application identifier that is known here.
    Identifier,
    /// A value that is too short or too long for its identifier.
    Length,
    /// No date.
    Date,
}

/// What a limit counts.
#[derive(Debug, Clone, Copy, PartialEq, Eq)]
pub enum Unit {
    Bytes,
    Elements,
}

/// A detail, which takes no memory of its own.
pub type Detail = ArrayVec<u8, 128>;

/// The word for a kind of bad data.
fn kind_word(kind: Kind) -> &'static [u8]
    ensures word { result.now ≡ kind_text kind }
    ensures short { length result.now ≤ 16 }
{
    match kind {
        Kind::Empty => b"empty",
        Kind::Escape => b"escape",
        Kind::Text => b"text",
        Kind::Character => b"character",
        Kind::Number => b"number",
        Kind::Bracket => b"bracket",
        Kind::Identifier => b"identifier",
        Kind::Length => b"length",
        Kind::Date => b"date",
    }
}

/// The word for what a limit counts.
fn unit_word(unit: Unit) -> &'static [u8]
    ensures word { result.now ≡ unit_text unit }
    ensures short { length result.now ≤ 16 }
{
    match unit {
        Unit::Bytes => b"bytes",
        Unit::Elements => b"elements",
    }
}

/// Puts a piece at the end of a detail that has the room.
pub(crate) fn put(detail: &mut Detail, piece: &[u8])
    requires { array_vec_len detail.old + length piece.now ≤ 128 }
    ensures items { detail.new.items ≡ detail.old.items ++ piece.now }
    ensures counted { array_vec_len detail.new ≡ array_vec_len detail.old + length piece.now }
{
    detail.try_extend_from_slice(piece).unwrap();
}

/// Puts the decimal digits of a number, at most 20, at the end of a detail that has the room.
pub(crate) fn put_digits(detail: &mut Detail, number: u64)
    requires { array_vec_len detail.old + 20 ≤ 128 }
    ensures items { detail.new.items ≡ detail.old.items ++ decimal number }
    ensures counted { array_vec_len detail.new ≤ array_vec_len detail.old + 20 }
{
    let mut buffer = Buffer::new();
    put(detail, buffer.format(number).as_bytes());
}

/// Puts the name of a size at the end of a detail that has the room.
fn put_name(detail: &mut Detail, size: Size)
    requires { array_vec_len detail.old + 28 ≤ 128 }
    ensures items { detail.new.items ≡ detail.old.items ++ size_text size }
    ensures counted { array_vec_len detail.new ≤ array_vec_len detail.old + 28 }
{
    put(detail, if size.full { b"full " } else { b"compact " });
    put_digits(detail, u64::from(size.layers));
}

/// The detail of bad data: its kind and its place in bytes from 0, as in `number at 0`.
pub(crate) fn place_detail(kind: Kind, place: u64) -> Detail
    ensures { result.items ≡ place_detail_of kind place }
{
    let mut detail: Detail = ArrayVec::new();
    put(&mut detail, kind_word(kind));
    put(&mut detail, b" at ");
    put_digits(&mut detail, place);
    detail
}

/// The detail of bad data in a segment behind the first: its kind, its place in bytes from 0 and the number of the segment, as in
/// `character at 0 in segment 1`.
pub(crate) fn segment_detail(kind: Kind, place: u64, segment: u32) -> Detail
    ensures { result.items ≡ segment_detail_of kind place segment }
{
    let mut detail: Detail = ArrayVec::new();
    put(&mut detail, kind_word(kind));
    put(&mut detail, b" at ");
    put_digits(&mut detail, place);
    put(&mut detail, b" in segment ");
    put_digits(&mut detail, u64::from(segment));
    detail
}

/// The detail of a wrong check digit: the digit, its place in bytes from 0 and the digit that it should be, as in `4 at 17, wanted 3`.
pub(crate) fn check_detail(given: u8, place: u64, wanted: u8) -> Detail
    ensures { result.items ≡ check_detail_of given place wanted }
{
    let mut detail: Detail = ArrayVec::new();
    put_digits(&mut detail, u64::from(given));
    put(&mut detail, b" at ");
    put_digits(&mut detail, place);
    put(&mut detail, b", wanted ");
    put_digits(&mut detail, u64::from(wanted));
    detail
}

/// The detail of a passed limit, as in `more than 65536 bytes`; `unit` names what is counted.
pub(crate) fn limit_detail(limit: u64, unit: Unit) -> Detail
    ensures { result.items ≡ limit_detail_of limit unit }
{
    let mut detail: Detail = ArrayVec::new();
    put(&mut detail, b"more than ");
    put_digits(&mut detail, limit);
    put(&mut detail, b" ");
    put(&mut detail, unit_word(unit));
    detail
}

/// The detail of data that no allowed size holds: the codewords that it needs and those that the last allowed size holds, as in
/// `1279 data codewords, full 32 holds 1278`.
pub(crate) fn size_detail(misfit: NoFit) -> Detail
    ensures { result.items ≡ size_detail_of misfit }
{
    let mut detail: Detail = ArrayVec::new();
    put_digits(&mut detail, u64::from(misfit.needed));
    put(&mut detail, b" data codewords, ");
    put_name(&mut detail, misfit.last);
    put(&mut detail, b" holds ");
    put_digits(&mut detail, u64::from(misfit.held));
    detail
}

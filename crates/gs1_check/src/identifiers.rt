//! The application identifiers and the values that they take.
ghost use Rattle.std.specs.Prelude.{◌≡◌, ◌≤◌, length, find};
ghost use Rattle.gs1_check.specs.Identifiers.{has_identifier, has_predefined_length, identifier_format, identifier_number, identifier_size, numbered_format};

use crate::slices::two_digits;

/// What is tested of a value besides its length and its characters.
#[derive(Clone, Copy, Debug, PartialEq, Eq)]
pub enum Rule {
    /// Nothing.
    Plain,
    /// The value is a date YYMMDD.
    Date,
    /// The last digit of the numeric part is its check digit.
    Check,
}

/// The values of an identifier: `least` to `most` bytes, the first `digits` of which, as far as they are there, are
/// digits.
#[derive(Clone, Copy, Debug)]
pub struct Format {
    pub least: u8,
    pub most: u8,
    pub digits: u8,
    pub rule: Rule,
}

/// The identifiers of `length` digits from `first` to `last` whose last digit is at most `last_digit`.
#[derive(Clone, Copy, Debug)]
pub struct Row {
    pub length: usize,
    pub first: u32,
    pub last: u32,
    pub last_digit: u32,
    pub format: Format,
}

// The values of a row: N is digits, X any bytes of the alphabet; C marks a check digit, the last of the first digits,
// and D a date.
macro_rules! values {
    (N $count:literal) => { values!($count $count $count Plain) };
    (N $count:literal C) => { values!($count $count $count Check) };
    (N $count:literal D) => { values!($count $count $count Date) };
    (N $least:literal to $most:literal) => { values!($least $most $most Plain) };
    (X $least:literal to $most:literal) => { values!($least $most 0 Plain) };
    (N $count:literal C then X $least:literal to $most:literal) => { values!(($count + $least) ($count + $most) $count Check) };
    (N $count:literal then X $least:literal to $most:literal) => { values!(($count + $least) ($count + $most) $count Plain) };
    (N $count:literal then N $least:literal to $most:literal) => { values!(($count + $least) ($count + $most) ($count + $most) Plain) };
    ($least:tt $most:tt $digits:tt $rule:ident) => { Format { least: $least, most: $most, digits: $digits, rule: Rule::$rule } };
}

// The identifiers of so many digits from the first to the last; where n is said, those whose last digit is at most
// that.
macro_rules! row {
    ($length:literal digits, $first:literal to $last:literal: $($values:tt)+) => { row!($length digits, $first to $last, n 0 to 9: $($values)+) };
    ($length:literal digits, $first:literal to $last:literal, n 0 to $last_digit:literal: $($values:tt)+) => {
        Row { length: $length, first: $first, last: $last, last_digit: $last_digit, format: values!($($values)+) }
    };
}

/// The identifiers, a row as the directory of the GS1 General Specifications has it.
pub const ROWS: [Row; 39] = [
    row!(2 digits, 0 to 0: N 18 C),
    row!(2 digits, 1 to 2: N 14 C),
    row!(2 digits, 10 to 10: X 1 to 20),
    row!(2 digits, 11 to 13: N 6 D),
    row!(2 digits, 15 to 17: N 6 D),
    row!(2 digits, 20 to 20: N 2),
    row!(2 digits, 21 to 22: X 1 to 20),
    row!(2 digits, 30 to 30: N 1 to 8),
    row!(2 digits, 37 to 37: N 1 to 8),
    row!(2 digits, 90 to 90: X 1 to 30),
    row!(2 digits, 91 to 99: X 1 to 90),
    row!(3 digits, 235 to 235: X 1 to 28),
    row!(3 digits, 240 to 241: X 1 to 30),
    row!(3 digits, 242 to 242: N 1 to 6),
    row!(3 digits, 243 to 243: X 1 to 20),
    row!(3 digits, 250 to 251: X 1 to 30),
    row!(3 digits, 253 to 253: N 13 C then X 0 to 17),
    row!(3 digits, 254 to 254: X 1 to 20),
    row!(3 digits, 400 to 401: X 1 to 30),
    row!(3 digits, 402 to 402: N 17 C),
    row!(3 digits, 403 to 403: X 1 to 30),
    row!(3 digits, 410 to 417: N 13 C),
    row!(3 digits, 420 to 420: X 1 to 20),
    row!(3 digits, 421 to 421: N 3 then X 1 to 9),
    row!(3 digits, 422 to 422: N 3),
    row!(4 digits, 3100 to 3169, n 0 to 5: N 6),
    row!(4 digits, 3200 to 3379, n 0 to 5: N 6),
    row!(4 digits, 3400 to 3579, n 0 to 5: N 6),
    row!(4 digits, 3600 to 3699, n 0 to 5: N 6),
    row!(4 digits, 3900 to 3909, n 0 to 3: N 1 to 15),
    row!(4 digits, 3910 to 3919, n 0 to 3: N 3 then N 1 to 15),
    row!(4 digits, 3920 to 3929, n 0 to 3: N 1 to 15),
    row!(4 digits, 3930 to 3939, n 0 to 3: N 3 then N 1 to 15),
    row!(4 digits, 7001 to 7001: N 13),
    row!(4 digits, 7002 to 7002: X 1 to 30),
    row!(4 digits, 8002 to 8002: X 1 to 20),
    row!(4 digits, 8005 to 8005: N 6),
    row!(4 digits, 8017 to 8018: N 18 C),
    row!(4 digits, 8020 to 8020: X 1 to 25),
];

/// The values of the identifier; None where the digits are no identifier.
#[tactic(auto, unfolding(crate::specs::Identifiers::identifier_format))]
pub fn identifier_format(identifier: &[u8]) -> Option<Format>
    ensures { result ≡ identifier_format identifier.now }
{
    if identifier.len() > 4 {
        return None;
    }
    match identifier_number(identifier) {
        Some(number) => numbered_format(identifier.len(), number),
        None => None,
    }
}

#[tactic(auto, unfolding(crate::specs::Identifiers::numbered_format))]
fn numbered_format(length: usize, number: u32) -> Option<Format>
    ensures { result ≡ numbered_format length number }
{
    match row_with(length, number) {
        Some(row) => Some(row.format),
        None => None,
    }
}

fn row_with(length: usize, number: u32) -> Option<Row>
    ensures { result ≡ find (has_identifier length number) ROWS }
{
    ROWS.iter().copied().find(|row| {
        row.length == length
            && row.first <= number
            && number <= row.last
            && number % 10 <= row.last_digit
    })
}

// The number that at most four digits write; None where one is no digit.
fn identifier_number(digits: &[u8]) -> Option<u32>
    requires few { length digits.now ≤ 4 }
    ensures { result ≡ identifier_number digits.now }
{
    let mut number = 0;
    for digit in digits {
        number = number * 10 + char::from(*digit).to_digit(10)?;
    }
    Some(number)
}

/// Whether the element strings of the identifier have a predefined length, by its first two digits.
#[tactic(auto, unfolding(crate::specs::Identifiers::has_predefined_length))]
pub fn has_predefined_length(identifier: &[u8]) -> bool
    ensures { result ≡ has_predefined_length identifier.now }
{
    let lead = two_digits(identifier, 0);
    lead <= 4 || 11 <= lead && lead <= 20 || 31 <= lead && lead <= 36 || lead == 41
}

/// How many digits an identifier has whose first two are this number.
#[tactic(auto, unfolding(crate::specs::Identifiers::identifier_size))]
pub fn identifier_size(lead: u32) -> usize
    ensures { result ≡ identifier_size lead }
{
    if 23 <= lead && lead <= 25 || 40 <= lead && lead <= 42 {
        3
    } else if 31 <= lead && lead <= 36 || lead == 39 || lead == 70 || lead == 80 {
        4
    } else {
        2
    }
}

//! Code 93.
ghost use Rattle.std.specs.Prelude.{◌≡◌, ◌<◌, ◌≤◌, ◌++◌, All, OnOk, IfOk, length, vec_len};
ghost use Rattle.bar_base.specs.Stripes.{row_picture};
ghost use Rattle.bar_base.specs.Results.{Gives};
ghost use Rattle.bar_base.specs.Text.{refusal_of};
ghost use Rattle.linear_codes.specs.Code93.{values93, weighted_check, checks93, symbol_widths93, code93_of};

use crate::characters::character_value;
use crate::code93_table::{START, WIDTHS, shift_of, widths93};
use crate::full_ascii::{full_ascii_letter, full_ascii_sign};
use crate::patterns::push_patterns;
use crate::short_lists::values_there;
use bar_base::{
    Characters, Grid, Linear, LinearFault, NoMemory, Short, row_of_widths, values_of_text,
};
use std::alloc::Global;

/// The most bytes of a text in Code 93.
pub const CODE93_MOST_BYTES: usize = 107;

/// The bytes of Code 93: its characters, and the other bytes of ASCII behind a shift character.
struct Ascii;

impl Characters for Ascii {
    ghost values = { values93 };

    ghost bound = { 47 };

    ghost longest = { 2 };

    #[tactic(auto, unfolding(crate::specs::Code93::values93, crate::specs::Code93::values_or_shifted))]
    fn values(byte: u8) -> Short<2> {
        match character_value(byte) {
            Some(value) => values_there(Some(value), None),
            None => values_there(
                shift_of(full_ascii_sign(byte)),
                character_value(full_ascii_letter(byte)),
            ),
        }
    }
}

/// The values of the one or two characters of a byte in Code 93, each below 47; none from byte 128 on (AIM Code 93).
pub fn values93(byte: u8) -> Short<2>
    ensures values { result ≡ values93 byte }
    ensures bounded { All (λ value. value < 47) result }
{
    Ascii::values(byte)
}

/// The symbol of a text of at most 107 bytes of ASCII in Code 93 (AIM Code 93), with the check characters C and K.
/// `BadCharacter` names the first other byte, and `TooLong` comes after that test.
#[tactic(auto, unfolding(crate::specs::Code93::code93_of, crate::specs::Code93::symbol93))]
pub fn code93(alloc: Global, text: &[u8]) -> Result<Linear, LinearFault>
    ensures { Gives refusal_of (λ drawn. drawn) result (code93_of text.now) }
{
    let mut values = values_of_text::<Ascii>(alloc, text, CODE93_MOST_BYTES)?;
    let checks = push_checks93(&mut values)?;
    let grid = picture(alloc, &values)?;
    Ok(Linear { grid, checks })
}

/// Puts the check characters C and K of at most 16,384 values at their end, and answers them.
#[tactic(auto, unfolding(crate::specs::Code93::checks93))]
pub fn push_checks93(values: &mut Vec<u8>) -> Result<Short<2>, NoMemory>
    requires bounded { All (λ value. value < 47) values.old.items }
    requires few { vec_len values.old ≤ 16384 }
    ensures checks { IfOk result (λ checks. checks ≡ checks93 values.old.items) }
    ensures pushed { OnOk result (values.new.items ≡ values.old.items ++ checks93 values.old.items) }
    ensures bounded { OnOk result (All (λ value. value < 47) values.new.items) }
{
    let c = check(values, 20);
    values.push(c)?;
    let k = check(values, 15);
    values.push(k)?;
    let mut checks = Short::new();
    checks.push(c);
    checks.push(k);
    Ok(checks)
}

/// A check character: the sum of the values by weights, which are 1, 2 up to `most` and again from 1, from the right, modulo 47.
#[tactic(auto, unfolding(crate::specs::Code93::weighted_check))]
fn check(values: &[u8], most: usize) -> u8
    requires some { 1 ≤ most }
    requires small { most ≤ 20 }
    requires few { length values.now ≤ 16385 }
    ensures value { result ≡ weighted_check most values.now }
    ensures bounded { result < 47 }
{
    let mut sum: u32 = 0;
    for (place, value) in values.iter().enumerate() {
        let behind = values.len() - 1 - place;
        sum += (behind % most + 1) as u32 * u32::from(*value);
    }
    (sum % 47) as u8
}

/// The row of characters with these values.
fn picture(alloc: Global, values: &[u8]) -> Result<Grid, NoMemory>
    requires bounded { All (λ value. value < 47) values.now }
    requires few { length values.now ≤ 300 }
    ensures { IfOk result (λ grid. grid ≡ row_picture (symbol_widths93 values.now)) }
{
    let widths = symbol_widths(alloc, values)?;
    row_of_widths(alloc, &widths)
}

/// The widths of the symbol of characters with these values.
#[tactic(auto, unfolding(crate::specs::Code93::symbol_widths93, crate::specs::Code93::widths93))]
fn symbol_widths(alloc: Global, values: &[u8]) -> Result<Vec<u8>, NoMemory>
    requires { All (λ value. value < 47) values.now }
    ensures { IfOk result (λ widths. widths.items ≡ symbol_widths93 values.now) }
{
    let mut widths = Vec::from_slice(alloc, widths93(START))?;
    push_patterns(&mut widths, &WIDTHS, &[], values)?;
    push_patterns(&mut widths, &WIDTHS, &[], &[START])?;
    widths.push(1)?;
    Ok(widths)
}

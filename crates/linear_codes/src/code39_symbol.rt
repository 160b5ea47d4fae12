//! Code 39 and its extended form.
ghost use Rattle.std.specs.Prelude.{◌≡◌, ◌<◌, ◌≤◌, ◌++◌, All, Ok, IfOk, length};
ghost use Rattle.bar_base.specs.Results.{Gives};
ghost use Rattle.bar_base.specs.Text.{refusal_of};
ghost use Rattle.linear_codes.specs.Code39.{values39, values39_full, check39, checks39, symbol_widths39, symbol39, code39_of, code39_full_of};

use crate::characters::character_value;
use crate::code39_table::{STAR, WIDTHS, widths39};
use crate::full_ascii::{OWN, full_ascii_letter, full_ascii_sign};
use crate::patterns::push_patterns;
use crate::short_lists::values_there;
use bar_base::{Characters, Linear, LinearFault, NoMemory, Short, row_of_widths, values_of_text};
use std::alloc::Global;

/// The most bytes of a text in Code 39 and in its extended form.
pub const CODE39_MOST_BYTES: usize = 85;

/// The narrow space between two characters.
const NARROW: [u8; 1] = [1];

/// The bytes of Code 39: its characters, lower-case letters standing for upper-case ones.
struct Plain;

impl Characters for Plain {
    ghost values = { values39 };

    ghost bound = { 43 };

    ghost longest = { 1 };

    #[tactic(auto, unfolding(crate::specs::Code39::values39))]
    fn values(byte: u8) -> Short<2> {
        values_there(character_value(byte.to_ascii_uppercase()), None)
    }
}

/// The bytes of extended Code 39, each spelled by one or two characters.
struct Extended;

impl Characters for Extended {
    ghost values = { values39_full };

    ghost bound = { 43 };

    ghost longest = { 2 };

    #[tactic(auto, unfolding(crate::specs::Code39::values39_full))]
    fn values(byte: u8) -> Short<2> {
        let sign = full_ascii_sign(byte);
        if sign == OWN {
            values_there(character_value(byte), None)
        } else {
            values_there(
                character_value(sign),
                character_value(full_ascii_letter(byte)),
            )
        }
    }
}

/// The values of the one or two characters of a byte in extended Code 39, each below 43; none from byte 128 on (ISO/IEC 16388, full
/// ASCII character set).
pub fn values39_full(byte: u8) -> Short<2>
    ensures values { result ≡ values39_full byte }
    ensures bounded { All (λ value. value < 43) result }
{
    Extended::values(byte)
}

/// The symbol of a text of at most 85 characters of Code 39 (ISO/IEC 16388), lower-case letters being raised, with a check character
/// where `check`. `BadCharacter` names the first byte that is no character, and `TooLong` comes after that test.
#[tactic(auto, unfolding(crate::specs::Code39::code39_of))]
pub fn code39(alloc: Global, text: &[u8], check: bool) -> Result<Linear, LinearFault>
    ensures { Gives refusal_of (λ drawn. drawn) result (code39_of text.now check) }
{
    let values = values_of_text::<Plain>(alloc, text, CODE39_MOST_BYTES)?;
    let checks = checks(&values, check);
    symbol(alloc, &values, checks)
}

/// The symbol of a text of at most 85 bytes of ASCII in extended Code 39 (ISO/IEC 16388, full ASCII character set), without check
/// character. `BadCharacter` names the first other byte, and `TooLong` comes after that test.
#[tactic(auto, unfolding(crate::specs::Code39::code39_full_of))]
pub fn code39_full(alloc: Global, text: &[u8]) -> Result<Linear, LinearFault>
    ensures { Gives refusal_of (λ drawn. drawn) result (code39_full_of text.now) }
{
    let values = values_of_text::<Extended>(alloc, text, CODE39_MOST_BYTES)?;
    symbol(alloc, &values, Short::new())
}

/// The check values: the check character where it is asked for.
#[tactic(auto, unfolding(crate::specs::Code39::checks39))]
fn checks(values: &[u8], check: bool) -> Short<2>
    requires { length values.now ≤ 170 }
    ensures checks { result ≡ checks39 values.now check }
    ensures bounded { All (λ value. value < 43) result }
{
    let mut checks = Short::new();
    if check {
        checks.push(check39(values));
    }
    checks
}

/// The check character: the sum of the values, modulo 43.
#[tactic(auto, unfolding(crate::specs::Code39::check39))]
fn check39(values: &[u8]) -> u8
    requires { length values.now ≤ 170 }
    ensures value { result ≡ check39 values.now }
    ensures bounded { result < 43 }
{
    let sum: u32 = values.iter().map(|value| u32::from(*value)).sum();
    (sum % 43) as u8
}

/// The symbol of these values and check values.
#[tactic(auto, unfolding(crate::specs::Code39::symbol39))]
fn symbol(alloc: Global, values: &[u8], checks: Short<2>) -> Result<Linear, LinearFault>
    requires values { All (λ value. value < 43) values.now }
    requires checks { All (λ value. value < 43) checks }
    requires few { length values.now ≤ 170 }
    ensures { Gives refusal_of (λ drawn. drawn) result (Ok (symbol39 values.now checks)) }
{
    let widths = symbol_widths(alloc, values, checks.as_slice())?;
    let grid = row_of_widths(alloc, &widths)?;
    Ok(Linear { grid, checks })
}

/// The widths of the symbol of these values and check values.
#[tactic(auto, unfolding(crate::specs::Code39::symbol_widths39, crate::specs::Code39::widths39))]
fn symbol_widths(alloc: Global, values: &[u8], checks: &[u8]) -> Result<Vec<u8>, NoMemory>
    requires values { All (λ value. value < 43) values.now }
    requires checks { All (λ value. value < 43) checks.now }
    ensures { IfOk result (λ widths. widths.items ≡ symbol_widths39 (values.now ++ checks.now)) }
{
    let mut widths = Vec::from_slice(alloc, widths39(STAR))?;
    push_patterns(&mut widths, &WIDTHS, &NARROW, values)?;
    push_patterns(&mut widths, &WIDTHS, &NARROW, checks)?;
    push_patterns(&mut widths, &WIDTHS, &NARROW, &[STAR])?;
    Ok(widths)
}

//! Aztec runes (ISO/IEC 24778): a number from 0 to 255.
ghost use Rattle.std.specs.Prelude.{◌≡◌, ◌≤◌, ◌<◌, true, IfOk, length};
ghost use Rattle.std.specs.Char.{is_ascii_digit};
ghost use Rattle.std.specs.List.{list_all};
ghost use Rattle.std.specs.Str.Parse.{digits_value};
ghost use Rattle.bar_base.specs.Steps.{only};
ghost use Rattle.zint_answers.specs.Steps.{MayAnswer};
ghost use Rattle.zint_draw.specs.symbologies.Rune.{draws_rune, draws_value, is_short_number, rune_head, rune_number, rune_value};

use crate::symbologies::Symbol;
use aztec_layout::{rune, rune_words};
use bar_base::{Grid, NoMemory, Short};
use std::alloc::Global;
use zint_answers::{Fault, Kind, Refusal, put_numbers, put_text};

/// An Aztec rune.
#[derive(Debug, Drop)]
pub struct RuneSymbol {
    /// The 4-bit words of its mode message, before every second bit is turned.
    pub words: Short<7>,
    /// The modules.
    pub grid: Grid,
}

/// The rune of data.
#[tactic(auto, using(zint_answers::proofs::Steps::stepping), unfolding(crate::specs::symbologies::Rune::draws_rune))]
pub fn draw(alloc: Global, bytes: &[u8]) -> Result<Symbol, Fault>
    ensures { MayAnswer (λ symbol. symbol) result (draws_rune bytes.now) }
{
    let value = rune_value(bytes)?;
    draw_value(alloc, value)
}

/// The value of data.
fn rune_value(bytes: &[u8]) -> Result<u8, Fault>
    ensures { MayAnswer (λ value. value) result (only (rune_value bytes.now)) }
{
    match rune_number(bytes) {
        Some(value) => Ok(value),
        None => Err(Fault::Refused(Refusal::BadData(Kind::Number, 0))),
    }
}

/// The number, at most 255, that 1 to 3 decimal digits write; None for any other data.
#[tactic(auto, unfolding(crate::specs::symbologies::Rune::rune_number))]
fn rune_number(bytes: &[u8]) -> Option<u8>
    ensures { result ≡ rune_number bytes.now }
{
    if !is_short_number(bytes) {
        return None;
    }
    let number = digits_number(bytes);
    if number > 255 {
        return None;
    }
    Some(number as u8)
}

/// Whether the data is 1 to 3 decimal digits.
fn is_short_number(bytes: &[u8]) -> bool
    ensures { result ≡ is_short_number bytes.now }
{
    !bytes.is_empty() && bytes.len() <= 3 && are_digits(bytes)
}

fn are_digits(bytes: &[u8]) -> bool
    ensures { result ≡ list_all is_ascii_digit bytes.now }
{
    bytes.iter().all(|byte| byte.is_ascii_digit())
}

/// The number that the digits write.
fn digits_number(digits: &[u8]) -> u32
    requires { is_short_number digits.now ≡ true }
    ensures { result ≡ digits_value 10 digits.now }
{
    let mut number = 0;
    for digit in digits {
        number = number * 10 + u32::from(*digit - b'0');
    }
    number
}

/// The rune of a value.
fn draw_value(alloc: Global, value: u8) -> Result<Symbol, Fault>
    ensures { MayAnswer (λ symbol. symbol) result (draws_value value) }
{
    let words = rune_words(value);
    let grid = rune(alloc, value)?;
    Ok(Symbol::Rune(RuneSymbol { words, grid }))
}

/// The lines of the report before the grid: the words.
pub fn head(alloc: Global, symbol: &RuneSymbol) -> Result<Vec<u8>, NoMemory>
    ensures { IfOk result (λ head. head.items ≡ rune_head symbol.now) }
{
    let mut head = Vec::new(alloc);
    put_text(&mut head, b"symbol=128\nwords=")?;
    put_numbers(&mut head, symbol.words.as_slice())?;
    put_text(&mut head, b"\nside=11\ngrid:\n")?;
    Ok(head)
}

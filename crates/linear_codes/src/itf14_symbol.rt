//! ITF-14.
ghost use Rattle.std.specs.Prelude.{◌≡◌, ◌<◌, ◌≤◌, ◌++◌, All, Ok, OnOk, IfOk, length, vec_len};
ghost use Rattle.bar_base.specs.Results.{Gives};
ghost use Rattle.bar_base.specs.Text.{refusal_of};
ghost use Rattle.linear_codes.specs.Itf14.{digit_values, thirteen, filled_to_thirteen, element_width, in_turn, digit_pairs, symbol_widths14, symbol14, itf14_of};

use crate::itf14_table::{START, STOP, digit_elements};
use bar_base::{
    Characters, Linear, LinearFault, NoMemory, Short, check_digit, row_of_widths, values_of_text,
};
use std::alloc::Global;

/// The most digits of a text in ITF-14.
pub const ITF14_MOST_DIGITS: usize = 14;

/// The bytes of ITF-14: digits.
struct Digits;

impl Characters for Digits {
    ghost values = { digit_values };

    ghost bound = { 10 };

    ghost longest = { 1 };

    #[tactic(auto, unfolding(crate::specs::Itf14::digit_values))]
    fn values(byte: u8) -> Short<2> {
        let mut values = Short::new();
        if b'0' <= byte && byte <= b'9' {
            values.push(byte - b'0');
        }
        values
    }
}

/// The symbol of 1 to 13 digits, filled with zeros on the left to 13, with their check digit, or of 14 digits, the last of which must be
/// the check digit of the others (ISO/IEC 16390, GS1 General Specifications). `BadCharacter` names the first byte that is no digit,
/// `TooLong` comes after that test, and after both `BadCheck` with the place 13, the digit given and the one wanted.
#[tactic(auto, unfolding(crate::specs::Itf14::itf14_of))]
pub fn itf14(alloc: Global, text: &[u8]) -> Result<Linear, LinearFault>
    ensures { Gives refusal_of (λ drawn. drawn) result (itf14_of text.now) }
{
    let digits = values_of_text::<Digits>(alloc, text, ITF14_MOST_DIGITS)?;
    let front = thirteen(alloc, &digits)?;
    symbol(alloc, &front)
}

/// The thirteen digits before the check digit.
#[tactic(auto, unfolding(crate::specs::Itf14::thirteen))]
fn thirteen(alloc: Global, digits: &[u8]) -> Result<Vec<u8>, LinearFault>
    requires bounded { All (λ digit. digit < 10) digits.now }
    requires few { length digits.now ≤ 14 }
    ensures front { Gives refusal_of (λ front. front.items) result (thirteen digits.now) }
    ensures bounded { IfOk result (λ front. All (λ digit. digit < 10) front.items) }
    ensures long { IfOk result (λ front. vec_len front ≡ 13) }
{
    if digits.len() != 14 {
        return Ok(filled_to_thirteen(alloc, digits)?);
    }
    let front = &digits[..13];
    let given = digits[13];
    let wanted = check_digit(front);
    if given != wanted {
        return Err(LinearFault::BadCheck(13, given, wanted));
    }
    Ok(Vec::from_slice(alloc, front)?)
}

/// The digits behind as many zeros as make them thirteen.
fn filled_to_thirteen(alloc: Global, digits: &[u8]) -> Result<Vec<u8>, NoMemory>
    requires bounded { All (λ digit. digit < 10) digits.now }
    requires few { length digits.now ≤ 13 }
    ensures front { IfOk result (λ front. front.items ≡ filled_to_thirteen digits.now) }
    ensures bounded { IfOk result (λ front. All (λ digit. digit < 10) front.items) }
    ensures long { IfOk result (λ front. vec_len front ≡ 13) }
{
    let mut front = vec![in alloc; 0; 13 - digits.len()]?;
    front.extend_from_slice(digits)?;
    Ok(front)
}

/// The symbol of thirteen digits and their check digit.
#[tactic(auto, unfolding(crate::specs::Itf14::symbol14))]
fn symbol(alloc: Global, front: &[u8]) -> Result<Linear, LinearFault>
    requires bounded { All (λ digit. digit < 10) front.now }
    requires long { length front.now ≡ 13 }
    ensures { Gives refusal_of (λ drawn. drawn) result (Ok (symbol14 front.now)) }
{
    let check = check_digit(front);
    let mut digits = Vec::from_slice(alloc, front)?;
    digits.push(check)?;
    let widths = symbol_widths(alloc, &digits)?;
    let grid = row_of_widths(alloc, &widths)?;
    let mut checks = Short::new();
    checks.push(check);
    Ok(Linear { grid, checks })
}

/// The widths of the symbol of fourteen digits.
#[tactic(auto, unfolding(crate::specs::Itf14::symbol_widths14))]
fn symbol_widths(alloc: Global, digits: &[u8]) -> Result<Vec<u8>, NoMemory>
    requires { All (λ digit. digit < 10) digits.now }
    ensures { IfOk result (λ widths. widths.items ≡ symbol_widths14 digits.now) }
{
    let elements = symbol_elements(alloc, digits)?;
    let widths = elements
        .iter()
        .map(|element| width(*element))
        .collect(alloc)?;
    Ok(widths)
}

/// The width of an element in modules: 1 narrow, 3 wide.
fn width(element: u8) -> u8
    ensures { result ≡ element_width element }
{
    if element == 2 { 3 } else { 1 }
}

/// The elements of the symbol of fourteen digits.
fn symbol_elements(alloc: Global, digits: &[u8]) -> Result<Vec<u8>, NoMemory>
    requires { All (λ digit. digit < 10) digits.now }
    ensures { IfOk result (λ elements. elements.items ≡ START ++ digit_pairs digits.now ++ STOP) }
{
    let mut elements = Vec::from_slice(alloc, &START)?;
    push_pairs(&mut elements, digits)?;
    elements.extend_from_slice(&STOP)?;
    Ok(elements)
}

/// Puts the elements of pairs of digits at the end.
fn push_pairs(elements: &mut Vec<u8>, digits: &[u8]) -> Result<(), NoMemory>
    requires { All (λ digit. digit < 10) digits.now }
    ensures { OnOk result (elements.new.items ≡ elements.old.items ++ digit_pairs digits.now) }
{
    let [first, second, rest @ ..] = digits else {
        return Ok(());
    };
    push_in_turn(elements, digit_elements(*first), digit_elements(*second))?;
    push_pairs(elements, rest)?;
    Ok(())
}

/// Puts bars and spaces at the end, in turn.
fn push_in_turn(elements: &mut Vec<u8>, bars: &[u8], spaces: &[u8]) -> Result<(), NoMemory>
    requires { length spaces.now ≡ length bars.now }
    ensures { OnOk result (elements.new.items ≡ elements.old.items ++ in_turn bars.now spaces.now) }
{
    for (place, bar) in bars.iter().enumerate() {
        elements.push(*bar)?;
        elements.push(spaces[place])?;
    }
    Ok(())
}

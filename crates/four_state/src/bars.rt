//! The bars of one half of the symbol: its ascenders by rows, or its descenders by columns.
ghost use Rattle.std.specs.Prelude.{◌≡◌, ◌≤◌, ◌+◌, ◌*◌, ◌++◌, All, IfOk, OnOk, length, vec_len};
ghost use Rattle.std.specs.List.{flat_map};
ghost use Rattle.four_state.specs.FourState.{bars, check_number, long_bars};
ghost use Rattle.four_state.specs.Structure.{AreTwoOfFour};

use bar_base::NoMemory;
use std::alloc::Global;

/// Which of the four bars of a row or a column of the table of characters are long, for 1 to 6 in turn: the two whose weights sum to the
/// number, the weights being 4, 2, 1 and 0 from the left. A long bar of a row has an ascender, one of a column a descender.
pub const LONG_BARS: [[bool; 4]; 6] = [
    [false, false, true, true],
    [false, true, false, true],
    [false, true, true, false],
    [true, false, false, true],
    [true, false, true, false],
    [true, true, false, false],
];

/// Which of the four bars of a row or a column, 1 to 6, are long (RM4SCC, symbol characters).
#[tactic(auto, using(crate::proofs::TableLaws::two_of_four), unfolding(crate::specs::FourState::long_bars))]
pub fn long_bars(number: u8) -> &'static [bool]
    requires some { 1 ≤ number }
    requires small { number ≤ 6 }
    ensures bars { result.now ≡ long_bars number }
    ensures two_of_four { AreTwoOfFour number (long_bars number) }
{
    &LONG_BARS[(number - 1) as usize]
}

/// The row or the column of the check character: the sum of the rows or the columns modulo 6, 0 standing for 6.
#[tactic(auto, unfolding(crate::specs::FourState::check_number))]
pub(crate) fn check_number(numbers: &[u8]) -> u8
    requires { length numbers.now ≤ 50 }
    ensures value { result ≡ check_number numbers.now }
    ensures some { 1 ≤ result }
    ensures small { result ≤ 6 }
{
    let sum: u32 = numbers.iter().map(|number| u32::from(*number)).sum();
    if sum % 6 == 0 { 6 } else { (sum % 6) as u8 }
}

/// Which bars of a half are long: the start bar, the bars of the rows or columns and of their check, the stop bar.
#[tactic(auto, unfolding(crate::specs::FourState::bars))]
pub(crate) fn bars(alloc: Global, start: bool, numbers: &[u8]) -> Result<Vec<bool>, NoMemory>
    requires some { All (λ number. 1 ≤ number) numbers.now }
    requires small { All (λ number. number ≤ 6) numbers.now }
    requires few { length numbers.now ≤ 50 }
    ensures bars { IfOk result (λ found. found.items ≡ bars start numbers.now) }
    ensures long { IfOk result (λ found. vec_len found ≡ 4 * length numbers.now + 6) }
{
    let mut found = Vec::new(alloc);
    found.push(start)?;
    push_bars(&mut found, numbers)?;
    push_bars(&mut found, &[check_number(numbers)])?;
    found.push(true)?;
    Ok(found)
}

/// Puts the bars of rows or columns at the end.
fn push_bars(found: &mut Vec<bool>, numbers: &[u8]) -> Result<(), NoMemory>
    requires some { All (λ number. 1 ≤ number) numbers.now }
    requires small { All (λ number. number ≤ 6) numbers.now }
    ensures bars { OnOk result (found.new.items ≡ found.old.items ++ flat_map long_bars numbers.now) }
    ensures long { OnOk result (vec_len found.new ≡ vec_len found.old + 4 * length numbers.now) }
{
    for number in numbers {
        found.extend_from_slice(long_bars(*number))?;
    }
    Ok(())
}

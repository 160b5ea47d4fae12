//! The bars and spaces of interleaved 2 of 5.
ghost use Rattle.std.specs.Prelude.{◌≡◌, ℕ, ◌+◌, ◌*◌, ◌^◌, ◌<◌, ◌≤◌, length, replicate};
ghost use Rattle.bar_base.specs.Bits.{number_after};
ghost use Rattle.linear_codes.specs.Itf14.{digit_elements, element_width, pattern_itf_of, pair_pattern_of};
ghost use Rattle.linear_codes.specs.Structure.{IsTwoOfFive};

/// The five elements of each digit, 1 narrow and 2 wide (ISO/IEC 16390, symbol characters).
pub const ELEMENTS: [[u8; 5]; 10] = [
    [1, 1, 2, 2, 1],
    [2, 1, 1, 1, 2],
    [1, 2, 1, 1, 2],
    [2, 2, 1, 1, 1],
    [1, 1, 2, 1, 2],
    [2, 1, 2, 1, 1],
    [1, 2, 2, 1, 1],
    [1, 1, 1, 2, 2],
    [2, 1, 1, 2, 1],
    [1, 2, 1, 2, 1],
];

/// The elements of the start: narrow bars and spaces.
pub const START: [u8; 4] = [1, 1, 1, 1];

/// The elements of the stop: a wide bar, a narrow space, a narrow bar.
pub const STOP: [u8; 3] = [2, 1, 1];

/// The elements of a digit.
#[tactic(auto, unfolding(crate::specs::Itf14::digit_elements))]
pub(crate) fn digit_elements(digit: u8) -> &'static [u8]
    requires { digit ≤ 9 }
    ensures elements { result.now ≡ digit_elements digit }
    ensures long { length result.now ≡ 5 }
{
    &ELEMENTS[digit as usize]
}

/// The five elements of a digit as a number, whose binary digits from the left are the elements, wide as 1 (ISO/IEC 16390, symbol
/// characters). The digit is at most 9.
#[tactic(auto, using(crate::proofs::TableLaws::two_of_five), unfolding(crate::specs::Itf14::pattern_itf_of))]
pub fn pattern_itf(digit: u8) -> u8
    requires { digit ≤ 9 }
    ensures elements { result ≡ pattern_itf_of digit }
    ensures two_of_five { IsTwoOfFive digit (digit_elements digit) }
    ensures only { (other : ℕ) → other ≤ 9 → pattern_itf_of other ≡ result → other ≡ digit }
{
    let mut number = 0;
    for element in digit_elements(digit) {
        number = number * 2 + u8::from(*element == 2);
    }
    number
}

/// The eighteen modules of two digits as a number, whose binary digits from the left are the modules, dark as 1: the bars are those of
/// the first digit, the spaces those of the second (ISO/IEC 16390, symbol structure). Both are at most 9.
#[tactic(auto, unfolding(crate::specs::Itf14::pair_pattern_of))]
pub fn pattern_pair(first: u8, second: u8) -> u32
    requires first { first ≤ 9 }
    requires second { second ≤ 9 }
    ensures modules { result ≡ pair_pattern_of first second }
{
    let bars = digit_elements(first);
    let spaces = digit_elements(second);
    let mut number = 0;
    for (place, bar) in bars.iter().enumerate() {
        let with_bar = with_element(number, *bar, true);
        number = with_element(with_bar, spaces[place], false);
    }
    number
}

/// A number with the binary digits of a bar or a space behind its own.
fn with_element(number: u32, element: u8, dark: bool) -> u32
    requires { number < 2 ^ 29 }
    ensures digits { result ≡ number_after number (replicate (element_width element) dark) }
    ensures bounded { result + 1 ≤ (number + 1) * 8 }
{
    let digit = u32::from(dark);
    if element == 2 {
        number * 8 + digit * 7
    } else {
        number * 2 + digit
    }
}

//! The bars and spaces of Code 93.
ghost use Rattle.std.specs.Prelude.{◌≡◌, ℕ, ◌<◌, ◌≤◌, IfSome, sum};
ghost use Rattle.linear_codes.specs.Code93.{shift_of, widths93, pattern93_of};

use bar_base::number_of_widths;

/// The widths in modules of the bars and spaces of each character in turn, by the values of the characters; 43 to 46 are the shift
/// characters ($), (%), (/) and (+), and the last starts and stops a symbol (AIM Code 93).
pub const WIDTHS: [[u8; 6]; 48] = [
    [1, 3, 1, 1, 1, 2],
    [1, 1, 1, 2, 1, 3],
    [1, 1, 1, 3, 1, 2],
    [1, 1, 1, 4, 1, 1],
    [1, 2, 1, 1, 1, 3],
    [1, 2, 1, 2, 1, 2],
    [1, 2, 1, 3, 1, 1],
    [1, 1, 1, 1, 1, 4],
    [1, 3, 1, 2, 1, 1],
    [1, 4, 1, 1, 1, 1],
    [2, 1, 1, 1, 1, 3],
    [2, 1, 1, 2, 1, 2],
    [2, 1, 1, 3, 1, 1],
    [2, 2, 1, 1, 1, 2],
    [2, 2, 1, 2, 1, 1],
    [2, 3, 1, 1, 1, 1],
    [1, 1, 2, 1, 1, 3],
    [1, 1, 2, 2, 1, 2],
    [1, 1, 2, 3, 1, 1],
    [1, 2, 2, 1, 1, 2],
    [1, 3, 2, 1, 1, 1],
    [1, 1, 1, 1, 2, 3],
    [1, 1, 1, 2, 2, 2],
    [1, 1, 1, 3, 2, 1],
    [1, 2, 1, 1, 2, 2],
    [1, 3, 1, 1, 2, 1],
    [2, 1, 2, 1, 1, 2],
    [2, 1, 2, 2, 1, 1],
    [2, 1, 1, 1, 2, 2],
    [2, 1, 1, 2, 2, 1],
    [2, 2, 1, 1, 2, 1],
    [2, 2, 2, 1, 1, 1],
    [1, 1, 2, 1, 2, 2],
    [1, 1, 2, 2, 2, 1],
    [1, 2, 2, 1, 2, 1],
    [1, 2, 3, 1, 1, 1],
    [1, 2, 1, 1, 3, 1],
    [3, 1, 1, 1, 1, 2],
    [3, 1, 1, 2, 1, 1],
    [3, 2, 1, 1, 1, 1],
    [1, 1, 2, 1, 3, 1],
    [1, 1, 3, 1, 2, 1],
    [2, 1, 1, 1, 3, 1],
    [1, 2, 1, 2, 2, 1],
    [3, 1, 2, 1, 1, 1],
    [3, 1, 1, 1, 2, 1],
    [1, 2, 2, 2, 1, 1],
    [1, 1, 1, 1, 4, 1],
];

/// The value of the start, which the table has last.
pub const START: u8 = 47;

/// The signs of the shift characters ($), (%), (/) and (+), whose values are 43 to 46 (AIM Code 93).
pub const SHIFTS: [u8; 4] = *b"$%/+";

/// The value of a shift character.
#[tactic(auto, unfolding(crate::specs::Code93::shift_of))]
pub(crate) fn shift_of(sign: u8) -> Option<u8>
    ensures value { result ≡ shift_of sign }
    ensures bounded { IfSome result (λ value. value < 47) }
{
    match SHIFTS.iter().position(|shift| *shift == sign) {
        Some(place) => Some(43 + place as u8),
        None => None,
    }
}

/// The widths of a character.
#[tactic(auto, unfolding(crate::specs::Code93::widths93))]
pub(crate) fn widths93(value: u8) -> &'static [u8]
    requires { value ≤ 47 }
    ensures { result.now ≡ widths93 value }
{
    &WIDTHS[value as usize]
}

/// The nine modules of a character as a number, whose binary digits from the left are the modules, dark as 1 (AIM Code 93). The value is
/// at most 47, which is the start.
#[tactic(auto, using(crate::proofs::TableFacts::sum_widths93), unfolding(crate::specs::Code93::pattern93_of))]
pub fn pattern93(value: u8) -> u16
    requires { value ≤ 47 }
    ensures modules { result ≡ pattern93_of value }
    ensures nine { sum (widths93 value) ≡ 9 }
    ensures only { (other : ℕ) → other ≤ 47 → pattern93_of other ≡ result → other ≡ value }
{
    number_of_widths(widths93(value))
}

//! The bars and spaces of Code 39.
ghost use Rattle.std.specs.Prelude.{◌≡◌, ℕ, ◌≤◌};
ghost use Rattle.linear_codes.specs.Code39.{widths39, pattern39_of};
ghost use Rattle.linear_codes.specs.Itf14.{in_turn};
ghost use Rattle.linear_codes.specs.Structure.{bars39, spaces39};

use bar_base::number_of_widths;

/// The widths of the bars and spaces of each character in turn, 1 narrow and 2 wide, by the values of the characters; the last is `*`,
/// which starts and stops a symbol (ISO/IEC 16388, symbol characters).
pub const WIDTHS: [[u8; 9]; 44] = [
    [1, 1, 1, 2, 2, 1, 2, 1, 1],
    [2, 1, 1, 2, 1, 1, 1, 1, 2],
    [1, 1, 2, 2, 1, 1, 1, 1, 2],
    [2, 1, 2, 2, 1, 1, 1, 1, 1],
    [1, 1, 1, 2, 2, 1, 1, 1, 2],
    [2, 1, 1, 2, 2, 1, 1, 1, 1],
    [1, 1, 2, 2, 2, 1, 1, 1, 1],
    [1, 1, 1, 2, 1, 1, 2, 1, 2],
    [2, 1, 1, 2, 1, 1, 2, 1, 1],
    [1, 1, 2, 2, 1, 1, 2, 1, 1],
    [2, 1, 1, 1, 1, 2, 1, 1, 2],
    [1, 1, 2, 1, 1, 2, 1, 1, 2],
    [2, 1, 2, 1, 1, 2, 1, 1, 1],
    [1, 1, 1, 1, 2, 2, 1, 1, 2],
    [2, 1, 1, 1, 2, 2, 1, 1, 1],
    [1, 1, 2, 1, 2, 2, 1, 1, 1],
    [1, 1, 1, 1, 1, 2, 2, 1, 2],
    [2, 1, 1, 1, 1, 2, 2, 1, 1],
    [1, 1, 2, 1, 1, 2, 2, 1, 1],
    [1, 1, 1, 1, 2, 2, 2, 1, 1],
    [2, 1, 1, 1, 1, 1, 1, 2, 2],
    [1, 1, 2, 1, 1, 1, 1, 2, 2],
    [2, 1, 2, 1, 1, 1, 1, 2, 1],
    [1, 1, 1, 1, 2, 1, 1, 2, 2],
    [2, 1, 1, 1, 2, 1, 1, 2, 1],
    [1, 1, 2, 1, 2, 1, 1, 2, 1],
    [1, 1, 1, 1, 1, 1, 2, 2, 2],
    [2, 1, 1, 1, 1, 1, 2, 2, 1],
    [1, 1, 2, 1, 1, 1, 2, 2, 1],
    [1, 1, 1, 1, 2, 1, 2, 2, 1],
    [2, 2, 1, 1, 1, 1, 1, 1, 2],
    [1, 2, 2, 1, 1, 1, 1, 1, 2],
    [2, 2, 2, 1, 1, 1, 1, 1, 1],
    [1, 2, 1, 1, 2, 1, 1, 1, 2],
    [2, 2, 1, 1, 2, 1, 1, 1, 1],
    [1, 2, 2, 1, 2, 1, 1, 1, 1],
    [1, 2, 1, 1, 1, 1, 2, 1, 2],
    [2, 2, 1, 1, 1, 1, 2, 1, 1],
    [1, 2, 2, 1, 1, 1, 2, 1, 1],
    [1, 2, 1, 2, 1, 2, 1, 1, 1],
    [1, 2, 1, 2, 1, 1, 1, 2, 1],
    [1, 2, 1, 1, 1, 2, 1, 2, 1],
    [1, 1, 1, 2, 1, 2, 1, 2, 1],
    [1, 2, 1, 1, 2, 1, 2, 1, 1],
];

/// The value of `*`, which the table has last.
pub const STAR: u8 = 43;

/// The widths of a character.
#[tactic(auto, unfolding(crate::specs::Code39::widths39))]
pub(crate) fn widths39(value: u8) -> &'static [u8]
    requires { value ≤ 43 }
    ensures { result.now ≡ widths39 value }
{
    &WIDTHS[value as usize]
}

/// The twelve modules of a character as a number, whose binary digits from the left are the modules, dark as 1 (ISO/IEC 16388, symbol
/// characters). The value is at most 43, which is `*`.
#[tactic(auto, using(crate::proofs::TableFacts::sum_widths39, crate::proofs::TableLaws::bars_of_digits), unfolding(crate::specs::Code39::pattern39_of))]
pub fn pattern39(value: u8) -> u16
    requires { value ≤ 43 }
    ensures modules { result ≡ pattern39_of value }
    ensures bars { widths39 value ≡ in_turn (bars39 value) (spaces39 value) }
    ensures only { (other : ℕ) → other ≤ 43 → pattern39_of other ≡ result → other ≡ value }
{
    number_of_widths(widths39(value))
}

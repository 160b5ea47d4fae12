//! The check digit.
ghost use Rattle.std.specs.Prelude.{◌≡◌, ◌<◌, ◌+◌, ◌%◌, IsTrue, map};
ghost use Rattle.std.specs.Char.{is_ascii_digit};
ghost use Rattle.std.specs.List.{list_all};
ghost use Rattle.bar_base.specs.CheckDigit.{check_digit, digit_value, three_or_one, weighted};

use bar_base::check_digit_of_text;

/// The check digit of digits given as characters: the number 0 to 9 that brings their sum, with the weights 3, 1, 3
/// and so on from the right, to a multiple of 10; of no digits it is 0 (GS1 General Specifications, check digit
/// calculation). It takes no memory.
#[tactic(auto, unfolding(bar_base::specs::CheckDigit::check_digit))]
pub fn check_digit(digits: &[u8]) -> u8
    requires { IsTrue (list_all is_ascii_digit digits.now) }
    ensures value { result ≡ check_digit (map digit_value digits.now) }
    ensures bounded { result < 10 }
    ensures multiple { (weighted three_or_one (map digit_value digits.now) + result) % 10 ≡ 0 }
{
    check_digit_of_text(digits)
}

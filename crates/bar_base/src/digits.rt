//! The check digit of a number.
ghost use Rattle.std.specs.Prelude.{◌≡◌, ◌<◌, ◌+◌, ◌*◌, ◌%◌, map};
ghost use Rattle.bar_base.specs.CheckDigit.{check_digit, digit_value, three_or_one, weighted};

/// The check digit of digits that are given as numbers: it brings the sum of all, with the weights 3, 1, 3 and so on from the right of
/// the digits, to a multiple of 10 (GS1 General Specifications, check digit calculation).
#[tactic(auto, unfolding(crate::specs::CheckDigit::check_digit))]
pub fn check_digit(digits: &[u8]) -> u8
    ensures value { result ≡ check_digit digits.now }
    ensures bounded { result < 10 }
{
    (10 - last_digit_of_sum(digits)) % 10
}

/// The check digit of digits that are given as characters. A character that is no digit counts by its distance from the character 0,
/// one below it as 0.
#[tactic(auto, unfolding(crate::specs::CheckDigit::check_digit))]
pub fn check_digit_of_text(text: &[u8]) -> u8
    ensures value { result ≡ check_digit (map digit_value text.now) }
    ensures bounded { result < 10 }
{
    (10 - last_digit_of_text_sum(text)) % 10
}

/// The last digit of the weighted sum of digits that are given as numbers.
fn last_digit_of_sum(digits: &[u8]) -> u8
    ensures sum { result ≡ weighted three_or_one digits.now % 10 }
    ensures bounded { result < 10 }
{
    let mut sum = 0;
    let mut behind = digits.len();
    for digit in digits {
        behind -= 1;
        sum = with_digit(sum, *digit, behind);
    }
    sum
}

/// The last digit of the weighted sum of digits that are given as characters.
fn last_digit_of_text_sum(text: &[u8]) -> u8
    ensures sum { result ≡ weighted three_or_one (map digit_value text.now) % 10 }
    ensures bounded { result < 10 }
{
    let mut sum = 0;
    let mut behind = text.len();
    for character in text {
        behind -= 1;
        sum = with_digit(sum, character.saturating_sub(b'0'), behind);
    }
    sum
}

/// The last digit of a sum with one more digit, which has so many digits to its right.
fn with_digit(sum: u8, digit: u8, behind: usize) -> u8
    requires { sum < 10 }
    ensures sum { result ≡ (sum + three_or_one behind * digit) % 10 }
    ensures bounded { result < 10 }
{
    let weight = if behind % 2 == 0 { 3 } else { 1 };
    ((u32::from(sum) + weight * u32::from(digit)) % 10) as u8
}

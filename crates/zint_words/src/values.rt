//! What the value of an option may be: whole numbers.
ghost use Rattle.std.specs.Prelude.{◌≡◌, ◌≤◌, IfSome, Some, true};
ghost use Rattle.std.specs.Char.{is_ascii_digit};
ghost use Rattle.std.specs.List.{list_all};
ghost use Rattle.std.specs.Str.Parse.{digits_value};
ghost use Rattle.zint_settings.specs.CharacterSets.{is_character_set};
ghost use Rattle.zint_words.specs.Numbers.{character_set_in, is_whole_number, row_symbology_in, symbology_in, whole_number, whole_number_in};

use zint_settings::{
    RowSymbology, Symbology, is_character_set, row_symbology_numbered, symbology_numbered,
};

/// The number that the text writes, where it is 1 to 10 decimal digits; leading zeros are allowed.
#[tactic(auto, unfolding(crate::specs::Numbers::whole_number))]
pub fn whole_number(text: &str) -> Option<u64>
    ensures { result ≡ whole_number text.now }
{
    if is_whole_number(text) {
        digits_number(text)
    } else {
        None
    }
}

fn is_whole_number(text: &str) -> bool
    ensures { result ≡ is_whole_number text.now }
{
    let digits = text.as_bytes();
    !digits.is_empty() && digits.len() <= 10 && are_digits(digits)
}

fn digits_number(text: &str) -> Option<u64>
    requires { is_whole_number text.now ≡ true }
    ensures { result ≡ Some (digits_value 10 text.now) }
{
    text.parse().ok()
}

fn are_digits(bytes: &[u8]) -> bool
    ensures { result ≡ list_all is_ascii_digit bytes.now }
{
    bytes.iter().all(|byte| byte.is_ascii_digit())
}

/// The whole number that the text writes, where it lies from `low` to `high`.
#[tactic(auto, unfolding(crate::specs::Numbers::whole_number_in))]
pub fn whole_number_in(low: u32, high: u32, text: &str) -> Option<u32>
    ensures value { result ≡ whole_number_in low high text.now }
    ensures within { IfSome result (λ n. (low ≤ n) × (n ≤ high)) }
{
    let number = whole_number(text)?;
    if u64::from(low) <= number && number <= u64::from(high) {
        Some(number as u32)
    } else {
        None
    }
}

/// The ECI number of a character set that the text writes.
#[tactic(auto, unfolding(crate::specs::Numbers::character_set_in))]
pub fn character_set_in(text: &str) -> Option<u32>
    ensures value { result ≡ character_set_in text.now }
    ensures known { IfSome result (λ n. is_character_set n ≡ true) }
{
    let number = whole_number_in(0, 999_999, text)?;
    if is_character_set(number) {
        Some(number)
    } else {
        None
    }
}

/// The symbology whose number the text writes.
#[tactic(auto, unfolding(crate::specs::Numbers::symbology_in))]
pub fn symbology_in(text: &str) -> Option<Symbology>
    ensures { result ≡ symbology_in text.now }
{
    symbology_numbered(whole_number(text)?)
}

/// The symbology whose rows are read, and whose number the text writes.
#[tactic(auto, unfolding(crate::specs::Numbers::row_symbology_in))]
pub fn row_symbology_in(text: &str) -> Option<RowSymbology>
    ensures { result ≡ row_symbology_in text.now }
{
    row_symbology_numbered(whole_number(text)?)
}

//! The forms that a backslash begins.
ghost use Rattle.std.specs.Prelude.{◌≡◌, ◌≤◌, ◌==◌, find, option_map};
ghost use Rattle.input_escapes.specs.Escapes.{base_of, byte_of, bytes_of, digits_of, form_of, letter_of, letters, one_byte, one_character, stands_for};

/// What a piece stands for.
#[derive(Clone, Copy, Debug)]
pub enum Value {
    /// One byte.
    Byte(u8),
    /// The UTF-8 bytes of a character.
    Character(char),
}

/// A form of a letter and a number of digits.
#[derive(Clone, Copy, Debug)]
pub enum NumberForm {
    /// `\dNNN`: a byte in decimal digits.
    Decimal,
    /// `\oNNN`: a byte in octal digits.
    Octal,
    /// `\xNN`: a byte in hexadecimal digits.
    Hexadecimal,
    /// `\uNNNN`: a character in four hexadecimal digits.
    Character,
    /// `\UNNNNNN`: a character in six hexadecimal digits.
    LongCharacter,
}

static FORMS: [NumberForm; 5] = [
    NumberForm::Decimal,
    NumberForm::Octal,
    NumberForm::Hexadecimal,
    NumberForm::Character,
    NumberForm::LongCharacter,
];

// The letters that stand for a byte, each with its byte.
static LETTERS: [(u8, u8); 13] = [
    (b'0', 0),
    (b'E', 4),
    (b'a', 7),
    (b'b', 8),
    (b't', 9),
    (b'n', 10),
    (b'v', 11),
    (b'f', 12),
    (b'r', 13),
    (b'e', 27),
    (b'G', 29),
    (b'R', 30),
    (b'\\', b'\\'),
];

/// The byte that a letter after the backslash stands for.
#[tactic(auto, unfolding(crate::specs::Escapes::byte_of))]
pub fn byte_of(letter: u8) -> Option<u8>
    ensures { result ≡ byte_of letter }
{
    match row_of(letter) {
        Some(row) => Some(row.1),
        None => None,
    }
}

fn row_of(letter: u8) -> Option<(u8, u8)>
    ensures { result ≡ find (λ row. row.0 == letter) letters }
{
    LETTERS.iter().copied().find(|row| row.0 == letter)
}

/// The form of a number that a letter after the backslash begins.
#[tactic(auto, unfolding(crate::specs::Escapes::form_of))]
pub fn form_of(letter: u8) -> Option<NumberForm>
    ensures { result ≡ form_of letter }
{
    FORMS.iter().copied().find(|form| form.letter() == letter)
}

impl NumberForm {
    fn letter(self) -> u8
        ensures { result ≡ letter_of self }
    {
        match self {
            NumberForm::Decimal => b'd',
            NumberForm::Octal => b'o',
            NumberForm::Hexadecimal => b'x',
            NumberForm::Character => b'u',
            NumberForm::LongCharacter => b'U',
        }
    }

    /// The base of the digits.
    pub fn base(self) -> u32
        ensures base { result ≡ base_of self }
        ensures within { (2 ≤ result) × (result ≤ 16) }
    {
        match self {
            NumberForm::Decimal => 10,
            NumberForm::Octal => 8,
            _ => 16,
        }
    }

    /// How many digits the form has.
    pub fn digits(self) -> usize
        ensures digits { result ≡ digits_of self }
        ensures within { result ≤ 6 }
    {
        match self {
            NumberForm::Decimal => 3,
            NumberForm::Octal => 3,
            NumberForm::Hexadecimal => 2,
            NumberForm::Character => 4,
            NumberForm::LongCharacter => 6,
        }
    }

    /// What the number stands for; none where it is past the form's bound.
    #[tactic(auto, unfolding(crate::specs::Escapes::stands_for))]
    pub fn value(self, number: u32) -> Option<Value>
        ensures { option_map bytes_of result ≡ stands_for self number }
    {
        match self {
            NumberForm::Decimal => byte(number),
            NumberForm::Octal => byte(number),
            NumberForm::Hexadecimal => byte(number),
            NumberForm::Character => character(number),
            NumberForm::LongCharacter => character(number),
        }
    }
}

fn byte(number: u32) -> Option<Value>
    ensures { option_map bytes_of result ≡ one_byte number }
{
    if number < 256 {
        Some(Value::Byte(number as u8))
    } else {
        None
    }
}

fn character(number: u32) -> Option<Value>
    ensures { option_map bytes_of result ≡ one_character number }
{
    match char::from_u32(number) {
        Some(character) => Some(Value::Character(character)),
        None => None,
    }
}

//! The characters of UTF-16, the high byte of each unit first.
ghost use Rattle.std.specs.Prelude.{◌≡◌, ◌≤◌, ◌<◌, ◌+◌, IfSome, length};
ghost use Rattle.eci_sets.specs.Utf16.{after_high_surrogate, character_from, first_character, unit_of_bytes};

/// The character with which bytes begin, and how many bytes it has.
#[derive(Clone, Copy, Debug)]
pub struct FirstCharacter {
    pub character: char,
    pub size: usize,
}

/// The character with which the bytes begin; None where they begin with no unit, or with a surrogate without its
/// partner.
#[tactic(auto, unfolding(crate::specs::Utf16::first_character))]
pub fn first_character(bytes: &[u8]) -> Option<FirstCharacter>
    ensures first { result ≡ first_character bytes.now }
    ensures within { IfSome result (λ first. (2 ≤ first.size) × (first.size ≤ length bytes.now)) }
{
    if bytes.len() < 2 {
        return None;
    }
    character_from(unit_of_bytes(bytes[0], bytes[1]), &bytes[2..])
}

fn unit_of_bytes(high: u8, low: u8) -> u32
    ensures unit { result ≡ unit_of_bytes high low }
    ensures below { result < 65536 }
{
    u32::from(high) * 256 + u32::from(low)
}

// The character that begins with the unit, behind which these bytes are.
fn character_from(unit: u32, rest: &[u8]) -> Option<FirstCharacter>
    requires { unit < 65536 }
    ensures first { result ≡ character_from unit rest.now }
    ensures within { IfSome result (λ first. (2 ≤ first.size) × (first.size ≤ length rest.now + 2)) }
{
    if 0xd800 <= unit && unit < 0xdc00 {
        after_high_surrogate(unit, rest)
    } else {
        match char::from_u32(unit) {
            Some(character) => Some(FirstCharacter { character, size: 2 }),
            None => None,
        }
    }
}

// The character of a pair whose first unit is given.
fn after_high_surrogate(high: u32, rest: &[u8]) -> Option<FirstCharacter>
    requires { (0xD800 ≤ high) × (high < 0xDC00) }
    ensures first { result ≡ after_high_surrogate high rest.now }
    ensures within { IfSome result (λ first. (2 ≤ first.size) × (first.size ≤ length rest.now + 2)) }
{
    if rest.len() < 2 {
        return None;
    }
    let low = unit_of_bytes(rest[0], rest[1]);
    if low < 0xdc00 || 0xe000 <= low {
        return None;
    }
    match char::from_u32(0x1_0000 + (high - 0xd800) * 0x400 + (low - 0xdc00)) {
        Some(character) => Some(FirstCharacter { character, size: 4 }),
        None => None,
    }
}

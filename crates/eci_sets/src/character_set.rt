//! The ten sets by their numbers, and the bytes of a character in each.
ghost use Rattle.std.specs.Prelude.{◌≡◌, ◌<◌, ◌++◌, [], ◌∷◌, OnOk, IfOk, true, encode_utf8};
ghost use Rattle.std.specs.Option.{is_some, option_map, unwrap_or};
ghost use Rattle.std.specs.List.{flat_map};
ghost use Rattle.std.specs.Char.Escape.{encode_utf16};
ghost use Rattle.eci_sets.specs.CharacterSets.{character_bytes, has_character, set_numbered, unit_bytes};

use crate::code_page::CodePage;
use std::alloc::AllocError;

/// A character set.
#[derive(Clone, Copy, Debug, PartialEq, Eq)]
pub enum CharacterSet {
    /// One byte a character.
    SingleByte(CodePage),
    /// UTF-16, the high byte of each unit first.
    Utf16Be,
    /// UTF-8.
    Utf8,
}

/// The set that the number of an extended channel interpretation names; None where it names none of the ten.
#[tactic(auto, unfolding(crate::specs::CharacterSets::set_numbered))]
pub fn set_numbered(eci: u32) -> Option<CharacterSet>
    ensures { result ≡ set_numbered eci }
{
    match eci {
        3 => Some(CharacterSet::SingleByte(CodePage::Latin1)),
        7 => Some(CharacterSet::SingleByte(CodePage::Cyrillic)),
        11 => Some(CharacterSet::SingleByte(CodePage::Latin5)),
        17 => Some(CharacterSet::SingleByte(CodePage::Latin9)),
        22 => Some(CharacterSet::SingleByte(CodePage::Windows1251)),
        23 => Some(CharacterSet::SingleByte(CodePage::Windows1252)),
        25 => Some(CharacterSet::Utf16Be),
        26 => Some(CharacterSet::Utf8),
        27 => Some(CharacterSet::SingleByte(CodePage::Ascii)),
        899 => Some(CharacterSet::SingleByte(CodePage::Binary)),
        _ => None,
    }
}

impl CharacterSet {
    /// Whether the set has the character.
    #[tactic(auto, unfolding(crate::specs::CharacterSets::encoding_of))]
    pub fn has_character(self, character: char) -> bool
        ensures { result ≡ has_character self character }
    {
        match self {
            CharacterSet::SingleByte(page) => page.byte_for(character).is_some(),
            CharacterSet::Utf16Be => true,
            CharacterSet::Utf8 => true,
        }
    }

    /// Appends the bytes of the character; false, with nothing appended, where the set lacks it.
    #[tactic(auto, unfolding(crate::specs::CharacterSets::encoding_of))]
    pub fn push_character(self, bytes: &mut Vec<u8>, character: char) -> Result<bool, AllocError>
        ensures known { IfOk result (λ known. known ≡ has_character self character) }
        ensures pushed { OnOk result (bytes.new.items ≡ bytes.old.items ++ character_bytes self character) }
    {
        match self {
            CharacterSet::SingleByte(page) => push_byte(bytes, page.byte_for(character)),
            CharacterSet::Utf16Be => push_utf16(bytes, character),
            CharacterSet::Utf8 => push_utf8(bytes, character),
        }
    }
}

// Appends the byte where there is one, and answers whether there is.
fn push_byte(bytes: &mut Vec<u8>, byte: Option<u8>) -> Result<bool, AllocError>
    ensures known { IfOk result (λ known. known ≡ is_some byte) }
    ensures pushed { OnOk result (bytes.new.items ≡ bytes.old.items ++ unwrap_or (option_map (λ b. b ∷ []) byte) []) }
{
    match byte {
        Some(byte) => {
            bytes.push(byte)?;
            Ok(true)
        }
        None => Ok(false),
    }
}

fn push_utf8(bytes: &mut Vec<u8>, character: char) -> Result<bool, AllocError>
    ensures known { IfOk result (λ known. known ≡ true) }
    ensures pushed { OnOk result (bytes.new.items ≡ bytes.old.items ++ encode_utf8 character) }
{
    let mut room = [0u8; 4];
    bytes.extend_from_slice(character.encode_utf8(&mut room).as_bytes())?;
    Ok(true)
}

fn push_utf16(bytes: &mut Vec<u8>, character: char) -> Result<bool, AllocError>
    ensures known { IfOk result (λ known. known ≡ true) }
    ensures pushed { OnOk result (bytes.new.items ≡ bytes.old.items ++ flat_map unit_bytes (encode_utf16 character)) }
{
    let code = u32::from(character);
    if code < 0x1_0000 {
        push_unit(bytes, code)?;
    } else {
        push_unit(bytes, 0xd800 + (code - 0x1_0000) / 0x400)?;
        push_unit(bytes, 0xdc00 + (code - 0x1_0000) % 0x400)?;
    }
    Ok(true)
}

fn push_unit(bytes: &mut Vec<u8>, unit: u32) -> Result<(), AllocError>
    requires { unit < 65536 }
    ensures { OnOk result (bytes.new.items ≡ bytes.old.items ++ unit_bytes unit) }
{
    bytes.push((unit / 256) as u8)?;
    bytes.push((unit % 256) as u8)?;
    Ok(())
}

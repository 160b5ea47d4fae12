//! Code pages: the character sets whose characters have one byte each.
ghost use Rattle.std.specs.Prelude.{◌≡◌, ◌≤◌, ◌<◌, ◌+◌, find};
ghost use Rattle.eci_sets.specs.CodePages.{byte_for, byte_by_ranges, character_for, character_by_ranges, covers_byte, covers_character, ranges_of};

use crate::tables::{
    ASCII, BINARY, CYRILLIC, CodeRange, LATIN_1, LATIN_5, LATIN_9, WINDOWS_1251, WINDOWS_1252,
};

/// A character set whose characters have one byte each.
#[derive(Clone, Copy, Debug, PartialEq, Eq)]
pub enum CodePage {
    /// ISO/IEC 8859-1, Latin alphabet No. 1.
    Latin1,
    /// ISO/IEC 8859-5, Latin/Cyrillic alphabet.
    Cyrillic,
    /// ISO/IEC 8859-9, Latin alphabet No. 5.
    Latin5,
    /// ISO/IEC 8859-15, Latin alphabet No. 9.
    Latin9,
    /// windows-1251.
    Windows1251,
    /// windows-1252.
    Windows1252,
    /// ISO/IEC 646, ASCII.
    Ascii,
    /// Eight-bit binary data.
    Binary,
}

impl CodePage {
    /// The byte that stands for the character; None where the code page lacks it.
    #[tactic(auto, using(crate::proofs::TableLemmas::byte_for_is))]
    pub fn byte_for(self, character: char) -> Option<u8>
        ensures { result ≡ byte_for self character }
    {
        byte_by_ranges(self.ranges(), character)
    }

    /// The character that the byte stands for; None where it stands for none.
    #[tactic(auto, unfolding(crate::specs::CodePages::character_for))]
    pub fn character_for(self, byte: u8) -> Option<char>
        ensures { result ≡ character_for self byte }
    {
        character_by_ranges(self.ranges(), byte)
    }

    // The table.
    #[tactic(auto, unfolding(crate::specs::CodePages::ranges_of))]
    fn ranges(self) -> &'static [CodeRange]
        ensures { result.now ≡ ranges_of self }
    {
        match self {
            CodePage::Latin1 => &LATIN_1,
            CodePage::Cyrillic => &CYRILLIC,
            CodePage::Latin5 => &LATIN_5,
            CodePage::Latin9 => &LATIN_9,
            CodePage::Windows1251 => &WINDOWS_1251,
            CodePage::Windows1252 => &WINDOWS_1252,
            CodePage::Ascii => &ASCII,
            CodePage::Binary => &BINARY,
        }
    }
}

#[tactic(auto, using(crate::proofs::TableLemmas::byte_fits), unfolding(crate::specs::CodePages::byte_by_ranges))]
fn byte_by_ranges(ranges: &[CodeRange], character: char) -> Option<u8>
    ensures { result ≡ byte_by_ranges ranges.now character }
{
    match range_with_character(ranges, character) {
        Some(range) => {
            let behind = u32::from(character) - u32::from(range.character);
            Some((u32::from(range.first) + behind) as u8)
        }
        None => None,
    }
}

fn range_with_character(ranges: &[CodeRange], character: char) -> Option<CodeRange>
    ensures { result ≡ find (covers_character character) ranges.now }
{
    ranges.iter().copied().find(|range| {
        u32::from(range.character) <= u32::from(character)
            && u32::from(character) + u32::from(range.first)
                <= u32::from(range.character) + u32::from(range.last)
    })
}

#[tactic(auto, using(crate::proofs::TableLemmas::found_passes), unfolding(crate::specs::CodePages::character_by_ranges))]
fn character_by_ranges(ranges: &[CodeRange], byte: u8) -> Option<char>
    ensures { result ≡ character_by_ranges ranges.now byte }
{
    match range_with_byte(ranges, byte) {
        Some(range) => char::from_u32(u32::from(range.character) + u32::from(byte - range.first)),
        None => None,
    }
}

fn range_with_byte(ranges: &[CodeRange], byte: u8) -> Option<CodeRange>
    ensures { result ≡ find (covers_byte byte) ranges.now }
{
    ranges
        .iter()
        .copied()
        .find(|range| range.first <= byte && byte <= range.last)
}

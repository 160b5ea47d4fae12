//! The character sets that texts are encoded in.
ghost use Rattle.std.specs.Prelude.{◌≡◌};
ghost use Rattle.zint_settings.specs.CharacterSets.{is_character_set};

/// The ECI numbers of the character sets that texts are encoded in.
pub const CHARACTER_SETS: [u32; 10] = [3, 7, 11, 17, 22, 23, 25, 26, 27, 899];

/// Whether the number is the ECI number of a character set that texts are encoded in.
#[tactic(auto, unfolding(crate::specs::CharacterSets::is_character_set))]
pub fn is_character_set(number: u32) -> bool
    ensures { result ≡ is_character_set number }
{
    CHARACTER_SETS.iter().any(|set| *set == number)
}

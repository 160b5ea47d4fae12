//! A further segment of a message.
ghost use Rattle.std.specs.Prelude.{◌≡◌, true};
ghost use Rattle.zint_settings.specs.CharacterSets.{is_character_set};

/// A segment of a message behind its data (`--seg1` to `--seg9`).
#[derive(Clone, Copy, Debug)]
pub struct Segment<'a> {
    /// The ECI number of its character set.
    pub eci: u32,
    /// Its text.
    pub text: &'a str,
    pub ghost known: { is_character_set eci ≡ true },
}

//! The options of a drawing, as the values give them.
ghost use Rattle.std.specs.Prelude.{◌≡◌, ◌≤◌, IfSome, true};
ghost use Rattle.bar_base.specs.Paint.{IsPaint};
ghost use Rattle.zint_settings.specs.CharacterSets.{is_character_set};
ghost use Rattle.zint_settings.specs.DrawingOptions.{IsInRange};
ghost use Rattle.zint_words.specs.DrawingOptions.{drawing_options_of, eci_of, paint_of, share_of, symbol_version_of};
ghost use Rattle.zint_words.specs.GivenValues.{values_of};

use crate::given::Given;
use crate::options::OptionName;
use crate::values::{character_set_in, whole_number_in};
use bar_base::Paint;
use zint_settings::DrawingOptions;

/// The shares of check codewords in percent, by the levels 1 to 4 of `--secure`.
pub const SHARES: [u32; 4] = [10, 23, 36, 50];

/// The options of a drawing, as the values give them.
#[tactic(auto, unfolding(crate::specs::DrawingOptions::drawing_options_of, crate::specs::CommandLine::taken_by, crate::specs::CommandLine::option_row))]
pub fn drawing_options(given: &Given<'_>) -> DrawingOptions
    ensures options { result ≡ drawing_options_of (values_of given.now) }
    ensures in_range { IsInRange result }
{
    DrawingOptions {
        symbology: given.symbology(),
        form: given.form(),
        escapes: given.has(OptionName::Esc),
        binary: given.has(OptionName::Binary),
        gs1: given.gs1(),
        eci: eci_of(given),
        share: share_of(given),
        version: version_of(given),
        paint: paint_of(given),
        height: given.number(OptionName::Height, 50),
    }
}

/// How a picture is painted, as the values say.
#[tactic(auto, unfolding(crate::specs::DrawingOptions::paint_of, crate::specs::CommandLine::taken_by, crate::specs::CommandLine::option_row))]
pub fn paint_of(given: &Given<'_>) -> Paint
    ensures paint { result ≡ paint_of (values_of given.now) }
    ensures in_range { IsPaint result }
{
    Paint {
        scale: given.number(OptionName::Scale, 1),
        white: given.number(OptionName::Whitesp, 0),
        vwhite: given.number(OptionName::Vwhitesp, 0),
    }
}

#[tactic(auto, unfolding(crate::specs::DrawingOptions::share_of, crate::specs::CommandLine::taken_by, crate::specs::CommandLine::option_row))]
fn share_of(given: &Given<'_>) -> u32
    ensures share { result ≡ share_of (values_of given.now) }
    ensures within { result ≤ 50 }
{
    SHARES[given.number(OptionName::Secure, 2) as usize - 1]
}

#[tactic(auto, unfolding(crate::specs::DrawingOptions::eci_of))]
fn eci_of(given: &Given<'_>) -> Option<u32>
    ensures eci { result ≡ eci_of (values_of given.now) }
    ensures known { IfSome result (λ n. is_character_set n ≡ true) }
{
    character_set_in(given.value(OptionName::Eci)?)
}

#[tactic(auto, unfolding(crate::specs::DrawingOptions::symbol_version_of))]
fn version_of(given: &Given<'_>) -> Option<u32>
    ensures version { result ≡ symbol_version_of (values_of given.now) }
    ensures within { IfSome result (λ v. (1 ≤ v) × (v ≤ 36)) }
{
    whole_number_in(
        1,
        given.symbology().greatest_version(),
        given.value(OptionName::Vers)?,
    )
}

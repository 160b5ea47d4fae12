//! Values of options that have parts with commas between them: a place in a structured append set, and a segment.
ghost use Rattle.std.specs.Prelude.{◌≡◌, ◌≤◌, All, IfSome, length, option_map};
ghost use Rattle.std.specs.Char.{is_ascii_graphic};
ghost use Rattle.std.specs.List.{list_all};
ghost use Rattle.zint_words.specs.Commas.{parts_at_comma};
ghost use Rattle.zint_words.specs.SetPlace.{count_and_identifier, is_identifier, set_place_in};
ghost use Rattle.zint_settings.specs.Settings.{append_in, segment_in};
ghost use Rattle.zint_words.specs.Settings.{segment_in_text};

use crate::values::{character_set_in, whole_number_in};
use zint_settings::{Segment, SetPlace};

/// The place that the text writes as `I,C` or `I,C,ID`: the `I`-th of `C` symbols of the set with the identifier `ID`.
#[tactic(auto, unfolding(crate::specs::SetPlace::set_place_in))]
pub fn set_place_in(text: &str) -> Option<SetPlace<'_>>
    ensures { option_map append_in result ≡ set_place_in text.now }
{
    let (index, rest) = parts_at_comma(text)?;
    let (count, id) = count_and_identifier(rest)?;
    let count = whole_number_in(2, 26, count)?;
    let index = whole_number_in(1, count, index)?;
    Some(SetPlace {
        index: index as u8,
        count: count as u8,
        id,
    })
}

// The identifier is empty where there is none.
#[tactic(auto, using(crate::proofs::CommaValues::identifier_few, crate::proofs::CommaValues::identifier_graphic), unfolding(crate::specs::SetPlace::count_and_identifier))]
fn count_and_identifier(text: &str) -> Option<(&str, &str)>
    ensures parts { option_map (λ p. (p.0.now, p.1.now)) result ≡ count_and_identifier text.now }
    ensures few { IfSome result (λ p. length p.1.now ≤ 32) }
    ensures graphic { IfSome result (λ p. All (λ byte. (33 ≤ byte) × (byte ≤ 126)) p.1.now) }
{
    match parts_at_comma(text) {
        Some((count, id)) => {
            if is_identifier(id) {
                Some((count, id))
            } else {
                None
            }
        }
        None => Some((text, "")),
    }
}

fn is_identifier(text: &str) -> bool
    ensures { result ≡ is_identifier text.now }
{
    let bytes = text.as_bytes();
    !bytes.is_empty() && bytes.len() <= 32 && are_graphic(bytes)
}

fn are_graphic(bytes: &[u8]) -> bool
    ensures { result ≡ list_all is_ascii_graphic bytes.now }
{
    bytes.iter().all(|byte| byte.is_ascii_graphic())
}

/// The segment that the text writes as `ECI,DATA`; all behind the first comma is its text.
#[tactic(auto, unfolding(crate::specs::Settings::segment_in_text))]
pub fn segment_in(text: &str) -> Option<Segment<'_>>
    ensures { option_map segment_in result ≡ segment_in_text text.now }
{
    let (eci, data) = parts_at_comma(text)?;
    let eci = character_set_in(eci)?;
    Some(Segment { eci, text: data })
}

// What stands before the first comma, and what stands behind it.
fn parts_at_comma(text: &str) -> Option<(&str, &str)>
    ensures { option_map (λ p. (p.0.now, p.1.now)) result ≡ parts_at_comma text.now }
{
    text.split_once(',')
}

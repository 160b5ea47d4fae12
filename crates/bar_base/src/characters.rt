//! From a text to the values of a symbol's characters.
ghost use Rattle.std.specs.Prelude.{◌≡◌, ℕ, List, All, ◌<◌, ◌≤◌, ◌*◌, ◌==◌, length, position, IfOk, vec_len};
ghost use Rattle.bar_base.specs.Results.{Gives};
ghost use Rattle.bar_base.specs.Text.{refusal_of, values_of_text};

use crate::linear::LinearFault;
use crate::short::Short;
use std::alloc::Global;

/// What the bytes of a text stand for in a symbology.
pub trait Characters {
    // the values of a byte: none where the byte can't be drawn
    ghost values: { ℕ → List ℕ };

    // every value is below it
    ghost bound: { ℕ };

    // a byte has at most so many values
    ghost longest: { ℕ };

    /// The values of a byte in the order in which they are drawn; none where the byte can't be drawn.
    fn values(byte: u8) -> Short<2>
        ensures values { result ≡ values byte }
        ensures bounded { All (λ value. value < bound) result }
        ensures few { length result ≤ longest };
}

/// The values of a text of at most `most` bytes, in the order in which they are drawn. `BadCharacter` names the first byte that can't
/// be drawn; after that test `TooLong` is the answer where more bytes are there.
#[tactic(auto, unfolding(crate::specs::Text::values_of_text))]
pub fn values_of_text<C: Characters>(
    alloc: Global,
    text: &[u8],
    most: usize,
) -> Result<Vec<u8>, LinearFault>
    ensures values { Gives refusal_of (λ values. values.items) result (values_of_text C.values most text.now) }
    ensures bounded { IfOk result (λ values. All (λ value. value < C.bound) values.items) }
    ensures few { IfOk result (λ values. vec_len values ≤ C.longest * most) }
{
    if let Some(place) = first_unknown::<C>(text) {
        return Err(LinearFault::BadCharacter(place));
    }
    if text.len() > most {
        return Err(LinearFault::TooLong);
    }
    let mut values = Vec::new(alloc);
    for byte in text {
        values.extend_from_slice(C::values(*byte).as_slice())?;
    }
    Ok(values)
}

/// The place of the first byte that can't be drawn.
fn first_unknown<C: Characters>(text: &[u8]) -> Option<usize>
    ensures { result ≡ position (λ byte. length (C.values byte) == 0) text.now }
{
    text.iter().position(|byte| C::values(*byte).len() == 0)
}

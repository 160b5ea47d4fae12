//! Which words of a picture are lost: those with an unknown module.
ghost use Rattle.std.specs.Prelude.{◌≡◌, ℕ, List, IfOk, length};
ghost use Rattle.aztec_layout.specs.DataReading.{AreCodewords, HasSide};
ghost use Rattle.symbol_reader.specs.Sight.{AreSeenCodewords, lost_between, seen_sight};

use crate::seen::Seen;
use aztec_layout::{Size, codewords_read};
use bar_base::NoMemory;
use std::alloc::Global;

/// Which words of two lists are not the same.
#[tactic(auto, unfolding(crate::specs::Sight::lost_between))]
pub(crate) fn differing(alloc: Global, words: &[u16], others: &[u16]) -> Result<Vec<bool>, NoMemory>
    requires { length others.now ≡ length words.now }
    ensures lost { IfOk result (λ lost. lost.items ≡ lost_between words.now others.now) }
    ensures counted { IfOk result (λ lost. length lost.items ≡ length words.now) }
{
    let mut lost = Vec::new(alloc);
    for at in 0..words.len() {
        lost.push(words[at] != others[at])?;
    }
    Ok(lost)
}

/// Which codewords of a picture are lost.
pub(crate) fn lost_codewords(
    alloc: Global,
    seen: &Seen<'_>,
    size: Size,
    words: &[u16],
) -> Result<Vec<bool>, NoMemory>
    requires side { HasSide seen.now.grid.now size }
    requires shown { AreCodewords size seen.now.grid.now words.now }
    ensures seen { IfOk result (λ lost. AreSeenCodewords size (seen_sight seen.now) words.now lost.items) }
    ensures counted { IfOk result (λ lost. length lost.items ≡ length words.now) }
{
    if seen.whole {
        let lost = differing(alloc, words, words)?;
        return Ok(lost);
    }
    let others = codewords_read(alloc, seen.dark, size)?;
    let lost = differing(alloc, words, others.as_slice())?;
    Ok(lost)
}

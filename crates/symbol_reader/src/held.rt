ghost use Rattle.std.specs.Prelude.{◌≡◌, ◌+◌, ◌*◌, ◌<◌, ◌≤◌, ℕ, IfSome, IfNone, Some, true, false, slice_get};
ghost use Rattle.aztec_layout.specs.declared.sizes.Size.{Size as SizeValue};
ghost use Rattle.aztec_layout.specs.ModeMessage.{CanHold, IsModeMessage};
ghost use Rattle.aztec_layout.specs.Sizes.{IsSize, codewords_of};

use aztec_layout::{Size, codewords, mode_words};

/// The most data codewords that the mode message of a compact symbol can name.
const MOST_IN_COMPACT: u32 = 64;

/// The most data codewords that the mode message of a size can name.
fn most_held(size: Size) -> u32
    requires { IsSize size }
    ensures few { result ≤ codewords_of size }
    ensures compact { size.full ≡ false → result ≤ 64 }
    ensures most { (held : ℕ) → CanHold size held → held ≤ result }
{
    let count = codewords(size);
    if !size.full && MOST_IN_COMPACT < count {
        return MOST_IN_COMPACT;
    }
    count
}

/// The word at a place, or 0 where there is none.
fn word_at(words: &[u16], at: usize) -> u32
    ensures found { (word : ℕ) → slice_get words.now at ≡ Some word → result ≡ word }
    ensures small { result < 65536 }
{
    match words.get(at) {
        None => 0,
        Some(word) => u32::from(*word),
    }
}

/// The number of data codewords that the front of a mode message of a kind names.
fn named_by(words: &[u16], full: bool) -> u32
    ensures some { 1 ≤ result }
    ensures named { (size : SizeValue) (held : ℕ) → size.full ≡ full → IsSize size → CanHold size held →
        IsModeMessage size held words.now → held ≡ result }
{
    if full {
        let front = word_at(words, 0) * 4096 + word_at(words, 1) * 256;
        let number = front + word_at(words, 2) * 16 + word_at(words, 3);
        return number % 2048 + 1;
    }
    let number = word_at(words, 0) * 16 + word_at(words, 1);
    number % 64 + 1
}

/// Whether two lists of words are the same.
fn are_same(words: &[u8], others: &[u16]) -> bool
    ensures same { result ≡ true → words.now ≡ others.now }
    ensures other { result ≡ false → words.now ≡ others.now → ⊥ }
{
    if words.len() != others.len() {
        return false;
    }
    for at in 0..words.len() {
        if u16::from(words[at]) != others[at] {
            return false;
        }
    }
    true
}

/// The number of data codewords of a symbol of a size with these mode words, or None where they are no mode message of
/// the size (ISO/IEC 24778, mode message).
pub(crate) fn held_in(size: Size, words: &[u16]) -> Option<u32>
    requires { IsSize size }
    ensures can_hold { IfSome result (λ held. CanHold size held) }
    ensures message { IfSome result (λ held. IsModeMessage size held words.now) }
    ensures none { IfNone result ((held : ℕ) → CanHold size held → IsModeMessage size held words.now → ⊥) }
{
    let held = named_by(words, size.full);
    if most_held(size) < held {
        return None;
    }
    if are_same(mode_words(size, held).as_slice(), words) {
        return Some(held);
    }
    None
}

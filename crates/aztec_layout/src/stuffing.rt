ghost use Rattle.std.specs.Prelude.{◌≡◌, ℕ, ◌+◌, ◌-◌, ◌/◌, ◌^◌, ◌<◌, ◌≤◌, List, false, true, length, take, drop, slice_index_or, IfOk};
ghost use Rattle.bar_base.specs.Bits.{to_bits};
ghost use Rattle.aztec_layout.specs.Stuffing.{IsStuffed, IsWidth, IsWord, with_ones, is_alike as is_alike_of, taken};

use bar_base::{Bits, NoMemory, Words};
use std::alloc::Global;

/// The stuffed codewords of `bits` at a width of 6, 8, 10 or 12 bits: the shortest list of codewords,
/// none all zeros and none all ones, that carries the bits and fewer ones behind them than a
/// codeword has bits (ISO/IEC 24778, bit stuffing).
pub fn stuff(alloc: Global, bits: &Bits, width: u32) -> Result<Words, NoMemory>
    requires { IsWidth width }
    ensures stuffed { IfOk result (λ words. IsStuffed width bits.now words) }
    ensures only { IfOk result (λ words. (others : List ℕ) → IsStuffed width bits.now others → others ≡ words) }
{
    let mut words = Words::new(alloc);
    let mut at = 0;
    while at < bits.len() {
        let word = next_word(bits, at, width);
        words.push(word)?;
        at += taken_length(width, word);
    }
    Ok(words)
}

/// The codeword that takes the bits from place `at` on, with ones behind the last.
pub(crate) fn next_word(bits: &Bits, at: usize, width: u32) -> u16
    requires wide { IsWidth width }
    requires inside { at < length bits.now }
    requires small { at < 2 ^ 63 }
    ensures word { IsWord width result }
    ensures here { taken width result ≡ take (length (taken width result)) (drop at (with_ones width bits.now)) }
{
    let number = number_at(bits, at, width);
    spared(width, number)
}

/// The number in the bits from place `at` on, with ones behind the last.
fn number_at(bits: &Bits, at: usize, width: u32) -> u16
    requires wide { IsWidth width }
    requires inside { at < length bits.now }
    requires small { at < 2 ^ 63 }
    ensures below { result < 2 ^ width }
    ensures here { to_bits width result ≡ take width (drop at (with_ones width bits.now)) }
{
    let items = bits.as_slice();
    let end = at + width as usize;
    if end <= items.len() {
        number_of(&items[at..end])
    } else {
        number_past(bits, at, width)
    }
}

/// The number in bits, without a test at each.
fn number_of(bits: &[bool]) -> u16
    requires few { length bits.now ≤ 12 }
    ensures below { result < 2 ^ length bits.now }
    ensures here { to_bits (length bits.now) result ≡ bits.now }
{
    let mut number = 0;
    for bit in bits {
        number = number * 2 + u16::from(*bit);
    }
    number
}

/// The number in the bits from place `at` on, with ones behind the last, where a codeword goes past it.
fn number_past(bits: &Bits, at: usize, width: u32) -> u16
    requires wide { IsWidth width }
    requires inside { at < length bits.now }
    requires small { at < 2 ^ 63 }
    ensures below { result < 2 ^ width }
    ensures here { to_bits width result ≡ take width (drop at (with_ones width bits.now)) }
{
    let mut number = 0;
    for i in 0..width {
        number = number * 2 + u16::from(bit_or_one(bits, at + i as usize));
    }
    number
}

/// The bit at a place, and one past the last.
fn bit_or_one(bits: &Bits, at: usize) -> bool
    ensures { result ≡ slice_index_or bits.now at true }
{
    match bits.get(at) {
        Some(bit) => bit,
        None => true,
    }
}

/// The codeword that begins as `number` does, and is not all zeros and not all ones.
fn spared(width: u32, number: u16) -> u16
    requires wide { IsWidth width }
    requires below { number < 2 ^ width }
    ensures word { IsWord width result }
    ensures front { result / 2 ≡ number / 2 }
    ensures kept { is_alike_of width number ≡ false → result ≡ number }
{
    if number < 2 {
        1
    } else if number / 2 + 1 == half(width) {
        number / 2 * 2
    } else {
        number
    }
}

/// How many bits a codeword carries.
pub(crate) fn taken_length(width: u32, word: u16) -> usize
    requires { IsWidth width }
    ensures taken { result ≡ length (taken width word) }
    ensures some { 5 ≤ result }
    ensures few { result ≤ width }
{
    if is_alike(width, word) {
        width as usize - 1
    } else {
        width as usize
    }
}

/// Whether the bits of a codeword in front of its last one are all zeros or all ones.
pub(crate) fn is_alike(width: u32, word: u16) -> bool
    requires { IsWidth width }
    ensures { result ≡ is_alike_of width word }
{
    word / 2 == 0 || word / 2 + 1 == half(width)
}

/// Two to the power of one less than the width.
pub(crate) fn half(width: u32) -> u16
    requires { IsWidth width }
    ensures { result ≡ 2 ^ (width - 1) }
{
    1 << (width - 1)
}

ghost use Rattle.std.specs.Prelude.{◌≡◌, ℕ, ◌+◌, ◌*◌, ◌-◌, ◌/◌, ◌%◌, ◌^◌, ◌<◌, ◌≤◌, length};
ghost use Rattle.aztec_layout.specs.Sizes.{IsSize, base_side, layer_bits};
ghost use Rattle.aztec_layout.specs.Places.{AreDataLines, IsDataModule, IsBitPlace, bits_before, corner_at, corner_of, data_line, pairs_on_side};

use crate::sizes::{Size, base, side};

/// The column and row of data bit `bit` of a symbol, counted from the outside (ISO/IEC 24778, data
/// placement). The bit is one of the size's data layers.
pub fn place(size: Size, bit: u32) -> (u32, u32)
    requires sized { IsSize size }
    requires inside { bit < layer_bits size }
    ensures place { IsBitPlace size bit result.0 result.1 }
    ensures only { (x y : ℕ) → IsBitPlace size bit x y → (x ≡ result.0) × (y ≡ result.1) }
    ensures apart { (q : ℕ) → IsBitPlace size q result.0 result.1 → q ≡ bit }
    ensures free { IsDataModule size result.0 result.1 }
{
    let mut before = 0;
    for layer in 0..size.layers {
        let more = 8 * pairs(size, layer);
        if bit - before < more {
            return place_in(size, layer, bit - before);
        }
        before += more;
    }
    unreachable!()
}

/// The same, looked for in one layer before all others.
#[inline(always)]
pub(crate) fn place_near(size: Size, layer: u32, bit: u32) -> (u32, u32)
    requires sized { IsSize size }
    requires inside { bit < layer_bits size }
    ensures only { (x y : ℕ) → IsBitPlace size bit x y → (x ≡ result.0) × (y ≡ result.1) }
    ensures free { IsDataModule size result.0 result.1 }
{
    if layer >= size.layers {
        return place(size, bit);
    }
    let before = first_bit(size, layer);
    if bit < before {
        return place(size, bit);
    }
    if bit - before >= 8 * pairs(size, layer) {
        return place(size, bit);
    }
    place_in(size, layer, bit - before)
}

/// The layer to look in for a bit, where it was looked for in `layer` before: the next one, if it does not begin past the bit.
pub(crate) fn layer_near(size: Size, layer: u32, bit: u32) -> u32
    requires { IsSize size }
{
    let next = layer.saturating_add(1);
    if next >= size.layers {
        return layer;
    }
    if first_bit(size, next) <= bit {
        next
    } else {
        layer
    }
}

/// The column and row of bit `number` of a layer.
pub(crate) fn place_in(size: Size, layer: u32, number: u32) -> (u32, u32)
    requires sized { IsSize size }
    requires layer { layer < size.layers }
    requires inside { number < 8 * pairs_on_side size layer }
    ensures place { IsBitPlace size (bits_before size layer + number) result.0 result.1 }
    ensures free { IsDataModule size result.0 result.1 }
    ensures inside { bits_before size layer + number < layer_bits size }
{
    let (column, row) = corner(size, layer, number);
    (line(size, column), line(size, row))
}

/// The column and row of bit `along` of a side of a layer, with those of the data lines in a list.
#[inline(always)]
pub(crate) fn place_by(lines: &[u32], size: Size, layer: u32, side: u32, along: u32) -> (u32, u32)
    requires sized { IsSize size }
    requires layer { layer < size.layers }
    requires side { side < 4 }
    requires along { along < 2 * pairs_on_side size layer }
    requires lines { AreDataLines size lines.now }
    ensures place { IsBitPlace size (bits_before size layer + (side * (2 * pairs_on_side size layer) + along))
        result.0 result.1 }
    ensures free { IsDataModule size result.0 result.1 }
{
    let (column, row) = corner_on(size, layer, side, along);
    (lines[column as usize], lines[row as usize])
}

/// Writes the columns and rows of all data lines.
pub(crate) fn write_lines(size: Size, lines: &mut [u32])
    requires sized { IsSize size }
    requires room { base_side size ≤ length lines.old }
    ensures { AreDataLines size lines.new }
{
    for number in 0..base(size) {
        lines[number as usize] = line(size, number);
    }
}

/// The bits of the layers outside a layer.
pub(crate) fn first_bit(size: Size, layer: u32) -> u32
    requires sized { IsSize size }
    requires layer { layer < size.layers }
    ensures { result ≡ bits_before size layer }
{
    8 * layer * (base(size) - 2 * layer)
}

/// The pairs of bits on one side of a layer.
pub(crate) fn pairs(size: Size, layer: u32) -> u32
    requires sized { IsSize size }
    requires layer { layer < size.layers }
    ensures pairs { result ≡ pairs_on_side size layer }
    ensures bounded { pairs_on_side size layer ≤ 140 }
{
    let innermost = if size.full { 12 } else { 9 };
    4 * (size.layers - layer) + innermost
}

/// The place of bit `number` of a layer, in columns and rows without reference lines.
fn corner(size: Size, layer: u32, number: u32) -> (u32, u32)
    requires sized { IsSize size }
    requires layer { layer < size.layers }
    requires inside { number < 8 * pairs_on_side size layer }
    ensures column { result.0 ≡ (corner_at size layer number).0 }
    ensures row { result.1 ≡ (corner_at size layer number).1 }
    ensures column_inside { result.0 < base_side size }
    ensures row_inside { result.1 < base_side size }
{
    let (side, along) = sided(number, 2 * pairs(size, layer));
    corner_on(size, layer, side, along)
}

/// The same by the side and the number on it.
#[inline(always)]
fn corner_on(size: Size, layer: u32, side: u32, along: u32) -> (u32, u32)
    requires sized { IsSize size }
    requires layer { layer < size.layers }
    requires along { along < 2 * pairs_on_side size layer }
    ensures column { result.0 ≡ (corner_at size layer (side * (2 * pairs_on_side size layer) + along)).0 }
    ensures row { result.1 ≡ (corner_at size layer (side * (2 * pairs_on_side size layer) + along)).1 }
    ensures column_inside { result.0 < base_side size }
    ensures row_inside { result.1 < base_side size }
{
    let low = 2 * layer;
    let high = base(size) - 1 - low;
    turned(low, high, side, along / 2, along % 2)
}

/// The side of a number of a layer, and the number on it, with no division.
fn sided(number: u32, run: u32) -> (u32, u32)
    requires some { 0 < run }
    requires fits { run < 65536 }
    requires inside { number < 4 * run }
    ensures side { result.0 ≡ number / run }
    ensures rest { result.1 ≡ number % run }
{
    if number < run {
        (0, number)
    } else if number < 2 * run {
        (1, number - run)
    } else if number < 3 * run {
        (2, number - 2 * run)
    } else {
        (3, number - 3 * run)
    }
}

/// The place of a pair's bit on side `round` of a layer from `low` to `high`.
fn turned(low: u32, high: u32, round: u32, pair: u32, bit: u32) -> (u32, u32)
    requires low { low + pair < 2 ^ 32 }
    requires bit { low + bit < 2 ^ 32 }
    requires high { pair ≤ high }
    requires bit_high { bit ≤ high }
    ensures column { result.0 ≡ (corner_of low high round pair bit).0 }
    ensures row { result.1 ≡ (corner_of low high round pair bit).1 }
{
    if round == 0 {
        (low + bit, low + pair)
    } else if round == 1 {
        (low + pair, high - bit)
    } else if round == 2 {
        (high - bit, high - pair)
    } else {
        (high - pair, low + bit)
    }
}

/// The column or row that is number `number` among those without reference lines.
fn line(size: Size, number: u32) -> u32
    requires sized { IsSize size }
    requires inside { number < base_side size }
    ensures { result ≡ data_line size number }
{
    if !size.full {
        return number;
    }
    let half = base(size) / 2;
    let centre = side(size) / 2;
    if number < half {
        let steps = half - 1 - number;
        centre - 1 - steps - steps / 15
    } else {
        let steps = number - half;
        centre + 1 + steps + steps / 15
    }
}

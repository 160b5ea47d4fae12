ghost use Rattle.std.specs.Prelude.{◌≡◌, ◌+◌, ◌*◌, ◌≤◌};

/// The size of an Aztec symbol: its kind, and its number of data layers, which is 1 to 4 in a
/// compact symbol and 1 to 32 in a full one.
#[derive(Clone, Copy, Debug, PartialEq, Eq)]
pub struct Size {
    /// Whether the symbol is a full one, with a reference grid.
    pub full: bool,
    /// The number of data layers.
    pub layers: u32,
}

ghost use Rattle.aztec_layout.specs.Sizes.{IsSize, base_side, codeword_width, codewords_of, holds_of, layer_bits, lead_bits, side_of};

/// The most data codewords that the mode message of a compact symbol can name.
const MOST_IN_COMPACT: u32 = 64;

/// The modules on a side, without the reference lines of a full symbol.
pub(crate) fn base(size: Size) -> u32
    requires { IsSize size }
    ensures { result ≡ base_side size }
{
    let core = if size.full { 14 } else { 11 };
    core + 4 * size.layers
}

/// The modules on a side of the square symbol (ISO/IEC 24778, symbol structure).
pub fn side(size: Size) -> u32
    requires { IsSize size }
    ensures { result ≡ side_of size }
{
    let base = base(size);
    if size.full {
        base + 1 + 2 * ((base / 2 - 1) / 15)
    } else {
        base
    }
}

/// The bits of a codeword: 6, 8, 10 or 12 (ISO/IEC 24778, symbol structure).
pub fn width(size: Size) -> u32
    requires { IsSize size }
    ensures { result ≡ codeword_width size }
{
    if size.layers <= 2 {
        6
    } else if size.layers <= 8 {
        8
    } else if size.layers <= 22 {
        10
    } else {
        12
    }
}

/// The bits of all data layers, at most 19,968 (ISO/IEC 24778, symbol structure).
pub fn bits(size: Size) -> u32
    requires { IsSize size }
    ensures bits { result ≡ layer_bits size }
    ensures bounded { result ≤ 19968 }
{
    let core = if size.full { 112 } else { 88 };
    (core + 16 * size.layers) * size.layers
}

/// The codewords of a size, of data and check together, at most 1,664 (ISO/IEC 24778, symbol structure).
pub fn codewords(size: Size) -> u32
    requires { IsSize size }
    ensures counted { result ≡ codewords_of size }
    ensures bounded { result ≤ 1664 }
{
    bits(size) / width(size)
}

/// The bits of the data layers that are left over in front of the codewords.
pub(crate) fn lead(size: Size) -> u32
    requires { IsSize size }
    ensures lead { result ≡ lead_bits size }
    ensures fits { result + codewords_of size * codeword_width size ≡ layer_bits size }
{
    bits(size) - codewords(size) * width(size)
}

/// The most data codewords of a size that keeps `share` percent of its codewords, and three more,
/// for the check (ISO/IEC 24778, error correction); in a compact size never more than 64.
pub fn holds(size: Size, share: u32) -> u32
    requires sized { IsSize size }
    requires shared { share ≤ 50 }
    ensures { result ≡ holds_of size share }
{
    let codewords = codewords(size);
    let room = codewords - 3 - (share * codewords).div_ceil(100);
    if size.full {
        room
    } else {
        room.min(MOST_IN_COMPACT)
    }
}

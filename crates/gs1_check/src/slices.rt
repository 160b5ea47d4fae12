//! Parts of bytes, and the digits in them.
ghost use Rattle.std.specs.Prelude.{◌≡◌, ◌≤◌, ◌<◌, ◌+◌, ◌^◌, IfSome, drop, length, position, slice_index, take};
ghost use Rattle.bar_base.specs.CheckDigit.{digit_value};
ghost use Rattle.gs1_check.specs.Identifiers.{two_digits};
ghost use Rattle.gs1_check.specs.Sections.{is_no_digit};

/// The first bytes, or all where there are no more.
pub fn front(bytes: &[u8], count: usize) -> &[u8]
    ensures { result.now ≡ take count bytes.now }
{
    if count < bytes.len() {
        &bytes[..count]
    } else {
        bytes
    }
}

/// What is behind the first bytes, or nothing where there are no more.
pub fn behind(bytes: &[u8], count: usize) -> &[u8]
    ensures { result.now ≡ drop count bytes.now }
{
    if count < bytes.len() {
        &bytes[count..]
    } else {
        &bytes[bytes.len()..]
    }
}

/// The number of the two digits from the place on.
pub fn two_digits(bytes: &[u8], at: usize) -> u32
    requires { at < 2 ^ 63 }
    ensures { result ≡ two_digits bytes.now at }
{
    u32::from(digit_at(bytes, at)) * 10 + u32::from(digit_at(bytes, at + 1))
}

/// The number of the digit at the place; 0 past the end.
pub fn digit_at(bytes: &[u8], at: usize) -> u8
    ensures { result ≡ digit_value (slice_index bytes.now at) }
{
    match bytes.get(at) {
        Some(byte) => byte.saturating_sub(b'0'),
        None => 0,
    }
}

/// The place of the first byte that is no digit.
pub fn first_no_digit(bytes: &[u8]) -> Option<usize>
    ensures place { result ≡ position is_no_digit bytes.now }
    ensures within { IfSome result (λ place. place < length bytes.now) }
{
    bytes.iter().position(|byte| is_no_digit(*byte))
}

fn is_no_digit(byte: u8) -> bool
    ensures { result ≡ is_no_digit byte }
{
    !byte.is_ascii_digit()
}

ghost use Rattle.std.specs.Prelude.{◌≡◌, min, length, take};

/// Copies as many of the bytes as fit to the front of `into`, and says how many.
pub(crate) fn copy_front(bytes: &[u8], into: &mut [u8]) -> usize
    ensures count { result ≡ min (length into.old) (length bytes.now) }
    ensures front { take result into.new ≡ take result bytes.now }
{
    let count = into.len().min(bytes.len());
    into[..count].copy_from_slice(&bytes[..count]);
    count
}

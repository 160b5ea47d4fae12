ghost use Rattle.std.specs.Prelude.{◌≡◌, ◌≤◌, ◌≢◌, ℕ, vec_len, IfOk, OnOk, OnErr, IfSome, IsErrOf};
ghost use Rattle.std.specs.List.{starts_with};
ghost use Rattle.std.specs.Io.KnownBytes.{Consumes, IsAtEnd};
ghost use Rattle.bar_base.specs.Faults.{Rose};
ghost use Rattle.bar_base.specs.Limits.{most_bmp_bytes};
ghost use Rattle.bar_base.specs.Input.{limit_for, TakesPrefix, IsTooLong, TakesMore};

use crate::source::Source;
use crate::take_fault::TakeFault;
use std::alloc::Global;

/// Reads a source to its end. The limit that counts, in bytes, is `bmp_limit` where the first two bytes left are `BM`, else `limit`;
/// both are 2 to 33,554,432. Refusals: `NoMemory`; `Failed` only where a fault was counted; `TooLong` with the limit that counts
/// exactly where more bytes are there. After a refusal a prefix of the bytes, perhaps empty, has been taken from the source.
pub fn read_all<S: Source>(
    alloc: Global,
    source: &mut S,
    limit: usize,
    bmp_limit: usize,
) -> Result<Vec<u8>, TakeFault>
    requires low { 2 ≤ limit }
    requires high { limit ≤ most_bmp_bytes }
    requires bmp_low { 2 ≤ bmp_limit }
    requires bmp_high { bmp_limit ≤ most_bmp_bytes }
    ensures whole { IfOk result (λ bytes. IfSome (S.left source.old) (λ input. bytes.items ≡ input)) }
    ensures taken { IfOk result (λ bytes. Consumes (S.left source.old) (S.left source.new) bytes.items) }
    ensures ended { OnOk result (IsAtEnd (S.left source.new)) }
    ensures within { IfOk result (λ bytes. vec_len bytes ≤ limit_for limit bmp_limit bytes.items) }
    ensures part { OnErr result (TakesPrefix (S.left source.old) (S.left source.new)) }
    ensures failed { IsErrOf result TakeFault.Failed → Rose (S.faults source.old) (S.faults source.new) }
    ensures too_long { (counts : ℕ) → IsErrOf result (TakeFault.TooLong counts) →
        IsTooLong limit bmp_limit (S.left source.old) (S.left source.new) counts }
    ensures rest { S.rest source.new ≡ S.rest source.old }
    ensures later { S.faults source.old ≤ S.faults source.new }
{
    let mut bytes = Vec::new(alloc);
    loop {
        if take_more(source, &mut bytes)? == 0 {
            return Ok(bytes);
        }
        let counts = limit_of(&bytes, limit, bmp_limit);
        if bytes.len() > counts {
            return Err(TakeFault::TooLong(counts));
        }
    }
}

// The limit that counts for an input that begins so.
fn limit_of(input: &[u8], limit: usize, bmp_limit: usize) -> usize
    ensures { result ≡ limit_for limit bmp_limit input.now }
{
    if input.starts_with(b"BM") {
        bmp_limit
    } else {
        limit
    }
}

// Reads once, puts what was read behind the bytes, and says how many there were; none is the end of the input.
fn take_more<S: Source>(source: &mut S, bytes: &mut Vec<u8>) -> Result<usize, TakeFault>
    ensures more { IfOk result (λ count.
        TakesMore (S.left source.old) (S.left source.new) bytes.old.items bytes.new.items count) }
    ensures part { OnErr result (TakesPrefix (S.left source.old) (S.left source.new)) }
    ensures failed { IsErrOf result TakeFault.Failed → Rose (S.faults source.old) (S.faults source.new) }
    ensures not_too_long { (counts : ℕ) → result ≢ Err (TakeFault.TooLong counts) }
    ensures rest { S.rest source.new ≡ S.rest source.old }
    ensures later { S.faults source.old ≤ S.faults source.new }
{
    let mut chunk = [0; 4096];
    let Ok(count) = source.read(&mut chunk) else {
        return Err(TakeFault::Failed);
    };
    if bytes.extend_from_slice(&chunk[..count]).is_err() {
        return Err(TakeFault::NoMemory);
    }
    Ok(count)
}

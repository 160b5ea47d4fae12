//! From the content of a message to its data.
ghost use Rattle.std.specs.Prelude.{◌≡◌, ◌<◌, IfOk, length};
ghost use Rattle.bar_base.specs.Steps.{only};
ghost use Rattle.zint_answers.specs.Steps.{MayAnswer};
ghost use Rattle.zint_draw.specs.Data.{data_of, not_empty, unescaped};

use input_escapes::{EscapeFault, unescape};
use std::alloc::Global;
use zint_answers::{Fault, Kind, Refusal};

/// The data: with escapes what they stand for, and else the content itself.
#[tactic(auto, unfolding(crate::specs::Data::data_of))]
pub fn data_of(alloc: Global, escapes: bool, raw: Vec<u8>) -> Result<Vec<u8>, Fault>
    ensures { MayAnswer (λ bytes. bytes.items) result (data_of escapes raw.items) }
{
    if escapes {
        unescaped(alloc, &raw)
    } else {
        Ok(raw)
    }
}

/// What a text with escapes stands for.
fn unescaped(alloc: Global, text: &[u8]) -> Result<Vec<u8>, Fault>
    ensures { MayAnswer (λ bytes. bytes.items) result (unescaped text.now) }
{
    match unescape(alloc, text) {
        Ok(bytes) => Ok(bytes),
        Err(EscapeFault::NoMemory) => Err(Fault::NoMemory),
        Err(EscapeFault::UnknownEscape(place)) => Err(bad_escape(place)),
        Err(EscapeFault::ShortEscape(place)) => Err(bad_escape(place)),
        Err(EscapeFault::OutOfRange(place)) => Err(bad_escape(place)),
    }
}

/// A backslash begins no escape.
fn bad_escape(place: usize) -> Fault
    ensures { result ≡ Fault.Refused (Refusal.BadData Kind.Escape place) }
{
    Fault::Refused(Refusal::BadData(Kind::Escape, place as u64))
}

/// Data that is not empty.
pub fn not_empty(bytes: &[u8]) -> Result<&[u8], Fault>
    ensures given { MayAnswer (λ some. some.now) result (only (not_empty bytes.now)) }
    ensures some { IfOk result (λ some. 0 < length some.now) }
{
    if bytes.is_empty() {
        return Err(Fault::Refused(Refusal::BadData(Kind::Empty, 0)));
    }
    Ok(bytes)
}

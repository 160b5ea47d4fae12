//! From bytes to a text that stands for them.
ghost use Rattle.std.specs.Prelude.{◌≡◌, ◌++◌, ◌<◌, ◌+◌, IfOk, OnOk};
ghost use Rattle.std.specs.List.{flat_map};
ghost use Rattle.input_escapes.specs.Escapes.{escaped, escaped_in_text, hexadecimal};
ghost use Rattle.input_escapes.specs.Texts.{StandsFor};

use bar_base::NoMemory;
use std::alloc::{AllocError, Global};

/// The bytes as a text of ASCII characters: 32 to 126 stand for themselves, the backslash is doubled, and every other byte is `\xNN`
/// with upper-case digits. `NoMemory` comes only for want of memory.
pub fn escape(alloc: Global, bytes: &[u8]) -> Result<Vec<u8>, NoMemory>
    ensures text { IfOk result (λ v. v.items ≡ flat_map escaped bytes.now) }
    ensures undone { IfOk result (λ v. StandsFor v.items bytes.now) }
{
    let mut text = Vec::new(alloc);
    for byte in bytes {
        push_escaped(&mut text, *byte)?;
    }
    Ok(text)
}

/// The text with escapes: as `escape`, but the bytes from 128 on stay. `NoMemory` comes only for want of memory.
pub fn escape_text(alloc: Global, text: &str) -> Result<Vec<u8>, NoMemory>
    ensures text { IfOk result (λ v. v.items ≡ flat_map escaped_in_text text.now) }
    ensures undone { IfOk result (λ v. StandsFor v.items text.now) }
{
    let mut escaped = Vec::new(alloc);
    for byte in text.as_bytes() {
        push_in_text(&mut escaped, *byte)?;
    }
    Ok(escaped)
}

#[tactic(auto, unfolding(crate::specs::Escapes::escaped_in_text))]
fn push_in_text(text: &mut Vec<u8>, byte: u8) -> Result<(), AllocError>
    ensures { OnOk result (text.new.items ≡ text.old.items ++ escaped_in_text byte) }
{
    if byte < 128 {
        push_escaped(text, byte)
    } else {
        text.push(byte)?;
        Ok(())
    }
}

#[tactic(auto, unfolding(crate::specs::Escapes::escaped))]
fn push_escaped(text: &mut Vec<u8>, byte: u8) -> Result<(), AllocError>
    ensures { OnOk result (text.new.items ≡ text.old.items ++ escaped byte) }
{
    if byte == b'\\' {
        text.extend_from_slice(b"\\\\")
    } else if 32 <= byte && byte <= 126 {
        text.push(byte)?;
        Ok(())
    } else {
        text.extend_from_slice(&[b'\\', b'x', hexadecimal(byte / 16), hexadecimal(byte % 16)])
    }
}

fn hexadecimal(digit: u8) -> u8
    requires { digit < 16 }
    ensures { result ≡ hexadecimal digit }
{
    if digit < 10 {
        b'0' + digit
    } else {
        b'A' + (digit - 10)
    }
}

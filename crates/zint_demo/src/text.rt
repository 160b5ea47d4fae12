//! The text of the demonstration, and its prefixes as elements of a message.
ghost use Rattle.std.specs.Prelude.{◌≡◌, ◌++◌, ◌≤◌, IfOk, OnOk, length};
ghost use Rattle.aztec_modes.specs.Entry.{bytes_as_elements};
ghost use Rattle.zint_demo.specs.Text.{piece, piece_end, demonstration_text};

use crate::generator::{Generator, byte_in, class_of, piece_length};
use bar_base::{Element, Elements, NoMemory};
use std::alloc::Global;

/// The bytes of the text.
pub const TEXT_BYTES: usize = 1500;

/// The text of a number: the pieces that the generator makes from it, up to 1,500 bytes.
pub fn demonstration_text(alloc: Global, number: u32) -> Result<Vec<u8>, NoMemory>
    ensures text { IfOk result (λ text. text.items ≡ demonstration_text number) }
    ensures counted { IfOk result (λ text. length text.items ≡ 1500) }
{
    let mut generator = Generator { state: number };
    let mut text = Vec::new(alloc);
    while text.len() < TEXT_BYTES {
        push_piece(&mut generator, &mut text)?;
    }
    text.truncate(TEXT_BYTES);
    Ok(text)
}

/// Puts the next piece at the end of `text`.
fn push_piece(generator: &mut Generator, text: &mut Vec<u8>) -> Result<(), NoMemory>
    ensures piece { OnOk result (text.new.items ≡ text.old.items ++ piece generator.old.state) }
    ensures end { OnOk result (generator.new.state ≡ piece_end generator.old.state) }
{
    let class = class_of(generator.draw());
    let length = piece_length(generator.draw());
    for _ in 0..length {
        text.push(byte_in(class, generator.draw()))?;
    }
    Ok(())
}

/// The elements of bytes.
#[tactic(auto, using(crate::proofs::Texts::elements_next), unfolding(aztec_modes::specs::Entry::bytes_as_elements))]
pub fn elements_of_bytes(alloc: Global, bytes: &[u8]) -> Result<Elements, NoMemory>
    ensures { IfOk result (λ elements. elements ≡ bytes_as_elements bytes.now) }
{
    let mut elements = Elements::new(alloc);
    for byte in bytes {
        elements.push(Element::Byte(*byte))?;
    }
    Ok(elements)
}

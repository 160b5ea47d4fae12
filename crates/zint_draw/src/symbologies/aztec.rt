//! Aztec Code (ISO/IEC 24778).
ghost use Rattle.std.specs.Prelude.{◌≡◌, ◌≤◌, ◌<◌, IfOk, length};
ghost use Rattle.aztec_modes.specs.Message.{IsMessage, message_elements};
ghost use Rattle.bar_base.specs.Steps.{only};
ghost use Rattle.zint_answers.specs.Steps.{MayAnswer};
ghost use Rattle.zint_settings.specs.Settings.{drawing_in};
ghost use Rattle.zint_draw.specs.Segments.{bytes_in_segments};
ghost use Rattle.zint_draw.specs.symbologies.Aztec.{aztec_head, draws_aztec, draws_elements, elements_for, within_limit};

use crate::segments::message_of;
use crate::symbologies::Symbol;
use aztec_best::MOST_ELEMENTS;
use aztec_draw::{AztecSymbol, DrawFault, draw_elements};
use aztec_layout::{Allowed, codewords, side};
use aztec_modes::into_elements;
use bar_base::{Elements, MOST_BYTES, Message, NoMemory};
use std::alloc::Global;
use zint_answers::{Fault, Refusal, Unit, put_bits, put_number, put_size, put_text};
use zint_settings::DrawingSettings;

/// The symbol of data, and of the segments behind it.
#[tactic(auto, using(zint_answers::proofs::Steps::stepping), unfolding(crate::specs::symbologies::Aztec::draws_aztec))]
pub fn draw(alloc: Global, settings: &DrawingSettings<'_>, bytes: &[u8]) -> Result<Symbol, Fault>
    requires some { 0 < length bytes.now }
    requires few { bytes_in_segments (drawing_in settings.now).segments ≤ MOST_BYTES }
    ensures { MayAnswer (λ symbol. symbol) result (draws_aztec (drawing_in settings.now) bytes.now) }
{
    let elements = elements_for(alloc, settings, bytes)?;
    draw_spelling(alloc, settings, &elements)
}

/// The elements of data and of the segments behind it, of which there are not too many.
#[tactic(auto, using(zint_answers::proofs::Steps::stepping), unfolding(crate::specs::symbologies::Aztec::elements_for))]
fn elements_for(
    alloc: Global,
    settings: &DrawingSettings<'_>,
    bytes: &[u8],
) -> Result<Elements, Fault>
    requires some { 0 < length bytes.now }
    requires few { bytes_in_segments (drawing_in settings.now).segments ≤ MOST_BYTES }
    ensures given { MayAnswer (λ elements. elements) result (elements_for (drawing_in settings.now) bytes.now) }
    ensures some { IfOk result (λ elements. 0 < length elements) }
    ensures within { IfOk result (λ elements. length elements ≤ MOST_ELEMENTS) }
{
    let message = message_of(alloc, settings, bytes)?;
    within_limit(alloc, message)
}

/// The elements of a message, of which there are not too many.
fn within_limit(alloc: Global, message: Message) -> Result<Elements, Fault>
    requires { IsMessage message }
    ensures given { MayAnswer (λ elements. elements) result (only (within_limit (message_elements message))) }
    ensures same { IfOk result (λ elements. elements ≡ message_elements message) }
    ensures within { IfOk result (λ elements. length elements ≤ MOST_ELEMENTS) }
{
    let elements = into_elements(alloc, message)?;
    if elements.len() > MOST_ELEMENTS {
        return Err(Fault::Refused(Refusal::TooLong(MOST_ELEMENTS as u64, Unit::Elements)));
    }
    Ok(elements)
}

/// The symbol of elements, with the mark of a structured append set where it is one of a set.
#[tactic(auto, using(crate::proofs::SegmentSteps::asked_for_set))]
fn draw_spelling(
    alloc: Global,
    settings: &DrawingSettings<'_>,
    elements: &Elements,
) -> Result<Symbol, Fault>
    requires some { 0 < length elements.now }
    requires within { length elements.now ≤ MOST_ELEMENTS }
    ensures { MayAnswer (λ symbol. symbol) result (draws_elements (drawing_in settings.now) elements.now) }
{
    let allowed = Allowed::of(settings.options.share, settings.options.version);
    match draw_elements(alloc, settings.append.is_some(), elements, allowed) {
        Ok(symbol) => Ok(Symbol::Aztec(symbol)),
        Err(DrawFault::NoMemory) => Err(Fault::NoMemory),
        Err(DrawFault::NoFit(misfit)) => Err(Fault::Refused(Refusal::NoFit(misfit))),
    }
}

/// The lines of the report before the grid: the number of bits and the bits of the spelling, the size, the modules of a side, the
/// codewords that hold data and the check codewords.
pub fn head(alloc: Global, symbol: &AztecSymbol) -> Result<Vec<u8>, NoMemory>
    ensures { IfOk result (λ head. head.items ≡ aztec_head symbol.now) }
{
    let mut head = Vec::new(alloc);
    put_text(&mut head, b"symbol=92\nbits=")?;
    put_number(&mut head, symbol.spelling.len() as u64)?;
    put_text(&mut head, b"\nspelling=")?;
    put_bits(&mut head, &symbol.spelling)?;
    put_text(&mut head, b"\nsize=")?;
    put_size(&mut head, symbol.size)?;
    put_text(&mut head, b"\nside=")?;
    put_number(&mut head, u64::from(side(symbol.size)))?;
    put_text(&mut head, b"\ncodewords=")?;
    put_number(&mut head, u64::from(symbol.held))?;
    put_text(&mut head, b"+")?;
    put_number(&mut head, u64::from(codewords(symbol.size) - symbol.held))?;
    put_text(&mut head, b"\ngrid:\n")?;
    Ok(head)
}

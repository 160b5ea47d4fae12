//! Code 128 and GS1-128 (ISO/IEC 15417, GS1 General Specifications).
ghost use Rattle.std.specs.Prelude.{◌≡◌, ◌≤◌, ◌<◌, All, IfOk, length};
ghost use Rattle.aztec_modes.specs.Message.{IsMessage, message_elements};
ghost use Rattle.code128_best.specs.Spelling.{AreDrawnValues, IsCode128Element};
ghost use Rattle.bar_base.specs.Steps.{only};
ghost use Rattle.zint_answers.specs.Steps.{MayAnswer};
ghost use Rattle.zint_draw.specs.Message.{IsDataKind, WritesNoEci};
ghost use Rattle.zint_draw.specs.symbologies.Code128.{draws128, draws_values, elements128, head128, kind128, within_limit128};

use crate::message::{DataKind, message_for};
use crate::symbologies::Symbol;
use aztec_modes::elements_of;
use bar_base::{Elements, Grid, Message, NoMemory};
use code128_best::{CodeFault, MOST_ELEMENTS, Values, check, modules, shortest};
use std::alloc::Global;
use zint_answers::{Fault, Refusal, Unit, put_number, put_numbers, put_text};
use zint_settings::{DrawingOptions, DrawingSettings, Gs1Brackets, Symbology};

/// A symbol of Code 128 or GS1-128.
#[derive(Debug, Drop)]
pub struct Code128Symbol {
    /// Code 128 or GS1-128.
    pub symbology: Symbology,
    /// The start value and the values after it, before the check value.
    pub values: Values,
    /// The modules, one row.
    pub grid: Grid,
}

/// The symbol of data.
#[tactic(auto, using(zint_answers::proofs::Steps::stepping), unfolding(crate::specs::symbologies::Code128::draws128))]
pub fn draw(alloc: Global, settings: &DrawingSettings<'_>, bytes: &[u8]) -> Result<Symbol, Fault>
    requires { 0 < length bytes.now }
    ensures { MayAnswer (λ symbol. symbol) result (draws128 settings.now.options bytes.now) }
{
    let elements = elements_for(alloc, settings.options, bytes)?;
    draw_values(alloc, settings.options.symbology, &elements)
}

/// What the data is, by the options.
fn data_kind(options: DrawingOptions) -> DataKind
    ensures kind { result ≡ kind128 options }
    ensures number { IsDataKind result }
    ensures plain { WritesNoEci result }
{
    match options.gs1 {
        Some(Gs1Brackets::Round) => DataKind::Gs1 { parens: true },
        Some(Gs1Brackets::Square) => DataKind::Gs1 { parens: false },
        None => {
            if options.binary {
                DataKind::Bytes { eci: None }
            } else {
                DataKind::Latin1
            }
        }
    }
}

/// The elements of data, of which there are not too many.
#[tactic(auto, using(zint_answers::proofs::Steps::stepping), unfolding(crate::specs::symbologies::Code128::elements128))]
fn elements_for(alloc: Global, options: DrawingOptions, bytes: &[u8]) -> Result<Elements, Fault>
    requires { 0 < length bytes.now }
    ensures given { MayAnswer (λ elements. elements) result (elements128 options bytes.now) }
    ensures some { IfOk result (λ elements. 0 < length elements) }
    ensures within { IfOk result (λ elements. length elements ≤ MOST_ELEMENTS) }
    ensures each { IfOk result (λ elements. All IsCode128Element elements) }
{
    let message = message_for(alloc, data_kind(options), bytes)?;
    within_limit(alloc, &message)
}

/// The elements of a message, of which there are not too many.
fn within_limit(alloc: Global, message: &Message) -> Result<Elements, Fault>
    requires { IsMessage message.now }
    ensures given { MayAnswer (λ elements. elements) result (only (within_limit128 (message_elements message.now))) }
    ensures same { IfOk result (λ elements. elements ≡ message_elements message.now) }
    ensures within { IfOk result (λ elements. length elements ≤ MOST_ELEMENTS) }
{
    let elements = elements_of(alloc, message)?;
    if elements.len() > MOST_ELEMENTS {
        return Err(Fault::Refused(Refusal::TooLong(MOST_ELEMENTS as u64, Unit::Elements)));
    }
    Ok(elements)
}

/// The symbol of elements: that of the fewest values that spell them, and of several such lists of the first in dictionary order.
fn draw_values(alloc: Global, symbology: Symbology, elements: &Elements) -> Result<Symbol, Fault>
    requires some { 0 < length elements.now }
    requires within { length elements.now ≤ MOST_ELEMENTS }
    requires each { All IsCode128Element elements.now }
    ensures { MayAnswer (λ symbol. symbol) result (draws_values symbology elements.now) }
{
    let values = drawn_values(alloc, elements)?;
    let grid = modules(alloc, &values)?;
    Ok(Symbol::Code128(Code128Symbol {
        symbology,
        values,
        grid,
    }))
}

/// The values that are drawn for elements.
fn drawn_values(alloc: Global, elements: &Elements) -> Result<Values, NoMemory>
    requires some { 0 < length elements.now }
    requires within { length elements.now ≤ MOST_ELEMENTS }
    requires each { All IsCode128Element elements.now }
    ensures { IfOk result (λ values. AreDrawnValues elements.now values) }
{
    match shortest(alloc, elements) {
        Ok(values) => Ok(values),
        Err(CodeFault::NoMemory) => Err(NoMemory),
        Err(CodeFault::TooLong) => unreachable!(),
    }
}

/// The lines of the report before the grid: the number of values and the values, the check value, and the modules of the width.
pub fn head(alloc: Global, symbol: &Code128Symbol) -> Result<Vec<u8>, NoMemory>
    ensures { IfOk result (λ head. head.items ≡ head128 symbol.now) }
{
    let mut head = Vec::new(alloc);
    put_text(&mut head, b"symbol=")?;
    put_number(&mut head, u64::from(symbol.symbology.number()))?;
    put_text(&mut head, b"\ncharacters=")?;
    put_number(&mut head, symbol.values.len() as u64)?;
    put_text(&mut head, b"\nvalues=")?;
    put_numbers(&mut head, symbol.values.as_slice())?;
    put_text(&mut head, b"\ncheck=")?;
    put_number(&mut head, u64::from(check(&symbol.values)))?;
    put_text(&mut head, b"\nmodules=")?;
    put_number(&mut head, u64::from(symbol.grid.width()))?;
    put_text(&mut head, b"\ngrid:\n")?;
    Ok(head)
}

//! The demonstration of a number.
ghost use Rattle.std.specs.Prelude.{◌≡◌, ◌++◌, ◌<◌, ◌≤◌, IfErr, IfOk, OnOk, length};
ghost use Rattle.zint_answers.specs.Steps.{MayAnswer};
ghost use Rattle.zint_answers.specs.declared.fault.Fault.TheVariants as fault;
ghost use Rattle.zint_demo.specs.Demonstration.{IsNearDrawing, adds_line, demonstrates, demonstrates_text, draws_bytes, demonstration_line, shows_last_symbol};
ghost use Rattle.zint_demo.specs.Text.{demonstration_text};

use crate::damage::{damage_of, damaged};
use crate::text::{TEXT_BYTES, demonstration_text, elements_of_bytes};
use aztec_draw::{AztecSymbol, DrawFault, draw_elements};
use aztec_layout::{Allowed, codewords};
use bar_base::{Grid, NoMemory};
use std::alloc::Global;
use zint_answers::{Fault, put_number, put_size, put_text};

/// The share of check codewords in percent.
const SHARE: u32 = 23;

/// What the demonstration shows.
#[derive(Debug, Drop)]
pub struct Demonstration {
    /// A line for each prefix, and the line `grid:`.
    pub lines: Vec<u8>,
    /// The modules of the last prefix's symbol, damaged.
    pub grid: Grid,
}

/// The demonstration of a number: a text of 1,500 bytes is made from it, and its prefixes of 1, 10, 100, 500 and 1,500
/// bytes are drawn, each in the smallest size that keeps 23 percent of its codewords, and three more, for the check
/// (ISO/IEC 24778). There is a line for each prefix. The last symbol is given damaged: half as many of its codewords as it
/// has check codewords, rounded down, have the module of their first bit turned. The only fault is want of memory.
pub fn demonstrate(alloc: Global, number: u32) -> Result<Demonstration, Fault>
    ensures given { MayAnswer (λ shown. shown) result (demonstrates number) }
    // finder and mode message are as drawn, and the codewords differ in at most half as many as there are check codewords
    ensures near { IfOk result (λ shown. IsNearDrawing (demonstration_text number) shown.grid) }
    ensures memory { IfErr result (λ f. f ≡ fault.NoMemory) }
{
    let text = demonstration_text(alloc, number)?;
    demonstrate_text(alloc, &text)
}

/// The demonstration of a text.
#[tactic(auto, using(zint_answers::proofs::Steps::stepping), unfolding(crate::specs::Demonstration::demonstrates_text))]
fn demonstrate_text(alloc: Global, text: &[u8]) -> Result<Demonstration, Fault>
    requires { length text.now ≡ 1500 }
    ensures given { MayAnswer (λ shown. shown) result (demonstrates_text text.now) }
    ensures near { IfOk result (λ shown. IsNearDrawing text.now shown.grid) }
{
    let none = Vec::new(alloc);
    let one = with_line(alloc, none, text, 1)?;
    let ten = with_line(alloc, one, text, 10)?;
    let hundred = with_line(alloc, ten, text, 100)?;
    let lines = with_line(alloc, hundred, text, 500)?;
    with_grid(alloc, lines, text)
}

/// The lines with that of a prefix of the text behind them.
#[tactic(auto, using(zint_answers::proofs::Steps::stepping), unfolding(crate::specs::Demonstration::adds_line))]
fn with_line(alloc: Global, lines: Vec<u8>, text: &[u8], count: usize) -> Result<Vec<u8>, Fault>
    requires some { 0 < count }
    requires inside { count ≤ length text.now }
    requires few { count ≤ 1500 }
    ensures { MayAnswer (λ more. more.items) result (adds_line lines.items text.now count) }
{
    let symbol = draw_bytes(alloc, &text[..count])?;
    let mut lines = lines;
    put_line(&mut lines, count, &symbol)?;
    Ok(lines)
}

/// The lines with that of the whole text and the line `grid:` behind them, and the modules of the text's symbol,
/// damaged.
#[tactic(auto, using(zint_answers::proofs::Steps::stepping), unfolding(crate::specs::Demonstration::shows_last_symbol))]
fn with_grid(alloc: Global, lines: Vec<u8>, text: &[u8]) -> Result<Demonstration, Fault>
    requires { length text.now ≡ 1500 }
    ensures given { MayAnswer (λ shown. shown) result (shows_last_symbol lines.items text.now) }
    ensures near { IfOk result (λ shown. IsNearDrawing text.now shown.grid) }
{
    let symbol = draw_bytes(alloc, text)?;
    let mut lines = lines;
    put_line(&mut lines, TEXT_BYTES, &symbol)?;
    put_text(&mut lines, b"grid:\n")?;
    let grid = damaged(symbol);
    Ok(Demonstration { lines, grid })
}

/// The symbol of at most 1,500 bytes, which always fit.
#[tactic(auto, using(crate::proofs::Texts::elements_length))]
fn draw_bytes(alloc: Global, bytes: &[u8]) -> Result<AztecSymbol, Fault>
    requires some { 0 < length bytes.now }
    requires few { length bytes.now ≤ 1500 }
    ensures { MayAnswer (λ symbol. symbol) result (draws_bytes bytes.now) }
{
    let elements = elements_of_bytes(alloc, bytes)?;
    match draw_elements(alloc, false, &elements, Allowed::of(SHARE, None)) {
        Ok(symbol) => Ok(symbol),
        Err(DrawFault::NoMemory) => Err(Fault::NoMemory),
        Err(DrawFault::NoFit(_)) => unreachable!(),
    }
}

/// Puts the line of a prefix of so many bytes at the end of `lines`.
#[tactic(auto, unfolding(crate::specs::Demonstration::demonstration_line))]
fn put_line(lines: &mut Vec<u8>, count: usize, symbol: &AztecSymbol) -> Result<(), NoMemory>
    ensures { OnOk result (lines.new.items ≡ lines.old.items ++ demonstration_line count symbol.now) }
{
    put_text(lines, b"bytes=")?;
    put_number(lines, count as u64)?;
    put_text(lines, b" bits=")?;
    put_number(lines, symbol.spelling.len() as u64)?;
    put_text(lines, b" size=")?;
    put_size(lines, symbol.size)?;
    put_text(lines, b" codewords=")?;
    put_number(lines, u64::from(symbol.held))?;
    put_text(lines, b"+")?;
    put_number(lines, u64::from(codewords(symbol.size) - symbol.held))?;
    put_text(lines, b" damaged=")?;
    put_number(lines, u64::from(damage_of(symbol)))?;
    put_text(lines, b"\n")?;
    Ok(())
}

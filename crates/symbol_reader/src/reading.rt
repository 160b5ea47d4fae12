ghost use Rattle.std.specs.Prelude.{◌≡◌, ℕ, ◌<◌, ◌≤◌, All, List, IfOk, IfErr, length, take, if◌then◌else◌};
ghost use Rattle.galois.specs.CheckNumbers.{polynomial_of};
ghost use Rattle.aztec_layout.specs.CoreReading.{AreModeWords};
ghost use Rattle.aztec_layout.specs.DataReading.{HasSide};
ghost use Rattle.aztec_layout.specs.ModeMessage.{check_words};
ghost use Rattle.aztec_layout.specs.Sizes.{IsSize, codeword_width};
ghost use Rattle.aztec_layout.specs.Stuffing.{IsWord, unstuffed};
ghost use Rattle.aztec_modes.specs.Reading.{IsReading};
ghost use Rattle.symbol_reader.specs.declared.grid_fault.GridFault.TheVariants.{NoMemory as Wanting};
ghost use Rattle.symbol_reader.specs.declared.reading.Reading.{Reading as ReadingValue};
ghost use Rattle.symbol_reader.specs.Correction.{IsCorrectionOf};
ghost use Rattle.symbol_reader.specs.declared.reading.LostReading.{LostReading as LostReadingValue};
ghost use Rattle.symbol_reader.specs.Drawn.{ReadsBack, ReadsKnown, ReadsLostBack, ReadsWhole};
ghost use Rattle.symbol_reader.specs.Reading.{AreCorrected, IsFaultIn, IsGridFault, IsFound, IsLostReadingOf, IsMode, IsReadingIn, IsReadingOf};
ghost use Rattle.symbol_reader.specs.Sight.{Sight, lost_between, seen_sight, sight_of};

use crate::correction::{Correction, correct, correct_codewords};
use crate::darkening::darkened;
use crate::finding::found_size;
use crate::grid_fault::GridFault;
use crate::held::held_in;
use crate::lost_words::{differing, lost_codewords};
use crate::seen::Seen;
use crate::unknown::Unknown;
use aztec_layout::{Size, WordFault, codewords, codewords_read, mode_read, unstuff, width};
use aztec_modes::{ReadFault, read};
use bar_base::{Bits, Grid, Message, NoMemory, Short, Words};
use galois::P16;
use std::alloc::Global;

/// What a picture reads as.
#[derive(Debug, Drop)]
pub struct Reading {
    /// What the symbol says.
    pub message: Message,
    /// The size of the symbol.
    pub size: Size,
    /// The number of data codewords.
    pub held: u32,
    /// The number of check codewords.
    pub check: u32,
    /// How many of all codewords were wrong; of those that are not lost, where some are.
    pub corrected: u32,
}

/// What a picture of which some modules are unknown reads as.
#[derive(Debug, Drop)]
pub struct LostReading {
    /// What it reads as.
    pub reading: Reading,
    /// How many of all codewords were lost: those with an unknown module.
    pub lost: u32,
}

/// The mode words that a picture with the side of a size shows.
fn shown_mode(grid: &Grid, size: Size) -> Short<10>
    requires { HasSide grid.now size }
    ensures words { AreModeWords size.full grid.now result }
{
    mode_read(grid, size.full)
}

/// Words as numbers of a list.
fn numbers(alloc: Global, words: &[u8]) -> Result<Words, NoMemory>
    ensures { IfOk result (λ numbers. numbers ≡ words.now) }
{
    let mut numbers = Words::new(alloc);
    for word in words {
        numbers.push(u16::from(*word))?;
    }
    Ok(numbers)
}

/// The correction of the mode words of a kind, of which those are lost that are not the same in the other list.
fn mode_correction(
    alloc: Global,
    words: &[u8],
    others: &[u8],
    full: bool,
) -> Result<Option<Correction>, NoMemory>
    requires counted { length words.now ≡ (if full then 10 else 7) }
    requires alike { length others.now ≡ length words.now }
    requires each { All (λ word. word < 16) words.now }
    ensures { IfOk result (IsCorrectionOf 4 (polynomial_of 4) (check_words full)
        (lost_between words.now others.now) words.now) }
{
    let words = numbers(alloc, words)?;
    let others = numbers(alloc, others)?;
    let lost = differing(alloc, words.as_slice(), others.as_slice())?;
    correct::<P16>(alloc, words.as_slice(), &lost, if full { 6 } else { 5 })
}

/// The number of data codewords of the symbol in a picture, by its mode message.
pub(crate) fn held_codewords(alloc: Global, seen: &Seen<'_>, size: Size) -> Result<u32, GridFault>
    requires { IsFound (seen_sight seen.now) size }
    ensures mode { IfOk result (IsMode (seen_sight seen.now) size) }
    ensures refused { IfErr result (IsFaultIn (seen_sight seen.now)) }
{
    let words = shown_mode(seen.grid, size);
    let others = shown_mode(seen.dark, size);
    match mode_correction(alloc, words.as_slice(), others.as_slice(), size.full)? {
        None => Err(GridFault::BadMode(words)),
        Some(mode) => match held_in(size, mode.words.as_slice()) {
            None => Err(GridFault::BadMode(words)),
            Some(held) => Ok(held),
        },
    }
}

/// The codewords of the symbol in a picture, corrected.
fn corrected_codewords(
    alloc: Global,
    seen: &Seen<'_>,
    size: Size,
    held: u32,
) -> Result<Correction, GridFault>
    requires { IsMode (seen_sight seen.now) size held }
    ensures corrected { IfOk result (λ correction.
        AreCorrected (seen_sight seen.now) size held correction.words correction.errors correction.gone) }
    ensures refused { IfErr result (IsFaultIn (seen_sight seen.now)) }
{
    let count = codewords(size);
    let words = codewords_read(alloc, seen.grid, size)?;
    let lost = lost_codewords(alloc, seen, size, words.as_slice())?;
    match correct_codewords(
        alloc,
        size,
        words.as_slice(),
        &lost,
        (count - held) as usize,
    )? {
        None => Err(GridFault::TooDamaged(count, count - held)),
        Some(correction) => Ok(correction),
    }
}

/// The first so many words.
fn first_words(alloc: Global, words: &[u16], count: usize) -> Result<Words, NoMemory>
    requires { count ≤ length words.now }
    ensures { IfOk result (λ first. first ≡ take count words.now) }
{
    let mut first = Words::new(alloc);
    for word in &words[..count] {
        first.push(*word)?;
    }
    Ok(first)
}

/// The bits that the data codewords carry.
fn data_bits(
    alloc: Global,
    size: Size,
    held: u32,
    correction: &Correction,
) -> Result<Bits, GridFault>
    requires sized { IsSize size }
    requires inside { held ≤ length correction.now.words }
    ensures good { IfOk result (λ bits. All (IsWord (codeword_width size)) (take held correction.now.words)) }
    ensures bits { IfOk result (λ bits. bits ≡ unstuffed (codeword_width size) (take held correction.now.words)) }
    ensures refused { (sight : Sight) →
        AreCorrected sight size held correction.now.words correction.now.errors correction.now.gone →
        IfErr result (IsFaultIn sight) }
{
    let first = first_words(alloc, correction.words.as_slice(), held as usize)?;
    match unstuff(alloc, &first, width(size)) {
        Err(WordFault::NoMemory) => Err(GridFault::NoMemory),
        Err(WordFault::BadWord(place)) => Err(GridFault::BadWord(place)),
        Ok(bits) => Ok(bits),
    }
}

/// What the bits say.
fn message_in(alloc: Global, bits: &Bits, size: Size) -> Result<Message, GridFault>
    requires { IsSize size }
    ensures reading { IfOk result (IsReading (codeword_width size) bits.now) }
    ensures refused { IfErr result (λ fault. (sight : Sight) (held errors gone : ℕ) (codewords : List ℕ) →
        AreCorrected sight size held codewords errors gone → All (IsWord (codeword_width size)) (take held codewords) →
        bits.now ≡ unstuffed (codeword_width size) (take held codewords) → IsFaultIn sight fault) }
{
    match read(alloc, bits, width(size)) {
        Err(ReadFault::NoMemory) => Err(GridFault::NoMemory),
        Err(ReadFault::BadSpelling(place)) => Err(GridFault::BadSpelling(place)),
        Ok(message) => Ok(message),
    }
}

/// What the symbol in a picture says, step by step.
fn reading_in(alloc: Global, seen: &Seen<'_>) -> Result<LostReading, GridFault>
    ensures reading { IfOk result (λ read. IsReadingIn (seen_sight seen.now) read.reading read.lost) }
    ensures refused { IfErr result (IsFaultIn (seen_sight seen.now)) }
{
    let size = found_size(seen)?;
    let held = held_codewords(alloc, seen, size)?;
    let correction = corrected_codewords(alloc, seen, size, held)?;
    let bits = data_bits(alloc, size, held, &correction)?;
    let message = message_in(alloc, &bits, size)?;
    Ok(LostReading {
        reading: Reading {
            message,
            size,
            held,
            check: codewords(size) - held,
            corrected: correction.errors as u32,
        },
        lost: correction.gone as u32,
    })
}

/// What the symbol in a picture says whose modules are all known.
fn known_reading(alloc: Global, grid: &Grid) -> Result<Reading, GridFault>
    ensures reading { IfOk result (IsReadingOf grid.now) }
    ensures refused { IfErr result (IsGridFault grid.now) }
{
    let seen = Seen {
        grid,
        dark: grid,
        whole: true,
    };
    let read = reading_in(alloc, &seen)?;
    Ok(read.reading)
}

/// What the Aztec symbol in a picture says, where at most half as many of its codewords are wrong as there are check
/// codewords, and of its mode words at most 2 in a compact and 3 in a full symbol. The picture has a module of the
/// symbol for each of its modules and nothing round it (ISO/IEC 24778, reference decode algorithm).
///
/// Each refusal comes exactly where it is due, unless memory is wanting, and the first of them in this order: `BadSide`,
/// no size has this side; `NoFinder`; `BadMode`, no mode message of the size is near; `TooDamaged`; `BadWord`, a data
/// codeword is all zeros or all ones; `BadSpelling`, the bits have no reading.
pub fn read_grid(alloc: Global, grid: &Grid) -> Result<Reading, GridFault>
    ensures reading { IfOk result (IsReadingOf grid.now) }
    ensures only { IfOk result (λ reading. (other : ReadingValue) →
        IsReadingOf grid.now other → other ≡ reading) }
    ensures refused { IfErr result (IsGridFault grid.now) }
    ensures none { IfErr result (λ fault. (other : ReadingValue) →
        IsReadingOf grid.now other → fault ≡ Wanting) }
    // a picture near the symbol of a message reads as that message
    ensures back { ReadsBack grid.now result }
    // and the symbol itself with nothing corrected
    ensures whole { ReadsWhole grid.now result }
{
    known_reading(alloc, grid)
}

/// What the symbol in a picture says of which some modules are unknown.
fn unknown_reading(alloc: Global, unknown: &Unknown) -> Result<LostReading, GridFault>
    ensures alike { length unknown.now.grid.modules ≡ length unknown.now.lost.modules }
    ensures reading { IfOk result (IsLostReadingOf unknown.now) }
    ensures refused { IfErr result (IsFaultIn (sight_of unknown.now)) }
{
    let dark = darkened(alloc, &unknown.grid, &unknown.lost)?;
    let seen = Seen {
        grid: &unknown.grid,
        dark: &dark,
        whole: false,
    };
    reading_in(alloc, &seen)
}

/// The same of a picture of which some modules are unknown. A codeword or a mode word with an unknown module is lost: twice
/// the number of the known ones that are wrong and the number of the lost ones are together at most the number of check
/// codewords, and of mode words at most 5 in a compact and 6 in a full symbol. An unknown module of the finder or its marks
/// counts as one that differs; any other one counts as light. (ISO/IEC 24778, reference decode algorithm and error
/// correction: errors and erasures.)
///
/// The refusals are those of `read_grid`, in its order; `BadMode` tells the mode words as they are read.
pub fn read_unknown(alloc: Global, unknown: &Unknown) -> Result<LostReading, GridFault>
    ensures reading { IfOk result (IsLostReadingOf unknown.now) }
    ensures only { IfOk result (λ read. (other : LostReadingValue) → IsLostReadingOf unknown.now other → other ≡ read) }
    ensures refused { IfErr result (IsFaultIn (sight_of unknown.now)) }
    ensures none { IfErr result (λ fault. (other : LostReadingValue) →
        IsLostReadingOf unknown.now other → fault ≡ Wanting) }
    // a picture near the symbol of a message reads as that message
    ensures back { ReadsLostBack unknown.now result }
    // where all modules are known, it reads as any picture does
    ensures known { ReadsKnown unknown.now result }
{
    unknown_reading(alloc, unknown)
}

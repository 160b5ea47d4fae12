//! Prints the shortest spelling of a text in the codes of Aztec symbols, by the crates `aztec_modes` and `aztec_best`:
//! how many bits it has, its codes in words, and its bits.
//!
//! A symbol's data is a row of codes, each of which belongs to one of five modes: a plain code spells a character of
//! the mode, a latch changes the mode, a shift changes it for one code, and a run spells bytes by eight bits each.
//! (ISO/IEC 24778, Character encodation.)
#![tactic(auto)]

ghost use Rattle.std.specs.Prelude.{◌≡◌, ◌<◌, ◌≤◌, ◌+◌, ◌^◌, Bool, List, length, IfOk};
ghost use Rattle.aztec_modes.specs.Entry.{bytes_as_elements, code_count, code_next};
ghost use Rattle.aztec_modes.specs.declared.mode.Mode.TheVariants.{Upper};
ghost use Rattle.aztec_best.specs.Bench.{IsFilled};
ghost use Rattle.aztec_best.specs.Shortest.{IsFirst};

use aztec_best::{Bench, MOST_ELEMENTS, Stand, path_next, shortest};
use aztec_modes::{Code, Mode, Path, code_count, code_length, code_next, spell};
use bar_base::{Bits, Element, Elements, NoMemory};
use std::alloc::Global;
use std::io;

/// The text, a byte a character: by ISO/IEC 8859-1, as a symbol is read that names no other character set.
const TEXT: &[u8] = b"Caf\xE9 No. 12!";

/// A spelling: its codes, and the bits of all of them.
#[derive(Debug, Drop)]
struct Spelling {
    codes: Path,
    bits: Bits,
}

/// The elements of a message that is these bytes.
fn elements_of(alloc: Global, bytes: &[u8]) -> Result<Elements, NoMemory>
    ensures { IfOk result (λ elements. elements ≡ bytes_as_elements bytes.now) }
{
    let mut elements = Elements::new(alloc);
    for byte in bytes {
        elements.push(Element::Byte(*byte))?;
    }
    Ok(elements)
}

/// The stand after a code: its mode, and the place behind what it spells.
fn stand_after(at: Stand, code: Code) -> Stand
    requires { at.place + code_count at.mode code < 2 ^ 32 }
    ensures mode { result.mode ≡ code_next at.mode code }
    ensures place { result.place ≡ at.place + code_count at.mode code }
{
    Stand {
        mode: code_next(at.mode, code),
        place: at.place + code_count(at.mode, code),
    }
}

/// The codes of the shortest spelling of the elements, asked one after the other of the bench that is filled for them.
fn codes_of(alloc: Global, bench: &Bench, elements: &Elements) -> Result<Path, NoMemory>
    requires { IsFilled bench.now elements.now }
    ensures { IfOk result (λ codes. (bits : List Bool) × IsFirst Upper elements.now codes bits) }
{
    let length = elements.len();
    let mut codes = Path::new(alloc);
    // (each symbol starts in Upper mode)
    let mut at = Stand {
        mode: Mode::Upper,
        place: 0,
    };
    while (at.place as usize) < length {
        let code = path_next(bench, elements, at);
        codes.push(code)?;
        at = stand_after(at, code);
    }
    Ok(codes)
}

/// The shortest spelling of up to 8,192 elements, and of the shortest the one whose bits come first in dictionary
/// order.
fn shortest_spelling(alloc: Global, elements: &Elements) -> Result<Spelling, NoMemory>
    requires { length elements.now ≤ MOST_ELEMENTS }
    ensures { IfOk result (λ spelling. IsFirst Upper elements.now spelling.codes spelling.bits) }
{
    let mut bench = Bench::new(alloc)?;
    let _fewest = shortest(&mut bench, elements);
    let codes = codes_of(alloc, &bench, elements)?;
    let bits = spell(alloc, &codes, elements)?;
    Ok(Spelling { codes, bits })
}

/// Prints a code in words.
fn print_code(rt: &HostRuntime, code: Code) -> io::Result<()> {
    match code {
        Code::Latch(mode) => print!(rt; " latch to {mode:?}"),
        Code::Plain(_) => print!(rt; " plain:"),
        Code::Shift(mode, _) => print!(rt; " shift to {mode:?}:"),
        Code::Fnc1 => print!(rt; " FNC1"),
        Code::Eci(number, _) => print!(rt; " ECI {number}"),
        Code::Run(count, _) => print!(rt; " run of {count}:"),
    }
}

/// Prints a line for each code: its bits, the code in words, and the characters that it spells.
fn print_codes(rt: &HostRuntime, elements: &Elements, spelling: &Spelling) -> io::Result<()> {
    let mut bits = spelling.bits.as_slice().iter();
    let mut spelled = elements.as_slice().iter();
    let mut mode = Mode::Upper;
    for code in spelling.codes.as_slice() {
        for _bit in 0..code_length(mode, *code) {
            if let Some(bit) = bits.next() {
                print!(rt; "{}", u8::from(*bit))?;
            }
        }
        print_code(rt, *code)?;
        for _element in 0..code_count(mode, *code) {
            if let Some(Element::Byte(byte)) = spelled.next() {
                print!(rt; " '{}'", char::from(*byte))?;
            }
        }
        println!(rt)?;
        mode = code_next(mode, *code);
    }
    Ok(())
}

/// Prints bits as digits.
fn print_bits(rt: &HostRuntime, bits: &Bits) -> io::Result<()> {
    for bit in bits.as_slice() {
        print!(rt; "{}", u8::from(*bit))?;
    }
    println!(rt)
}

/// Prints bytes as the characters of ISO/IEC 8859-1.
fn print_text(rt: &HostRuntime, bytes: &[u8]) -> io::Result<()> {
    print!(rt; "text: ")?;
    for byte in bytes {
        print!(rt; "{}", char::from(*byte))?;
    }
    println!(rt)
}

/// Prints the spelling of elements, or that there is no memory for it.
fn print_spelling(rt: &HostRuntime, elements: &Elements) -> io::Result<()>
    requires { length elements.now ≤ MOST_ELEMENTS }
{
    match shortest_spelling(rt.alloc(), elements) {
        Ok(spelling) => {
            println!(rt; "bits: {}", spelling.bits.len())?;
            print_codes(rt, elements, &spelling)?;
            print_bits(rt, &spelling.bits)
        }
        Err(NoMemory) => println!(rt; "no memory"),
    }
}

fn main(rt: HostRuntime) -> io::Result<()> {
    print_text(&rt, TEXT)?;
    match elements_of(rt.alloc(), TEXT) {
        Ok(elements) => {
            if elements.len() > MOST_ELEMENTS {
                return println!(rt; "too long");
            }
            print_spelling(&rt, &elements)
        }
        Err(NoMemory) => println!(rt; "no memory"),
    }
}

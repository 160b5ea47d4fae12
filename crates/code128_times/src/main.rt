//! How long the search of Code 128 takes.
//!
//! Without a word after the program's name it prints how many values are drawn for some bodies; with one, the least time of some runs for
//! each of them, in nanoseconds.
#![tactic(auto)]

ghost use Rattle.std.specs.Prelude.{◌≤◌, length, All, IfOk};
ghost use Rattle.code128_best.specs.Spelling.{IsCode128Element};

use bar_base::{Element, Elements, NoMemory};
use code128_best::shortest;
use std::alloc::Global;
use std::time::Instant;
use std::{env, io};

/// The texts whose bytes, over and over, are the bodies: letters, digits, bytes from 128 on, and all of these with control characters.
const TEXTS: [&[u8]; 4] = [
    b"Warehouse-",
    b"0109521234543213",
    b"\xC4\xD6\xDC\xE4",
    b"ab\x0112345678\xE9\xE9AB",
];

/// The numbers of elements of the bodies.
const COUNTS: [usize; 4] = [20, 80, 200, 256];

/// How many runs are timed.
const RUNS: usize = 50;

/// A body of so many bytes, those of a text over and over; none where the text has none.
fn body(alloc: Global, text: &[u8], count: usize) -> Result<Elements, NoMemory>
    ensures spelled { IfOk result (λ elements. All IsCode128Element elements) }
{
    let mut elements = Elements::new(alloc);
    if text.is_empty() {
        return Ok(elements);
    }
    for place in 0..count {
        elements.push(Element::Byte(text[place % text.len()]))?;
    }
    Ok(elements)
}

/// How many values are drawn for a body; 0 where there is no body or no memory.
fn drawn(alloc: Global, elements: &Elements) -> usize
    requires { All IsCode128Element elements.now }
{
    if elements.is_empty() {
        return 0;
    }
    match shortest(alloc, elements) {
        Ok(values) => values.len(),
        Err(_) => 0,
    }
}

/// The least time of some runs, in nanoseconds.
fn least_time(rt: &HostRuntime, elements: &Elements) -> io::Result<u128>
    requires { All IsCode128Element elements.now }
{
    let mut least = u128::MAX;
    for _run in 0..RUNS {
        let start = Instant::now(rt)?;
        let _values = drawn(rt.alloc(), elements);
        least = least.min(start.elapsed(rt)?.as_nanos());
    }
    Ok(least)
}

fn main(rt: HostRuntime) -> io::Result<()> {
    let words: Vec<String> = env::args(&rt)?.collect(rt.alloc())?;
    for text in TEXTS {
        for count in COUNTS {
            let Ok(elements) = body(rt.alloc(), text, count) else {
                continue;
            };
            if words.len() > 1 {
                let time = least_time(&rt, &elements)?;
                println!(rt; "{count} elements: {time} ns")?;
            } else {
                let values = drawn(rt.alloc(), &elements);
                println!(rt; "{count} elements: {values} values")?;
            }
        }
    }
    Ok(())
}

//! Repairs a text whose bytes were damaged, by the crates `rs_encode` and `rs_decode` over a field of `galois`.
//!
//! A byte is an element of the field of 256 elements. Check bytes are put behind a message; whoever gets message and
//! check bytes back, with at most half as many bytes wrong as there are check bytes, finds the message again, and need
//! not know which bytes are wrong.
#![tactic(auto)]

ghost use Rattle.std.specs.Prelude.{◌≡◌, ◌≤◌, ◌+◌, length, map, IfOk};
ghost use Rattle.galois.specs.CheckNumbers.{IsContinuation, polynomial_of};
ghost use Rattle.example_repair.specs.Repairs.{FindsAll, FindsOnly};

use galois::{Field, Gf256, element_of};
use rs_decode::{Room, decode};
use rs_encode::encode;
use std::alloc::{AllocError, Global};
use std::io;

/// The message.
const MESSAGE: &str = "The gate opens at seven.";

/// How many check bytes stand behind it. Twice as many as the damaged bytes that are to be repaired.
const CHECK: usize = 8;

/// The places of the bytes that are damaged, counted from 0: four of them are repaired, all five are too many.
const PLACES: [usize; 5] = [2, 7, 12, 20, 26];

/// What is found behind the damage.
#[derive(Debug, Drop)]
struct Repair {
    /// The message.
    message: Vec<u8>,
    /// How many bytes were wrong, those of the check bytes among them.
    corrected: usize,
}

/// The elements of the field with these numbers.
fn elements_of(alloc: Global, bytes: &[u8]) -> Result<Vec<Gf256>, AllocError>
    ensures { IfOk result (λ elements. map (λ element. element.number) elements.items ≡ bytes.now) }
{
    let mut elements = Vec::new(alloc);
    for byte in bytes {
        elements.push(element_of(u32::from(*byte)))?;
    }
    Ok(elements)
}

/// The bytes that are the numbers of these elements.
fn bytes_of(alloc: Global, elements: &[Gf256]) -> Result<Vec<u8>, AllocError>
    ensures { IfOk result (λ bytes. bytes.items ≡ map (λ element. element.number) elements.now) }
{
    let mut bytes = Vec::new(alloc);
    for element in elements {
        bytes.push(element.number() as u8)?;
    }
    Ok(bytes)
}

/// A message and so many check bytes behind it, at most 255 bytes together.
fn with_check_bytes(alloc: Global, message: &[u8], check: usize) -> Result<Vec<u8>, AllocError>
    requires { length message.now + check ≤ 255 }
    ensures { IfOk result (λ word. IsContinuation 8 (polynomial_of 8) message.now check word.items) }
{
    let front = elements_of(alloc, message)?;
    let mut check_elements = vec![in alloc; Gf256::zero(); check]?;
    encode(&front, &mut check_elements);
    let check_bytes = bytes_of(alloc, &check_elements)?;
    let mut word = Vec::from_slice(alloc, message)?;
    word.extend_from_slice(&check_bytes)?;
    Ok(word)
}

/// The memory of the decoder.
fn room_for(alloc: Global, count: usize, check: usize) -> Result<Room<Gf256>, AllocError>
    requires few { check ≤ count }
    requires fits { count ≤ 255 }
    ensures { IfOk result (λ room. room ≡ record { longest = count; most = check }) }
{
    match Room::new(alloc, count, check) {
        Ok(room) => Ok(room),
        Err(_) => Err(AllocError),
    }
}

/// The message of damaged bytes, the last `check` of which were its check bytes; None where too many are wrong.
fn repaired(alloc: Global, damaged: &[u8], check: usize) -> Result<Option<Repair>, AllocError>
    requires few { check ≤ length damaged.now }
    requires fits { length damaged.now ≤ 255 }
    ensures all { IfOk result (FindsAll check damaged.now) }
    ensures only { IfOk result (FindsOnly check damaged.now) }
{
    let mut word = elements_of(alloc, damaged)?;
    let mut room = room_for(alloc, damaged.len(), check)?;
    match decode(&mut room, &mut word, check) {
        Ok(corrected) => {
            let message = bytes_of(alloc, &word[..damaged.len() - check])?;
            Ok(Some(Repair { message, corrected }))
        }
        Err(_) => Ok(None),
    }
}

/// Writes `#` over the bytes at these places.
fn damage(bytes: &mut [u8], places: &[usize]) {
    for place in places {
        if *place < bytes.len() {
            bytes[*place] = b'#';
        }
    }
}

/// Prints bytes as pairs of hexadecimal digits.
fn print_bytes(rt: &HostRuntime, name: &str, bytes: &[u8]) -> io::Result<()> {
    print!(rt; "{name}:")?;
    for byte in bytes {
        print!(rt; " {byte:02x}")?;
    }
    println!(rt)
}

/// Prints what is found in damaged bytes.
fn print_repair(rt: &HostRuntime, damaged: &[u8]) -> io::Result<()>
    requires few { CHECK ≤ length damaged.now }
    requires fits { length damaged.now ≤ 255 }
{
    print_bytes(rt, "damaged", damaged)?;
    match repaired(rt.alloc(), damaged, CHECK)? {
        Some(repair) => {
            let text = str::from_utf8(&repair.message).unwrap_or("no text");
            println!(rt; "repaired: {text}")?;
            println!(rt; "corrected: {}", repair.corrected)
        }
        None => println!(rt; "too damaged"),
    }
}

fn main(rt: HostRuntime) -> io::Result<()> {
    println!(rt; "message: {MESSAGE}")?;
    let mut bytes = with_check_bytes(rt.alloc(), MESSAGE.as_bytes(), CHECK)?;
    print_bytes(&rt, "sent", &bytes)?;
    damage(&mut bytes, &PLACES[..4]);
    print_repair(&rt, &bytes)?;
    damage(&mut bytes, &PLACES);
    print_repair(&rt, &bytes)
}

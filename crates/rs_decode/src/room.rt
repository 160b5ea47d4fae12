//! The memory of the decoder, and the call.

ghost use Rattle.std.specs.Prelude.{◌≡◌, ◌≤◌, ◌/◌, length, IfOk, OnErr};
ghost use Rattle.rs_decode.specs.Nearness.{IsCorrected, IsBeyond, IsRestored, IsLost, RoomSize};

use crate::TooDamaged;
use crate::decoder::correct;
use crate::error_places::Remainders;
use crate::lists::zeros;
use bar_base::NoMemory;
use galois::{Field, Tables};
use std::alloc::Global;
use std::marker::Model;

/// The memory that correction needs. As a value it is the length of the longest word and the most check elements.
#[derive(Drop)]
pub struct Room<F: Field> {
    syndromes: Vec<F>,
    left: Vec<F>,
    remainders: Remainders<F>,
    places: Vec<u32>,
    fixed: Vec<F>,
}

impl<F: Field> Model for Room<F> {
    ghost Value = { RoomSize };

    ghost view = { λ r. record { longest = length r.fixed.items; most = length r.syndromes.items } };

    ghost invariant = { λ r. (length r.left.items ≡ length r.syndromes.items) × (r.remainders ≡ length r.syndromes.items / 2) ×
        (length r.places.items ≡ length r.fixed.items) };
}

impl<F: Field> Room<F> {
    /// Takes all memory for words of up to `n` elements with up to `c` check elements. The only refusal is want of
    /// memory.
    pub fn new(alloc: Global, n: usize, c: usize) -> Result<Room<F>, NoMemory>
        requires few { c ≤ n }
        requires fits { n ≤ F.ORDER }
        ensures made { IfOk result (λ room. room ≡ record { longest = n; most = c }) }
    {
        Ok(Room {
            syndromes: zeros(alloc, c)?,
            left: zeros(alloc, c)?,
            remainders: Remainders::new(alloc, c / 2)?,
            places: vec![in alloc; 0; n]?,
            fixed: zeros(alloc, n)?,
        })
    }
}

// Corrects the word in lists that may be longer than it needs.
fn correct_within<F: Field>(
    tables: &Tables<F>,
    syndromes: &mut [F],
    left: &mut [F],
    remainders: &mut Remainders<F>,
    places: &mut [u32],
    fixed: &mut [F],
    lost: &[bool],
    word: &mut [F],
    c: usize,
) -> Result<usize, TooDamaged>
    requires few { c ≤ length word.old }
    requires fits { length word.old ≤ F.ORDER }
    requires alike { length lost.now ≤ length word.old }
    requires most { c ≤ length syndromes.old }
    requires left { length left.old ≡ length syndromes.old }
    requires remainders { remainders.old ≡ length syndromes.old / 2 }
    requires places { length word.old ≤ length places.old }
    requires fixed { length word.old ≤ length fixed.old }
    ensures restored { IfOk result (λ e.
        IsRestored F.nought F.plus F.times F.power F.eq c lost.now word.old word.new e) }
    ensures beyond { OnErr result (IsLost F.nought F.plus F.times F.power F.eq c lost.now word.old word.new) }
    ensures room { remainders.new ≡ remainders.old }
{
    let n = word.len();
    correct(
        tables,
        &mut syndromes[..c],
        &mut left[..c],
        remainders,
        &mut places[..n],
        &mut fixed[..n],
        lost,
        word,
    )
}

/// Puts the check word with `c` check elements that differs from the word at no more places than half of them into its
/// place, and answers at how many places they differ; no other check word is as near. `TooDamaged` comes exactly where
/// there is none, and the word stays. It takes no memory. (ISO/IEC 24778, Reed-Solomon error correction.)
///
/// The word has at least `c` elements and at most as many as the field has powers of alpha, and the room was made for
/// this length and this `c`, or for more.
pub fn decode<F: Field>(room: &mut Room<F>, word: &mut [F], c: usize) -> Result<usize, TooDamaged>
    requires few { c ≤ length word.old }
    requires fits { length word.old ≤ F.ORDER }
    requires longest { length word.old ≤ room.old.longest }
    requires most { c ≤ room.old.most }
    ensures corrected { IfOk result (λ e. IsCorrected F.nought F.plus F.times F.power F.eq c word.old word.new e) }
    ensures beyond { OnErr result (IsBeyond F.nought F.plus F.times F.power F.eq c word.old word.new) }
    ensures room { room.new ≡ room.old }
{
    decode_with_lost(room, word, &[], c)
}

/// The same for a word of which some places are known to be lost: `lost` tells which, and behind its end none is. Twice the
/// number of known places at which the check word differs and the number of lost places are together at most `c`, and the
/// answer is that number of known places. (ISO/IEC 24778, Reed-Solomon error correction: erasures.)
pub fn decode_with_lost<F: Field>(
    room: &mut Room<F>,
    word: &mut [F],
    lost: &[bool],
    c: usize,
) -> Result<usize, TooDamaged>
    requires few { c ≤ length word.old }
    requires fits { length word.old ≤ F.ORDER }
    requires alike { length lost.now ≤ length word.old }
    requires longest { length word.old ≤ room.old.longest }
    requires most { c ≤ room.old.most }
    ensures restored { IfOk result (λ e.
        IsRestored F.nought F.plus F.times F.power F.eq c lost.now word.old word.new e) }
    ensures beyond { OnErr result (IsLost F.nought F.plus F.times F.power F.eq c lost.now word.old word.new) }
    ensures room { room.new ≡ room.old }
{
    let mut powers = [0; 8190];
    let mut numbers = [0; 4096];
    let tables = Tables::new(&mut powers, &mut numbers);
    correct_within(
        &tables,
        &mut room.syndromes,
        &mut room.left,
        &mut room.remainders,
        &mut room.places,
        &mut room.fixed,
        lost,
        word,
        c,
    )
}

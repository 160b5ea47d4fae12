//! The memory of restoring, and the call.

ghost use Rattle.std.specs.Prelude.{◌≡◌, ◌≤◌, length, IfOk, OnErr};
ghost use Rattle.rs_decode.specs.Nearness.{IsLost, IsRestored, RoomSize};

use bar_base::NoMemory;
use galois::Field;
use rs_decode::{Room, TooDamaged, decode_with_lost};
use std::alloc::Global;
use std::marker::Model;

/// The memory that restoring needs. As a value it is the length of the longest word and the most check elements.
#[derive(Drop)]
pub struct Gaps<F: Field> {
    room: Room<F>,
}

impl<F: Field> Model for Gaps<F> {
    ghost Value = { RoomSize };

    ghost view = { λ gaps. gaps.room };
}

impl<F: Field> Gaps<F> {
    /// Takes all memory for words of up to `n` elements with up to `c` check elements. The only refusal is want of
    /// memory.
    pub fn new(alloc: Global, n: usize, c: usize) -> Result<Gaps<F>, NoMemory>
        requires few { c ≤ n }
        requires fits { n ≤ F.ORDER }
        ensures made { IfOk result (λ gaps. gaps ≡ record { longest = n; most = c }) }
    {
        let room = Room::new(alloc, n, c)?;
        Ok(Gaps { room })
    }
}

/// Restores a word of which some places are known to be lost; `lost` tells of each element whether it is. It puts the check
/// word with `c` check elements into its place for which twice the number of known places at which it differs from the word
/// and the number of lost places are together at most `c`, and answers that number of known places; there is one such check
/// word at most. `TooDamaged` comes exactly where there is none, and the word stays. What stands at a lost place counts for
/// nothing. It takes no memory. (ISO/IEC 24778, Reed-Solomon error correction: errors and erasures.)
///
/// The word has at least `c` elements and at most as many as the field has powers of alpha, and the memory was made for
/// this length and this `c`, or for more.
pub fn decode_lost<F: Field>(
    gaps: &mut Gaps<F>,
    word: &mut [F],
    lost: &[bool],
    c: usize,
) -> Result<usize, TooDamaged>
    requires few { c ≤ length word.old }
    requires fits { length word.old ≤ F.ORDER }
    requires alike { length lost.now ≡ length word.old }
    requires longest { length word.old ≤ gaps.old.longest }
    requires most { c ≤ gaps.old.most }
    ensures restored { IfOk result (λ e.
        IsRestored F.nought F.plus F.times F.power F.eq c lost.now word.old word.new e) }
    ensures beyond { OnErr result (IsLost F.nought F.plus F.times F.power F.eq c lost.now word.old word.new) }
    ensures gaps { gaps.new ≡ gaps.old }
{
    decode_with_lost(&mut gaps.room, word, lost, c)
}

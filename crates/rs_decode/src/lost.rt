//! Lost places: those that are known to tell nothing.

ghost use Rattle.std.specs.Prelude.{◌≡◌, ◌≤◌, ◌<◌, ◌+◌, true, false, if◌then◌else◌, length, drop, slice_index_or};
ghost use Rattle.galois.specs.CheckWord.{lost_count};
ghost use Rattle.rs_decode.specs.Syndromes.{AreLowered};
ghost use Rattle.rs_decode.specs.Values.{lowered};

use crate::errors::lower;
use galois::{Field, Tables};

/// Whether an element is lost, by its index. Behind the end of the list all are known.
#[inline]
pub fn is_lost(lost: &[bool], at: usize) -> bool
    ensures { result ≡ slice_index_or lost.now at false }
{
    if at < lost.len() {
        return lost[at];
    }
    false
}

/// How many places are lost.
pub fn count_lost(lost: &[bool]) -> usize
    ensures { result ≡ lost_count lost.now }
{
    let mut count = 0;
    for gone in lost {
        if *gone {
            count += 1;
        }
    }
    count
}

// Takes a place, where it is lost, out of the syndromes from `taken` on, and answers from where on they are left.
fn lower_next<F: Field>(
    tables: &Tables<F>,
    syndromes: &mut [F],
    taken: usize,
    place: u32,
    gone: bool,
) -> usize
    requires { gone ≡ true → taken < length syndromes.old }
    ensures counted { result ≡ taken + (if gone then 1 else 0) }
    ensures lost { gone ≡ true → drop (taken + 1) syndromes.new ≡
        lowered F.plus F.times (F.power place) (slice_index_or syndromes.old taken F.nought) (drop (taken + 1) syndromes.old) }
    ensures known { gone ≡ false → syndromes.new ≡ syndromes.old }
{
    if !gone {
        return taken;
    }
    let first = syndromes[taken];
    lower(tables, &mut syndromes[taken + 1..], first, place);
    taken + 1
}

/// Takes the lost places of a word of some length out of its syndromes. As many fewer are left as places are lost; they
/// stand at the end. The answer is where they begin.
pub fn lower_lost<F: Field>(
    tables: &Tables<F>,
    syndromes: &mut [F],
    lost: &[bool],
    long: usize,
) -> usize
    requires few { lost_count lost.now ≤ length syndromes.old }
    requires alike { length lost.now ≤ long }
    requires fits { long ≤ F.ORDER }
    ensures taken { result ≡ lost_count lost.now }
    ensures lowered { AreLowered F.nought F.plus F.times F.power long lost.now syndromes.old
        (drop result syndromes.new) }
{
    let mut taken = 0;
    for at in 0..lost.len() {
        let place = (long - 1 - at) as u32;
        taken = lower_next(tables, syndromes, taken, place, lost[at]);
    }
    taken
}

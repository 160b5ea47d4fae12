//! Correction to the nearest check word.

ghost use Rattle.std.specs.Prelude.{◌≡◌, ◌≤◌, ◌+◌, ◌*◌, ◌/◌, ◌||◌, ℕ, List, length, if◌then◌else◌, IfOk, OnOk, OnErr};
ghost use Rattle.galois.specs.CheckWord.{known_distance, lost_count, word_sum, IsNearKnown};
ghost use Rattle.rs_decode.specs.Nearness.{IsRestored, IsLost};
ghost use Rattle.rs_decode.specs.Syndromes.{AreSyndromes};
ghost use Rattle.galois.specs.Locator.{IsFalling};
ghost use Rattle.rs_decode.specs.Values.{IsErrorAt, power_sums};

use crate::TooDamaged;
use crate::check_words::is_check_word;
use crate::error_places::{Remainders, find_errors};
use crate::errors::{mend, solve};
use crate::lost::{count_lost, is_lost, lower_lost};
use crate::syndromes::find_syndromes;
use galois::{Field, Tables};

// The number of known places at which the words differ.
fn count_errors<F: Field>(word: &[F], other: &[F], lost: &[bool]) -> usize
    requires { length other.now ≡ length word.now }
    ensures { result ≡ known_distance F.eq lost.now word.now other.now }
{
    let mut count = 0;
    for i in 0..word.len() {
        count += differs(word[i], other[i], is_lost(lost, i));
    }
    count
}

// 1 where the elements differ and are known, else 0.
fn differs<F: Field>(a: F, b: F, gone: bool) -> usize
    ensures value { result ≡ (if gone || F.eq a b then 0 else 1) }
    ensures most { result ≤ 1 }
{
    if gone || a == b { 0 } else { 1 }
}

// Takes the error at the places, whose values are in the syndromes, off the word.
fn correct_places<F: Field>(
    tables: &Tables<F>,
    syndromes: &mut [F],
    places: &[u32],
    fixed: &mut [F],
)
    requires { length places.now ≡ length syndromes.old }
    ensures { (bound : ℕ) → (values error : List F) →
        IsFalling bound places.now → bound ≤ F.ORDER →
        syndromes.old ≡ power_sums F.nought F.plus F.times F.power places.now values 0 (length places.now) →
        IsErrorAt F.nought F.times F.power places.now values error →
        length error ≡ length fixed.old → fixed.new ≡ word_sum F.plus fixed.old error }
{
    solve(tables, syndromes, places);
    mend(tables, fixed, places, syndromes);
}

// Makes `fixed` the one word that can be a check word near the word.
fn find_nearest<F: Field>(
    tables: &Tables<F>,
    syndromes: &mut [F],
    left: &mut [F],
    remainders: &mut Remainders<F>,
    places: &mut [u32],
    fixed: &mut [F],
    lost: &[bool],
    word: &[F],
)
    requires syndromes { AreSyndromes F.nought F.plus F.times F.power word.now syndromes.old }
    requires fits { length word.now ≤ F.ORDER }
    requires few { length syndromes.old ≤ length word.now }
    requires left { length left.old ≡ length syndromes.old }
    requires lost { lost_count lost.now ≤ length syndromes.old }
    requires alike { length lost.now ≤ length word.now }
    requires room { length syndromes.old / 2 ≤ remainders.old }
    requires places { length places.old ≡ length word.now }
    requires fixed { length fixed.old ≡ length word.now }
    ensures only { (other : List F) →
        IsNearKnown F.nought F.plus F.times F.power F.eq (length syndromes.old) lost.now word.now other → other ≡ fixed.new }
    ensures room { remainders.new ≡ remainders.old }
{
    left.copy_from_slice(syndromes);
    let taken = lower_lost(tables, left, lost, word.len());
    let count = find_errors(tables, &left[taken..], remainders, lost, places);
    fixed.copy_from_slice(word);
    correct_places(
        tables,
        &mut syndromes[..count],
        &places[places.len() - count..],
        fixed,
    );
}

// Puts `fixed` into the place of the word if it is a check word near it.
fn confirm<F: Field>(
    syndromes: &mut [F],
    fixed: &[F],
    lost: &[bool],
    word: &mut [F],
) -> Result<usize, TooDamaged>
    requires fits { length word.old ≤ F.ORDER }
    requires few { length syndromes.old ≤ length word.old }
    requires alike { length fixed.now ≡ length word.old }
    requires lost { lost_count lost.now ≤ length syndromes.old }
    ensures near { OnOk result
        (IsNearKnown F.nought F.plus F.times F.power F.eq (length syndromes.old) lost.now word.old fixed.now) }
    ensures fixed { OnOk result (word.new ≡ fixed.now) }
    ensures distance { IfOk result (λ e. e ≡ known_distance F.eq lost.now word.old fixed.now) }
    ensures far { OnErr result
        (IsNearKnown F.nought F.plus F.times F.power F.eq (length syndromes.old) lost.now word.old fixed.now → ⊥) }
    ensures stays { OnErr result (word.new ≡ word.old) }
{
    if !is_check_word(fixed, syndromes) {
        return Err(TooDamaged);
    }
    let errors = count_errors(word, fixed, lost);
    if errors > (syndromes.len() - count_lost(lost)) / 2 {
        return Err(TooDamaged);
    }
    word.copy_from_slice(fixed);
    Ok(errors)
}

/// Corrects the word in lists of just the lengths that it needs, with as many check elements as there are syndromes.
pub fn correct<F: Field>(
    tables: &Tables<F>,
    syndromes: &mut [F],
    left: &mut [F],
    remainders: &mut Remainders<F>,
    places: &mut [u32],
    fixed: &mut [F],
    lost: &[bool],
    word: &mut [F],
) -> Result<usize, TooDamaged>
    requires fits { length word.old ≤ F.ORDER }
    requires few { length syndromes.old ≤ length word.old }
    requires left { length left.old ≡ length syndromes.old }
    requires alike { length lost.now ≤ length word.old }
    requires room { length syndromes.old / 2 ≤ remainders.old }
    requires places { length places.old ≡ length word.old }
    requires fixed { length fixed.old ≡ length word.old }
    ensures restored { IfOk result (λ e.
        IsRestored F.nought F.plus F.times F.power F.eq (length syndromes.old) lost.now word.old word.new e) }
    ensures beyond { OnErr result
        (IsLost F.nought F.plus F.times F.power F.eq (length syndromes.old) lost.now word.old word.new) }
    ensures room { remainders.new ≡ remainders.old }
{
    if count_lost(lost) > syndromes.len() {
        return Err(TooDamaged);
    }
    if is_check_word(word, syndromes) {
        return Ok(0);
    }
    find_syndromes(tables, word, syndromes);
    find_nearest(
        tables, syndromes, left, remainders, places, fixed, lost, word,
    );
    confirm(syndromes, fixed, lost, word)
}

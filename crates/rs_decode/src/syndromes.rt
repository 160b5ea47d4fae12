//! The syndromes of a word.

ghost use Rattle.std.specs.Prelude.{◌≤◌, length};
ghost use Rattle.rs_decode.specs.Syndromes.{AreSyndromes, AreFed};

use crate::lists::clear;
use galois::{Field, Tables};

// Feeds one element more to each syndrome.
fn feed<F: Field>(tables: &Tables<F>, syndromes: &mut [F], element: F)
    requires { length syndromes.old ≤ F.ORDER }
    ensures { AreFed F.nought F.plus F.times F.power element syndromes.old syndromes.new }
{
    for k in 0..syndromes.len() {
        syndromes[k] = element.add(tables.times_power(syndromes[k], k + 1));
    }
}

/// The syndromes of the word, as many as there is room for.
pub fn find_syndromes<F: Field>(tables: &Tables<F>, word: &[F], syndromes: &mut [F])
    requires { length syndromes.old ≤ F.ORDER }
    ensures { AreSyndromes F.nought F.plus F.times F.power word.now syndromes.new }
{
    clear(syndromes);
    for element in word {
        feed(tables, syndromes, *element);
    }
}

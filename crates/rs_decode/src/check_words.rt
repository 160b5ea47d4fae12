//! Whether a word is a check word.

ghost use Rattle.std.specs.Prelude.{◌≡◌, ◌≤◌, ◌↔◌, true, length};
ghost use Rattle.galois.specs.CheckWord.{IsCheckWord};

use galois::Field;
use rs_encode::encode;

// Whether two lists of one length are the same.
fn are_same<F: Field>(former: &[F], latter: &[F]) -> bool
    requires { length former.now ≡ length latter.now }
    ensures { (result ≡ true) ↔ (former.now ≡ latter.now) }
{
    for i in 0..former.len() {
        if former[i] != latter[i] {
            return false;
        }
    }
    true
}

/// Whether the word is a check word: whether its last elements are the check elements of those in front, which are made anew in `check`.
/// That is faster than the word's syndromes are.
pub fn is_check_word<F: Field>(word: &[F], check: &mut [F]) -> bool
    requires few { length check.old ≤ length word.now }
    requires fits { length word.now ≤ F.ORDER }
    ensures { (result ≡ true) ↔ IsCheckWord F.nought F.plus F.times F.power word.now (length check.old) }
{
    let (front, own) = word.split_at(word.len() - check.len());
    encode(front, check);
    are_same(own, check)
}

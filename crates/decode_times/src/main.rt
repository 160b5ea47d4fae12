//! What the decoder answers for damaged words of the largest symbol's length; with the argument `times` also the least
//! processor time of 20 runs.
#![tactic(auto)]

use galois::{Field, Gf4096};
use rs_decode::{Room, decode_with_lost};
use rs_encode::encode;
use std::alloc::Global;
use std::time::Instant;
use std::{env, io};

/// The codewords of the largest symbol.
const LENGTH: usize = 1664;

/// The runs of which the least time counts.
const RUNS: usize = 20;

/// Check elements, how many elements are wrong, and how many lost.
const ROWS: [(usize, usize, usize); 9] = [
    (386, 0, 0),
    (386, 20, 0),
    (386, 193, 0),
    (386, 0, 20),
    (386, 96, 194),
    (386, 0, 386),
    (1663, 831, 0),
    (1663, 832, 0),
    (1663, 0, 1663),
];

// A check word with this many check elements, behind elements of no order.
fn check_word(alloc: Global, c: usize) -> Option<Vec<Gf4096>> {
    let mut word: Vec<Gf4096> = Vec::new(alloc);
    let mut state: u32 = 12345;
    for _place in c..LENGTH {
        state = state.wrapping_mul(1664525).wrapping_add(1013904223);
        word.push(Gf4096::from_number(state >> 20)?).ok()?;
    }
    let mut check: Vec<Gf4096> = Vec::new(alloc);
    for _place in 0..c.min(LENGTH) {
        check.push(Gf4096::zero()).ok()?;
    }
    if word.len() <= LENGTH && check.len() <= LENGTH {
        encode(&word, &mut check);
    }
    for element in &check {
        word.push(*element).ok()?;
    }
    Some(word)
}

// Adds one to this many elements here and there.
fn damage(word: &mut [Gf4096], errors: usize) {
    for i in 0..errors.min(word.len()) {
        let at = i.wrapping_mul(7) % word.len();
        word[at] = word[at].add(Gf4096::one());
    }
}

// Which elements are lost: the first of those that are damaged.
fn lose(alloc: Global, count: usize) -> io::Result<Vec<bool>> {
    let mut lost = vec![in alloc; false; LENGTH]?;
    for i in 0..count.min(lost.len()) {
        let at = i * 7 % lost.len();
        lost[at] = true;
    }
    Ok(lost)
}

// The answer for one word, none where it is too damaged, and its time in microseconds.
fn run_once(
    rt: &HostRuntime,
    word: &mut [Gf4096],
    lost: &[bool],
    c: usize,
) -> io::Result<(Option<usize>, u128)> {
    if word.len() != LENGTH || c > LENGTH || lost.len() > LENGTH {
        return Ok((None, 0));
    }
    match Room::<Gf4096>::new(rt.alloc(), LENGTH, c) {
        Ok(mut room) => {
            let start = Instant::now(rt)?;
            let answer = decode_with_lost(&mut room, word, lost, c).ok();
            Ok((answer, start.elapsed(rt)?.as_micros()))
        }
        Err(_) => Ok((None, 0)),
    }
}

// The last answer and the least time of some runs.
fn measure(
    rt: &HostRuntime,
    c: usize,
    errors: usize,
    gone: usize,
) -> io::Result<(Option<usize>, u128)> {
    let mut least = u128::MAX;
    let mut answer = None;
    let lost = lose(rt.alloc(), gone)?;
    if let Some(right) = check_word(rt.alloc(), c) {
        for _run in 0..RUNS {
            let mut word: Vec<Gf4096> = Vec::from_slice(rt.alloc(), &right)?;
            damage(&mut word, errors.saturating_add(gone));
            let (last, time) = run_once(rt, &mut word, &lost, c)?;
            least = least.min(time);
            answer = last;
        }
    }
    Ok((answer, least))
}

fn main(rt: HostRuntime) -> io::Result<()> {
    let timed = env::args(&rt)?.count() > 1;
    for (c, errors, gone) in ROWS {
        let (answer, time) = measure(&rt, c, errors, gone)?;
        match answer {
            Some(corrected) => print!(rt;
                "{c} check elements, {errors} wrong, {gone} lost: {corrected} corrected"
            )?,
            None => print!(rt; "{c} check elements, {errors} wrong, {gone} lost: too damaged")?,
        }
        if timed {
            print!(rt; ", {time} microseconds")?;
        }
        println!(rt)?;
    }
    Ok(())
}

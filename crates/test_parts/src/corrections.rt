//! Words of 15 elements over each field, whose check elements were computed by another program, and one long word.

use galois::{Field, Gf16, Gf64, Gf256, Gf1024, Gf4096};
use rs_decode::{Room, decode};
use std::alloc::Global;
use std::process::Abort;
use std::test::Fail;

// The elements of these numbers.
fn elements<F: Field>(alloc: Global, numbers: &[u32]) -> Result<Vec<F>, Fail> {
    let mut word: Vec<F> = Vec::new(alloc);
    for number in numbers {
        word.push(F::from_number(*number).ok_or("above the order")?)?;
    }
    Ok(word)
}

// Adds a power of alpha, another one each time, to elements here and there, the first and the last among them.
fn damage<F: Field>(word: &mut [F], wrong: u16) {
    for i in 0..wrong {
        let at = usize::from(i) * 7;
        if !word.is_empty() {
            let place = at % word.len();
            word[place] = word[place].add(F::alpha(u32::from(i) * 3 + 2));
        }
    }
}

// Decodes a check word with so many wrong elements: the answer is the one that is wanted, and the word becomes the
// check word, or stays where there is no answer.
fn decodes<F: Field, R: Abort>(
    rt: &R,
    alloc: Global,
    right: &[F],
    c: usize,
    wrong: u16,
    wanted: Option<usize>,
) -> Result<(), Fail> {
    let mut damaged: Vec<F> = Vec::from_slice(alloc, right)?;
    damage(&mut damaged, wrong);
    let mut word: Vec<F> = Vec::from_slice(alloc, &damaged)?;
    assert!(rt; c <= word.len() && word.len() <= 4095);
    assert!(rt; word.len() <= F::ORDER as usize);
    let mut room = Room::<F>::new(alloc, word.len(), c)
        .ok()
        .ok_or("no memory")?;
    assert_eq!(rt; decode(&mut room, &mut word, c).ok(), wanted);
    if wanted.is_some() && c > 0 {
        assert!(rt; word.as_slice() == right);
    } else {
        assert!(rt; word.as_slice() == damaged.as_slice());
    }
    Ok(())
}

// Check words with 8 and with 9 check elements, and the zeros, which are one with 15.
fn corrects<F: Field, R: Abort>(
    rt: &R,
    alloc: Global,
    eight: &[u32],
    nine: &[u32],
) -> Result<(), Fail> {
    let eight: Vec<F> = elements(alloc, eight)?;
    let nine: Vec<F> = elements(alloc, nine)?;
    let zeros: Vec<F> = elements(alloc, &[0; 15])?;
    decodes(rt, alloc, &eight, 8, 0, Some(0))?;
    decodes(rt, alloc, &eight, 8, 1, Some(1))?;
    decodes(rt, alloc, &eight, 8, 4, Some(4))?;
    decodes(rt, alloc, &nine, 9, 4, Some(4))?;
    decodes(rt, alloc, &nine, 9, 5, None)?;
    decodes(rt, alloc, &nine, 0, 5, Some(0))?;
    decodes(rt, alloc, &zeros, 15, 7, Some(7))?;
    decodes(rt, alloc, &zeros, 15, 8, None)
}

#[test]
fn words_of_fifteen(rt: HostRuntime) -> Result<(), Fail> {
    corrects::<Gf16, HostRuntime>(
        &rt,
        rt.alloc(),
        &[3, 10, 1, 8, 15, 6, 13, 6, 7, 5, 11, 7, 3, 8, 7],
        &[3, 10, 1, 8, 15, 6, 4, 11, 5, 13, 9, 8, 0, 15, 1],
    )?;
    corrects::<Gf64, HostRuntime>(
        &rt,
        rt.alloc(),
        &[3, 10, 17, 24, 31, 38, 45, 48, 25, 21, 56, 58, 19, 44, 39],
        &[3, 10, 17, 24, 31, 38, 29, 26, 26, 8, 4, 14, 2, 10, 21],
    )?;
    corrects::<Gf256, HostRuntime>(
        &rt,
        rt.alloc(),
        &[
            3, 10, 17, 24, 31, 38, 45, 127, 77, 23, 232, 184, 255, 198, 68,
        ],
        &[3, 10, 17, 24, 31, 38, 42, 28, 41, 162, 246, 9, 41, 171, 150],
    )?;
    corrects::<Gf1024, HostRuntime>(
        &rt,
        rt.alloc(),
        &[
            3, 10, 17, 24, 31, 38, 45, 210, 339, 87, 174, 69, 625, 398, 222,
        ],
        &[
            3, 10, 17, 24, 31, 38, 224, 150, 345, 647, 257, 639, 215, 194, 315,
        ],
    )?;
    corrects::<Gf4096, HostRuntime>(
        &rt,
        rt.alloc(),
        &[
            3, 10, 17, 24, 31, 38, 45, 1887, 2502, 1632, 2167, 1702, 701, 204, 642,
        ],
        &[
            3, 10, 17, 24, 31, 38, 3395, 2995, 2345, 2659, 2294, 3307, 2608, 1387, 2494,
        ],
    )
}

#[test]
fn longest_word(rt: HostRuntime) -> Result<(), Fail> {
    let mut zeros: Vec<Gf4096> = Vec::new(rt.alloc());
    for _place in 0..1664 {
        zeros.push(Gf4096::zero())?;
    }
    decodes(&rt, rt.alloc(), &zeros, 1663, 831, Some(831))?;
    decodes(&rt, rt.alloc(), &zeros, 1663, 832, None)
}

//! Words of 15 elements over each field, whose check elements were computed by another program, and one long word.

use galois::{Field, Gf16, Gf64, Gf256, Gf1024, Gf4096};
use rs_erase::{Gaps, decode_lost};
use std::alloc::Global;
use std::process::Abort;
use std::test::Fail;

// The elements of these numbers.
fn elements<F: Field>(alloc: Global, numbers: &[u32]) -> Result<Vec<F>, Fail> {
    let mut word: Vec<F> = Vec::new(alloc);
    for number in numbers {
        word.push(F::from_number(*number).ok_or("above the order")?)?;
    }
    Ok(word)
}

// Adds a power of alpha, another one each time, to elements here and there, the first and the last among them.
fn damage<F: Field>(word: &mut [F], wrong: u16) {
    for i in 0..wrong {
        if !word.is_empty() {
            let place = usize::from(i) * 7 % word.len();
            word[place] = word[place].add(F::alpha(u32::from(i) * 3 + 2));
        }
    }
}

// Which of so many elements are lost: the first of those that are damaged.
fn lose(alloc: Global, length: usize, count: u16) -> Result<Vec<bool>, Fail> {
    let mut lost = vec![in alloc; false; length]?;
    for i in 0..count {
        if !lost.is_empty() {
            let place = usize::from(i) * 7 % lost.len();
            lost[place] = true;
        }
    }
    Ok(lost)
}

// Restores a check word with so many lost elements and so many that are wrong beside them. It comes back, or where these
// are just too many, nothing does and the word stays; with yet more another check word could be as near.
fn restores<F: Field, R: Abort>(
    rt: &R,
    alloc: Global,
    right: &[F],
    c: usize,
    gone: u16,
    wrong: u16,
) -> Result<(), Fail> {
    let mut damaged: Vec<F> = Vec::from_slice(alloc, right)?;
    damage(&mut damaged, gone.saturating_add(wrong));
    let lost = lose(alloc, right.len(), gone)?;
    let mut word: Vec<F> = Vec::from_slice(alloc, &damaged)?;
    assert!(rt; c <= word.len() && word.len() <= 4095);
    assert!(rt; word.len() <= F::ORDER as usize);
    assert!(rt; lost.len() == word.len());
    let mut gaps = Gaps::<F>::new(alloc, word.len(), c)
        .ok()
        .ok_or("no memory")?;
    let answer = decode_lost(&mut gaps, &mut word, &lost, c).ok();
    if 2 * usize::from(wrong) + usize::from(gone) <= c {
        assert_eq!(rt; answer, Some(usize::from(wrong)));
        assert!(rt; word.as_slice() == right);
    } else if 2 * usize::from(wrong) + usize::from(gone) == c + 1 {
        assert_eq!(rt; answer, None);
        assert!(rt; word.as_slice() == damaged.as_slice());
    }
    Ok(())
}

// A check word with 8 check elements, and the zeros, which are one with 15.
fn restores_all<F: Field, R: Abort>(rt: &R, alloc: Global, eight: &[u32]) -> Result<(), Fail> {
    let eight: Vec<F> = elements(alloc, eight)?;
    let zeros: Vec<F> = elements(alloc, &[0; 15])?;
    for gone in 0..10u16 {
        let most = (9 - gone) / 2;
        restores(rt, alloc, &eight, 8, gone, 0)?;
        restores(rt, alloc, &eight, 8, gone, most)?;
        restores(rt, alloc, &eight, 8, gone, most.saturating_add(1))?;
    }
    restores(rt, alloc, &zeros, 15, 15, 0)?;
    restores(rt, alloc, &zeros, 15, 14, 0)?;
    restores(rt, alloc, &zeros, 15, 13, 1)?;
    restores(rt, alloc, &zeros, 15, 13, 2)
}

#[test]
fn words_of_fifteen(rt: HostRuntime) -> Result<(), Fail> {
    restores_all::<Gf16, HostRuntime>(
        &rt,
        rt.alloc(),
        &[3, 10, 1, 8, 15, 6, 13, 6, 7, 5, 11, 7, 3, 8, 7],
    )?;
    restores_all::<Gf64, HostRuntime>(
        &rt,
        rt.alloc(),
        &[3, 10, 17, 24, 31, 38, 45, 48, 25, 21, 56, 58, 19, 44, 39],
    )?;
    restores_all::<Gf256, HostRuntime>(
        &rt,
        rt.alloc(),
        &[
            3, 10, 17, 24, 31, 38, 45, 127, 77, 23, 232, 184, 255, 198, 68,
        ],
    )?;
    restores_all::<Gf1024, HostRuntime>(
        &rt,
        rt.alloc(),
        &[
            3, 10, 17, 24, 31, 38, 45, 210, 339, 87, 174, 69, 625, 398, 222,
        ],
    )?;
    restores_all::<Gf4096, HostRuntime>(
        &rt,
        rt.alloc(),
        &[
            3, 10, 17, 24, 31, 38, 45, 1887, 2502, 1632, 2167, 1702, 701, 204, 642,
        ],
    )
}

#[test]
fn longest_word(rt: HostRuntime) -> Result<(), Fail> {
    let mut zeros: Vec<Gf4096> = Vec::new(rt.alloc());
    for _place in 0..1664 {
        zeros.push(Gf4096::zero())?;
    }
    restores(&rt, rt.alloc(), &zeros, 386, 386, 0)?;
    restores(&rt, rt.alloc(), &zeros, 386, 186, 100)
}

//! Check elements of worked symbols, and those that another program found by long division.

use galois::{Field, Gf256, Gf1024, Gf4096, P16, P64, P256};
use rs_encode::{encode, encode_numbers};
use std::alloc::Global;
use std::process::Abort;
use std::test::Fail;

#[test]
fn worked_words(rt: HostRuntime) {
    let mut rune = [0; 5];
    encode_numbers::<P16>(&[5, 6], &mut rune);
    assert_eq!(rt; rune, [3, 2, 11, 11, 7]);
    let mut mode = [0; 6];
    encode_numbers::<P16>(&[0, 0, 0, 9], &mut mode);
    assert_eq!(rt; mode, [10, 13, 8, 6, 5, 6]);
    let mut symbol = [0; 7];
    encode_numbers::<P64>(&[9, 50, 1, 41, 47, 2, 39, 37, 1, 27], &mut symbol);
    assert_eq!(rt; symbol, [38, 50, 8, 16, 10, 20, 40]);
}

#[test]
fn zeros_on_the_way(rt: HostRuntime) {
    let mut check = [0; 4];
    encode_numbers::<P256>(&[0, 0, 7, 0, 0, 0, 9, 0], &mut check);
    assert_eq!(rt; check, [86, 190, 177, 161]);
}

// The numbers of the check elements behind the elements 3, 10, 17 and so on, by the lowest bits of each number.
fn check_numbers<F: Field, R: Abort>(
    rt: &R,
    alloc: Global,
    length: u32,
    count: usize,
) -> Result<Vec<u32>, Fail> {
    let mut front: Vec<F> = Vec::new(alloc);
    for place in 0..length.min(4096) {
        front.push(F::from_number((7 * place + 3) & F::ORDER).ok_or("above the order")?)?;
    }
    let mut check: Vec<F> = Vec::new(alloc);
    for _place in 0..count {
        check.push(F::zero())?;
    }
    assert!(rt; front.len() <= 4096 && check.len() <= 4096);
    assert!(rt; front.len() + check.len() <= F::ORDER as usize);
    encode(&front, &mut check);
    let mut numbers = Vec::new(alloc);
    for element in &check {
        numbers.push(element.number())?;
    }
    Ok(numbers)
}

#[test]
fn long_words(rt: HostRuntime) -> Result<(), Fail> {
    let check = check_numbers::<Gf256, HostRuntime>(&rt, rt.alloc(), 200, 55)?;
    assert!(rt; check.starts_with(&[116, 248, 230, 101]) && check.ends_with(&[26, 127, 230, 252]));
    let check = check_numbers::<Gf1024, HostRuntime>(&rt, rt.alloc(), 199, 10)?;
    assert!(rt; check.starts_with(&[820, 624, 404, 646]) && check.ends_with(&[720, 292, 377, 127]));
    let check = check_numbers::<Gf4096, HostRuntime>(&rt, rt.alloc(), 1278, 386)?;
    assert!(rt;
        check.starts_with(&[3104, 501, 3802, 225]) && check.ends_with(&[2842, 1170, 283, 3467])
    );
    let check = check_numbers::<Gf4096, HostRuntime>(&rt, rt.alloc(), 100, 600)?;
    assert!(rt;
        check.starts_with(&[902, 2370, 2933, 3484]) && check.ends_with(&[911, 1001, 854, 1188])
    );
    Ok(())
}

ghost use Rattle.std.specs.Prelude.{◌≤◌, length, All, IfOk};
ghost use Rattle.code128_best.specs.Spelling.{IsCode128Element};

use bar_base::{Element, Elements, NoMemory};
use code128_best::{CodeFault, check, modules, pattern, shortest};
use std::alloc::Global;
use std::test::Fail;

/// A body of bytes, after FNC1 or not.
fn body(alloc: Global, fnc1: bool, text: &[u8]) -> Result<Elements, NoMemory>
    requires { 1 ≤ length text.now }
    ensures some { IfOk result (λ elements. 1 ≤ length elements) }
    ensures spelled { IfOk result (λ elements. All IsCode128Element elements) }
{
    let mut elements = Elements::new(alloc);
    if fnc1 {
        elements.push(Element::Fnc1)?;
    }
    for byte in text {
        elements.push(Element::Byte(*byte))?;
    }
    Ok(elements)
}

/// Whether bytes, after FNC1 or not, are drawn as these values, with this check value and as so many modules.
fn draws(alloc: Global, fnc1: bool, text: &[u8], wanted: &[u8], sum: u8, wide: u32) -> bool
    requires { 1 ≤ length text.now }
{
    let Ok(elements) = body(alloc, fnc1, text) else {
        return false;
    };
    let Ok(values) = shortest(alloc, &elements) else {
        return false;
    };
    let Ok(grid) = modules(alloc, &values) else {
        return false;
    };
    values.as_slice() == wanted && check(&values) == sum && grid.width() == wide
}

#[test]
fn labels(rt: HostRuntime) -> Result<(), Fail> {
    let alloc = rt.alloc();
    let letters = &[103, 48, 42, 42, 17, 18, 19, 35];
    assert!(rt; draws(alloc, false, b"PJJ123C", letters, 54, 112));
    assert!(rt; draws(alloc, false, b"12345", &[103, 17, 99, 23, 45], 52, 79));
    assert!(rt; draws(alloc, false, b"1234", &[105, 12, 34], 82, 57));
    let number = &[105, 102, 1, 9, 52, 12, 34, 54, 32, 13];
    assert!(rt; draws(alloc, true, b"0109521234543213", number, 17, 134));
    Ok(())
}

#[test]
fn bytes_from_128_on(rt: HostRuntime) -> Result<(), Fail> {
    let alloc = rt.alloc();
    assert!(rt; draws(alloc, false, b"\xE9", &[104, 100, 73], 41, 57));
    let latched = &[104, 100, 100, 73, 73, 73, 73, 73];
    assert!(rt; draws(alloc, false, b"\xE9\xE9\xE9\xE9\xE9", latched, 66, 112));
    let shifted = &[103, 101, 101, 65, 66, 98, 65];
    assert!(rt; draws(alloc, false, b"\x81\x82\xE1", shifted, 97, 101));
    Ok(())
}

#[test]
fn shift_and_digits(rt: HostRuntime) -> Result<(), Fail> {
    let alloc = rt.alloc();
    let shifted = &[104, 65, 66, 98, 65, 99, 12, 34, 56, 78];
    assert!(rt; draws(alloc, false, b"ab\x0112345678", shifted, 29, 134));
    assert!(rt; draws(alloc, false, b"AB", &[103, 33, 34], 101, 57));
    Ok(())
}

#[test]
fn at_most_256_elements(rt: HostRuntime) -> Result<(), Fail> {
    let alloc = rt.alloc();
    let most = body(alloc, true, &[b'1'; 255])?;
    assert!(rt; matches!(shortest(alloc, &most), Ok(values) if values.len() == 131));
    let more = body(alloc, true, &[b'1'; 256])?;
    assert!(rt; matches!(shortest(alloc, &more), Err(CodeFault::TooLong)));
    Ok(())
}

#[test]
fn patterns_are_numbers(rt: HostRuntime) -> Result<(), Fail> {
    assert_eq!(rt; pattern(0), 0b11011001100);
    assert_eq!(rt; pattern(105), 0b11010011100);
    Ok(())
}

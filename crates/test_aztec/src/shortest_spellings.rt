use aztec_best::{Bench, MOST_ELEMENTS, Stand, drawn, path_next, shortest};
use aztec_modes::{Code, Mode};
use bar_base::{Bits, Element, Elements, NoMemory};
use std::alloc::Global;
use std::test::Fail;

/// Puts the bytes of a text at the end.
fn push_text(elements: &mut Elements, text: &[u8]) -> Result<(), NoMemory> {
    for byte in text {
        elements.push(Element::Byte(*byte))?;
    }
    Ok(())
}

/// A message of so many bytes 0x80.
fn high_bytes(alloc: Global, count: u32) -> Result<Elements, NoMemory> {
    let mut elements = Elements::new(alloc);
    for _ in 0..count {
        elements.push(Element::Byte(0x80))?;
    }
    Ok(elements)
}

/// Whether bits are those of a text of `0` and `1`.
fn writes(bits: &Bits, text: &[u8]) -> bool {
    if bits.len() != text.len() {
        return false;
    }
    for (at, digit) in text.iter().enumerate() {
        if bits.get(at) != Some(*digit == b'1') {
            return false;
        }
    }
    true
}

/// Whether the drawn bits are those of a text.
fn draws(
    alloc: Global,
    bench: &mut Bench,
    append: bool,
    elements: &Elements,
    text: &[u8],
) -> Result<bool, NoMemory> {
    if elements.len() > MOST_ELEMENTS {
        return Ok(false);
    }
    let bits = drawn(alloc, bench, append, elements)?;
    Ok(writes(&bits, text))
}

/// The fewest bits, and the first code.
fn begins(bench: &mut Bench, elements: &Elements) -> Option<(u64, Code)> {
    if elements.is_empty() || elements.len() > MOST_ELEMENTS {
        return None;
    }
    let fewest = shortest(bench, elements);
    let at = Stand {
        mode: Mode::Upper,
        place: 0,
    };
    Some((fewest, path_next(bench, elements, at)))
}

/// Texts with the first of their shortest spellings, found by a search over all spellings.
const TEXTS: [(&str, &str); 13] = [
    (
        "Code 2D!",
        "00100111001000000101001101111000010100111100101000000110",
    ),
    ("a.b", "1110000010000001001100011"),
    (
        "HELLO, World. 12",
        "01001001100110101101100000000000100110001110010000100110110100101111101101000100110100",
    ),
    (
        "A1b2C3",
        "00010111100011111011100000111111001001111001000101",
    ),
    (
        "x@y{z}",
        "1110011001111011010011100110100000011101110110000011110",
    ),
    (
        ".,:;! \"",
        "11110110111000000101010000101100000001100001000000111",
    ),
    ("\r\n. 1,2", "1111000000001011010001001111000100"),
    ("1.5 km", "1111000111101011100011110111000110001110"),
    ("~|~|a", "11101110101100111010110011110000010"),
    ("Zz9\r\n", "110111110011011111101011000000010"),
    ("a!b?C", "111000001000000001100001100000110101110000100"),
    ("(01)", "1111000000110100100011000001110"),
    ("12AB34", "111100011010011110001011110001101010110"),
];

#[test]
fn texts_are_drawn(rt: HostRuntime) -> Result<(), Fail> {
    let mut bench = Bench::new(rt.alloc())?;
    for (text, bits) in TEXTS {
        let mut elements = Elements::new(rt.alloc());
        push_text(&mut elements, text.as_bytes())?;
        assert!(rt;
            draws(rt.alloc(), &mut bench, false, &elements, bits.as_bytes())?,
            "{text}"
        );
    }
    Ok(())
}

#[test]
fn controls_are_drawn(rt: HostRuntime) -> Result<(), Fail> {
    let mut bench = Bench::new(rt.alloc())?;
    let mut set = Elements::new(rt.alloc());
    push_text(&mut set, b"ABA")?;
    assert!(rt;
        draws(
            rt.alloc(),
            &mut bench,
            true,
            &set,
            b"1110111101000100001100010"
        )?
    );
    let mut eci = Elements::new(rt.alloc());
    push_text(&mut eci, b"1")?;
    eci.push(Element::Eci(3))?;
    push_text(&mut eci, b"2")?;
    assert!(rt;
        draws(
            rt.alloc(),
            &mut bench,
            false,
            &eci,
            b"11110001100000000000101010100"
        )?
    );
    let mut mixed = Elements::new(rt.alloc());
    push_text(&mut mixed, b"Ab")?;
    mixed.push(Element::Fnc1)?;
    push_text(&mut mixed, b"cd")?;
    assert!(rt;
        draws(
            rt.alloc(),
            &mut bench,
            false,
            &mixed,
            b"00010111000001100000000000000010000101"
        )?
    );
    let mut high = Elements::new(rt.alloc());
    push_text(&mut high, b"\x80A\x81")?;
    assert!(rt;
        draws(
            rt.alloc(),
            &mut bench,
            false,
            &high,
            b"1111100011100000000100000110000001"
        )?
    );
    Ok(())
}

#[test]
fn element_strings_latch_before_fnc1(rt: HostRuntime) -> Result<(), Fail> {
    let mut bench = Bench::new(rt.alloc())?;
    let mut elements = Elements::new(rt.alloc());
    elements.push(Element::Fnc1)?;
    push_text(&mut elements, b"0109521234543213")?;
    assert_eq!(rt;
        begins(&mut bench, &elements),
        Some((81, Code::Latch(Mode::Digit)))
    );
    Ok(())
}

#[test]
fn binary_runs_are_shortest(rt: HostRuntime) -> Result<(), Fail> {
    let mut bench = Bench::new(rt.alloc())?;
    for (count, bits, first, long) in [
        (31, 258, 31, false),
        (32, 276, 1, false),
        (62, 516, 31, false),
        (63, 525, 63, true),
        (2078, 16_645, 2078, true),
        (2079, 16_663, 2048, true),
        (8192, 65_620, 1958, true),
    ] {
        let elements = high_bytes(rt.alloc(), count)?;
        assert_eq!(rt;
            begins(&mut bench, &elements),
            Some((bits, Code::Run(first, long))),
            "{count}"
        );
    }
    Ok(())
}

ghost use Rattle.std.specs.Prelude.{◌≡◌, All, IfOk};
ghost use Rattle.bar_base.specs.Elements.{IsElement};

use aztec_modes::{
    Code, Mode, Path, ReadFault, Symbol, code_count, code_length, elements_of, read, spell,
    symbol_at,
};
use bar_base::{Append, Bits, Element, Elements, Ident, Message, NoMemory};
use std::alloc::Global;
use std::test::Fail;

/// A path of these codes.
fn path_of(alloc: Global, codes: &[Code]) -> Result<Path, NoMemory>
    ensures { IfOk result (λ path. path ≡ codes.now) }
{
    let mut path = Path::new(alloc);
    for code in codes {
        path.push(*code)?;
    }
    Ok(path)
}

/// These elements as a list.
fn elements_from(alloc: Global, items: &[Element]) -> Result<Elements, NoMemory>
    requires { All IsElement items.now }
    ensures { IfOk result (λ elements. elements ≡ items.now) }
{
    let mut elements = Elements::new(alloc);
    for item in items {
        elements.push(*item)?;
    }
    Ok(elements)
}

/// Whether bits are those of a text of `0` and `1`.
fn writes(bits: &Bits, text: &[u8]) -> bool {
    if bits.len() != text.len() {
        return false;
    }
    for (at, digit) in text.iter().enumerate() {
        if bits.get(at) != Some(*digit == b'1') {
            return false;
        }
    }
    true
}

/// Whether a list has these elements.
fn has(elements: &Elements, items: &[Element]) -> bool {
    if elements.len() != items.len() {
        return false;
    }
    for (at, item) in items.iter().enumerate() {
        if elements.get(at) != Some(*item) {
            return false;
        }
    }
    true
}

/// The bits of a text of `0` and `1`.
fn bits_from(alloc: Global, text: &[u8]) -> Result<Bits, NoMemory> {
    let mut bits = Bits::new(alloc);
    for digit in text {
        bits.push(*digit == b'1')?;
    }
    Ok(bits)
}

/// Puts the lowest `width` bits of a number at the end of bits, the highest first.
fn push_number(bits: &mut Bits, number: u8, width: u32) -> Result<(), NoMemory> {
    for i in 0..width.min(8) {
        bits.push((number >> (width.min(8) - 1 - i)) % 2 == 1)?;
    }
    Ok(())
}

/// Bits that begin as a text writes them, and go on with the numbers from 1 to `last`.
fn codes_after(alloc: Global, latches: &[u8], width: u32, last: u8) -> Result<Bits, NoMemory> {
    let mut bits = bits_from(alloc, latches)?;
    for number in 1..last {
        push_number(&mut bits, number, width)?;
    }
    push_number(&mut bits, last, width)?;
    Ok(bits)
}

/// Whether a list has these bytes.
fn has_bytes(elements: &Elements, bytes: &[u8]) -> bool {
    if elements.len() != bytes.len() {
        return false;
    }
    for (at, byte) in bytes.iter().enumerate() {
        if elements.get(at) != Some(Element::Byte(*byte)) {
            return false;
        }
    }
    true
}

/// Whether bits read, in codewords of 12 bits, as a message of these bytes alone.
fn read_as_bytes(alloc: Global, bits: &Bits, bytes: &[u8]) -> bool {
    match read(alloc, bits, 12) {
        Ok(message) => {
            message.append.is_none()
                && !message.gs1
                && message.eci.is_none()
                && has_bytes(&message.body, bytes)
        }
        Err(_) => false,
    }
}

/// The place of a code that cannot be read, in codewords of 6 bits.
fn bad_place(alloc: Global, bits: &Bits) -> Option<usize> {
    match read(alloc, bits, 6) {
        Err(ReadFault::BadSpelling(place)) => Some(place),
        Err(ReadFault::NoMemory) | Ok(_) => None,
    }
}

#[test]
fn spells_in_upper_lower_and_digit_with_shifts(rt: HostRuntime) -> Result<(), Fail> {
    let path = path_of(
        rt.alloc(),
        &[
            Code::Plain(4),
            Code::Latch(Mode::Lower),
            Code::Plain(16),
            Code::Plain(5),
            Code::Plain(6),
            Code::Latch(Mode::Digit),
            Code::Plain(1),
            Code::Plain(4),
            Code::Shift(Mode::Upper, 5),
            Code::Shift(Mode::Punct, 6),
        ],
    )?;
    let elements = elements_from(
        rt.alloc(),
        &[
            Element::Byte(b'C'),
            Element::Byte(b'o'),
            Element::Byte(b'd'),
            Element::Byte(b'e'),
            Element::Byte(b' '),
            Element::Byte(b'2'),
            Element::Byte(b'D'),
            Element::Byte(b'!'),
        ],
    )?;
    let bits = spell(rt.alloc(), &path, &elements)?;
    assert!(rt;
        writes(
            &bits,
            b"00100111001000000101001101111000010100111100101000000110"
        )
    );
    Ok(())
}

#[test]
fn spells_eci_fnc1_a_pair_and_a_run(rt: HostRuntime) -> Result<(), Fail> {
    let path = path_of(
        rt.alloc(),
        &[
            Code::Eci(26, 2),
            Code::Latch(Mode::Mixed),
            Code::Plain(20),
            Code::Latch(Mode::Punct),
            Code::Plain(3),
            Code::Fnc1,
            Code::Latch(Mode::Upper),
            Code::Run(2, false),
        ],
    )?;
    let elements = elements_from(
        rt.alloc(),
        &[
            Element::Eci(26),
            Element::Byte(b'@'),
            Element::Byte(b'.'),
            Element::Byte(b' '),
            Element::Fnc1,
            Element::Byte(128),
            Element::Byte(255),
        ],
    )?;
    let bits = spell(rt.alloc(), &path, &elements)?;
    // P/S, FLG(2), 2, 6, M/L, @, P/L, the pair, FLG(0), U/L, B/S, its length, the two bytes
    assert!(rt;
        writes(
            &bits,
            b"00000000000100100100011101101001111000011000000001111111111000101000000011111111"
        )
    );
    Ok(())
}

#[test]
fn a_message_has_header_fnc1_eci_and_body(rt: HostRuntime) -> Result<(), Fail> {
    let mut id = Ident::new();
    id.push(b'X');
    let body = elements_from(rt.alloc(), &[Element::Byte(b'a')])?;
    let message = Message {
        append: Some(Append {
            index: 1,
            count: 26,
            id,
        }),
        gs1: true,
        eci: Some(26),
        body,
    };
    let elements = elements_of(rt.alloc(), &message)?;
    assert!(rt;
        has(
            &elements,
            &[
                Element::Byte(b' '),
                Element::Byte(b'X'),
                Element::Byte(b' '),
                Element::Byte(b'A'),
                Element::Byte(b'Z'),
                Element::Fnc1,
                Element::Eci(26),
                Element::Byte(b'a'),
            ]
        )
    );
    Ok(())
}

#[test]
fn spells_ecis_of_one_two_and_six_digits(rt: HostRuntime) -> Result<(), Fail> {
    let path = path_of(
        rt.alloc(),
        &[Code::Eci(3, 1), Code::Eci(26, 2), Code::Eci(899_123, 6)],
    )?;
    let elements = elements_from(
        rt.alloc(),
        &[Element::Eci(3), Element::Eci(26), Element::Eci(899_123)],
    )?;
    let bits = spell(rt.alloc(), &path, &elements)?;
    // P/S, FLG(n), n in three bits, and the digits: a digit d is the code d + 2 of Digit mode
    assert!(rt;
        writes(
            &bits,
            b"000000000000101010000000000010010010000000000000110101010111011001101000101"
        )
    );
    Ok(())
}

#[test]
fn data_codes_read_as_the_characters_of_the_standard(rt: HostRuntime) -> Result<(), Fail> {
    let upper = codes_after(rt.alloc(), b"", 5, 27)?;
    assert!(rt; read_as_bytes(rt.alloc(), &upper, b" ABCDEFGHIJKLMNOPQRSTUVWXYZ"));
    let lower = codes_after(rt.alloc(), b"11100", 5, 27)?;
    assert!(rt; read_as_bytes(rt.alloc(), &lower, b" abcdefghijklmnopqrstuvwxyz"));
    let mixed = codes_after(rt.alloc(), b"11101", 5, 27)?;
    assert!(rt;
        read_as_bytes(
            rt.alloc(),
            &mixed,
            b" \x01\x02\x03\x04\x05\x06\x07\x08\x09\x0A\x0B\x0C\x0D\x1B\x1C\x1D\x1E\x1F@\\^_`|~\x7F"
        )
    );
    let punct = codes_after(rt.alloc(), b"1110111110", 5, 30)?;
    assert!(rt;
        read_as_bytes(
            rt.alloc(),
            &punct,
            b"\r\r\n. , : !\"#$%&'()*+,-./:;<=>?[]{}"
        )
    );
    let digit = codes_after(rt.alloc(), b"11110", 4, 13)?;
    assert!(rt; read_as_bytes(rt.alloc(), &digit, b" 0123456789,."));
    Ok(())
}

/// The codes of each mode that are no data codes, with their numbers.
const CONTROLS: [(Mode, u8, Symbol); 23] = [
    (Mode::Upper, 0, Symbol::ShiftTo(Mode::Punct)),
    (Mode::Upper, 28, Symbol::LatchTo(Mode::Lower)),
    (Mode::Upper, 29, Symbol::LatchTo(Mode::Mixed)),
    (Mode::Upper, 30, Symbol::LatchTo(Mode::Digit)),
    (Mode::Upper, 31, Symbol::Binary),
    (Mode::Lower, 0, Symbol::ShiftTo(Mode::Punct)),
    (Mode::Lower, 28, Symbol::ShiftTo(Mode::Upper)),
    (Mode::Lower, 29, Symbol::LatchTo(Mode::Mixed)),
    (Mode::Lower, 30, Symbol::LatchTo(Mode::Digit)),
    (Mode::Lower, 31, Symbol::Binary),
    (Mode::Mixed, 0, Symbol::ShiftTo(Mode::Punct)),
    (Mode::Mixed, 28, Symbol::LatchTo(Mode::Lower)),
    (Mode::Mixed, 29, Symbol::LatchTo(Mode::Upper)),
    (Mode::Mixed, 30, Symbol::LatchTo(Mode::Punct)),
    (Mode::Mixed, 31, Symbol::Binary),
    (Mode::Punct, 0, Symbol::Flag),
    (Mode::Punct, 31, Symbol::LatchTo(Mode::Upper)),
    (Mode::Digit, 0, Symbol::ShiftTo(Mode::Punct)),
    (Mode::Digit, 14, Symbol::LatchTo(Mode::Upper)),
    (Mode::Digit, 15, Symbol::ShiftTo(Mode::Upper)),
    (Mode::Upper, 32, Symbol::Absent),
    (Mode::Punct, 32, Symbol::Absent),
    (Mode::Digit, 16, Symbol::Absent),
];

#[test]
fn the_other_codes_are_those_of_the_standard(rt: HostRuntime) {
    for (mode, number, symbol) in CONTROLS {
        assert_eq!(rt; symbol_at(mode, number), symbol);
    }
}

#[test]
fn runs_and_ecis_have_the_lengths_of_the_standard(rt: HostRuntime) {
    for (count, long, bits) in [
        (1, false, 18),
        (31, false, 258),
        (31, true, 269),
        (32, true, 277),
        (62, true, 517),
        (63, true, 525),
        (2078, true, 16_645),
    ] {
        assert_eq!(rt; code_length(Mode::Upper, Code::Run(count, long)), bits);
        assert_eq!(rt; code_count(Mode::Upper, Code::Run(count, long)), count);
    }
    assert_eq!(rt; code_length(Mode::Punct, Code::Eci(7, 1)), 12);
    assert_eq!(rt; code_length(Mode::Digit, Code::Eci(999_999, 6)), 36);
    assert_eq!(rt; code_count(Mode::Punct, Code::Plain(3)), 2);
}

#[test]
fn bits_that_cannot_be_read_name_the_code(rt: HostRuntime) -> Result<(), Fail> {
    // FLG(7)
    let flag = bits_from(rt.alloc(), b"0000000000111")?;
    assert_eq!(rt; bad_place(rt.alloc(), &flag), Some(0));
    // A, then a run of two bytes of which one is there
    let run = bits_from(rt.alloc(), b"00010111110001001000001")?;
    assert_eq!(rt; bad_place(rt.alloc(), &run), Some(5));
    // P/S before U/L
    let shift = bits_from(rt.alloc(), b"0000011111")?;
    assert_eq!(rt; bad_place(rt.alloc(), &shift), Some(0));
    // an ECI whose digit is no digit
    let digit = bits_from(rt.alloc(), b"00000000000011100")?;
    assert_eq!(rt; bad_place(rt.alloc(), &digit), Some(0));
    // the mark of a set, and no header after it
    let set = bits_from(rt.alloc(), b"111011110100010")?;
    assert_eq!(rt; bad_place(rt.alloc(), &set), Some(10));
    Ok(())
}

#[test]
fn ones_that_fill_a_codeword_end_a_message(rt: HostRuntime) -> Result<(), Fail> {
    let five = bits_from(rt.alloc(), b"11111")?;
    assert_eq!(rt; bad_place(rt.alloc(), &five), None);
    let six = bits_from(rt.alloc(), b"111111")?;
    assert_eq!(rt; bad_place(rt.alloc(), &six), Some(0));
    assert!(rt; read_as_bytes(rt.alloc(), &five, b""));
    Ok(())
}

#[test]
fn an_eci_with_leading_zeros_reads(rt: HostRuntime) -> Result<(), Fail> {
    // P/S, FLG(3), the digits 0, 0, 7, and A
    let bits = bits_from(rt.alloc(), b"000000000001100100010100100010")?;
    match read(rt.alloc(), &bits, 6) {
        Ok(message) => {
            assert_eq!(rt; message.eci, Some(7));
            assert!(rt; has_bytes(&message.body, b"A"));
        }
        Err(_) => assert!(rt; false),
    }
    Ok(())
}

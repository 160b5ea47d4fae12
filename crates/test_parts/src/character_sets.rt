use bar_base::{Element, Elements, NoMemory};
use eci_sets::{SetFault, choose, decode, encode, text_of};
use std::alloc::Global;
use std::process::Abort;
use std::test::Fail;

// Runs of characters that have bytes one behind the other in a set, with the byte of the first, as the converter
// iconv has them.
const RUNS: [(u32, usize, &str); 21] = [
    (3, 0x00, "\0\u{1}"),
    (3, 0x7e, "~\u{7f}\u{80}"),
    (7, 0x00, "\0\u{1}"),
    (7, 0x7e, "~\u{7f}\u{80}"),
    (11, 0x00, "\0\u{1}"),
    (11, 0x7e, "~\u{7f}\u{80}"),
    (17, 0x00, "\0\u{1}"),
    (17, 0x7e, "~\u{7f}\u{80}"),
    (22, 0x00, "\0\u{1}"),
    (23, 0x00, "\0\u{1}"),
    (
        3,
        0x9f,
        "\u{9f}\u{a0}¡¢£¤¥¦§¨©ª«¬\u{ad}®¯°±²³´µ¶·¸¹º»¼½¾¿ÀÁÂÃÄÅÆÇÈÉÊËÌÍÎÏÐÑÒÓÔÕÖ×ØÙÚÛÜÝÞßàáâãäåæçèéêëìíîïðñòóôõö÷øùúûüýþÿ",
    ),
    (
        7,
        0x9f,
        "\u{9f}\u{a0}ЁЂЃЄЅІЇЈЉЊЋЌ\u{ad}ЎЏАБВГДЕЖЗИЙКЛМНОПРСТУФХЦЧШЩЪЫЬЭЮЯабвгдежзийклмнопрстуфхцчшщъыьэюя№ёђѓєѕіїјљњћќ§ўџ",
    ),
    (
        11,
        0x9f,
        "\u{9f}\u{a0}¡¢£¤¥¦§¨©ª«¬\u{ad}®¯°±²³´µ¶·¸¹º»¼½¾¿ÀÁÂÃÄÅÆÇÈÉÊËÌÍÎÏĞÑÒÓÔÕÖ×ØÙÚÛÜİŞßàáâãäåæçèéêëìíîïğñòóôõö÷øùúûüışÿ",
    ),
    (
        17,
        0x9f,
        "\u{9f}\u{a0}¡¢£€¥Š§š©ª«¬\u{ad}®¯°±²³Žµ¶·ž¹º»ŒœŸ¿ÀÁÂÃÄÅÆÇÈÉÊËÌÍÎÏÐÑÒÓÔÕÖ×ØÙÚÛÜÝÞßàáâãäåæçèéêëìíîïðñòóôõö÷øùúûüýþÿ",
    ),
    (22, 0x7e, "~\u{7f}ЂЃ‚ѓ„…†‡€‰Љ‹ЊЌЋЏђ‘’“”•–—"),
    (
        22,
        0x99,
        "™љ›њќћџ\u{a0}ЎўЈ¤Ґ¦§Ё©Є«¬\u{ad}®Ї°±Ііґµ¶·ё№є»јЅѕїАБВГДЕЖЗИЙКЛМНОПРСТУФХЦЧШЩЪЫЬЭЮЯабвгдежзийклмнопрстуфхцчшщъыьэюя",
    ),
    (23, 0x7e, "~\u{7f}€"),
    (23, 0x82, "‚ƒ„…†‡ˆ‰Š‹Œ"),
    (23, 0x8e, "Ž"),
    (23, 0x91, "‘’“”•–—˜™š›œ"),
    (
        23,
        0x9e,
        "žŸ\u{a0}¡¢£¤¥¦§¨©ª«¬\u{ad}®¯°±²³´µ¶·¸¹º»¼½¾¿ÀÁÂÃÄÅÆÇÈÉÊËÌÍÎÏÐÑÒÓÔÕÖ×ØÙÚÛÜÝÞßàáâãäåæçèéêëìíîïðñòóôõö÷øùúûüýþÿ",
    ),
];

#[test]
fn code_pages(rt: HostRuntime) -> Result<(), Fail> {
    for (eci, first, text) in RUNS.iter().copied() {
        let bytes = encode(rt.alloc(), text, eci)?;
        for (at, byte) in bytes.iter().enumerate() {
            assert_eq!(&rt; usize::from(*byte).checked_sub(at), Some(first));
        }
        assert_eq!(&rt; decode(rt.alloc(), &bytes, eci)?.as_str(), text);
    }
    Ok(())
}

#[test]
fn choices(rt: HostRuntime) -> Result<(), Fail> {
    assert_eq!(&rt; choose(""), 3);
    assert_eq!(&rt; choose("Größe"), 3);
    assert_eq!(&rt; choose("Я"), 7);
    assert_eq!(&rt; choose("ğ"), 11);
    assert_eq!(&rt; choose("a€"), 17);
    assert_eq!(&rt; choose("“a”"), 22);
    assert_eq!(&rt; choose("“é”"), 23);
    assert_eq!(&rt; choose("日"), 26);
    Ok(())
}

// The text becomes the bytes, and they become the text.
fn both(rt: &impl Abort, alloc: Global, text: &str, eci: u32, bytes: &[u8]) -> Result<(), Fail> {
    assert_eq!(rt; encode(alloc, text, eci)?.as_slice(), bytes);
    assert_eq!(rt; decode(alloc, bytes, eci)?.as_str(), text);
    Ok(())
}

#[test]
fn whole_sets(rt: HostRuntime) -> Result<(), Fail> {
    let alloc = rt.alloc();
    both(
        &rt,
        alloc,
        "a\u{ffff}\u{10000}\u{1f600}",
        25,
        &[0, 97, 0xff, 0xff, 0xd8, 0, 0xdc, 0, 0xd8, 0x3d, 0xde, 0],
    )?;
    both(&rt, alloc, "日", 26, &[0xe6, 0x97, 0xa5])?;
    both(&rt, alloc, "\0\u{7f}", 27, &[0, 127])?;
    both(&rt, alloc, "\0\u{7f}\u{80}ÿ", 899, &[0, 127, 128, 255])
}

#[test]
fn faults(rt: HostRuntime) -> Result<(), Fail> {
    let alloc = rt.alloc();
    assert!(&rt; matches!(&encode(alloc, "é€Я", 3), Err(SetFault::NoCharacter(2))));
    assert!(&rt; matches!(&encode(alloc, "a\u{80}", 27), Err(SetFault::NoCharacter(1))));
    assert!(&rt; matches!(&encode(alloc, "a", 4), Err(SetFault::UnknownEci)));
    assert!(&rt; matches!(&decode(alloc, &[], 24), Err(SetFault::UnknownEci)));
    assert!(&rt; matches!(&decode(alloc, &[65, 0x98], 22), Err(SetFault::BadBytes(1))));
    assert!(&rt;
        matches!(
            &decode(alloc, &[0, 65, 0xdc, 0], 25),
            Err(SetFault::BadBytes(2))
        )
    );
    assert!(&rt;
        matches!(
            &decode(alloc, &[0, 65, 0xd8, 0, 0, 65], 25),
            Err(SetFault::BadBytes(2))
        )
    );
    assert!(&rt; matches!(&decode(alloc, &[0, 65, 0], 25), Err(SetFault::BadBytes(2))));
    assert!(&rt;
        matches!(
            &decode(alloc, &[65, 0xe6, 0x97], 26),
            Err(SetFault::BadBytes(1))
        )
    );
    assert!(&rt; matches!(&decode(alloc, &[65, 128], 27), Err(SetFault::BadBytes(1))));
    Ok(())
}

// Whether the body has this text.
fn has_text(
    alloc: Global,
    body: &Elements,
    eci: Option<u32>,
    wanted: &str,
) -> Result<bool, NoMemory> {
    match text_of(alloc, body, eci)? {
        Some(text) => Ok(text.as_str() == wanted),
        None => Ok(false),
    }
}

#[test]
fn parts(rt: HostRuntime) -> Result<(), Fail> {
    let alloc = rt.alloc();
    let mut body = Elements::new(alloc);
    assert!(&rt; has_text(alloc, &body, None, "")?);
    assert!(&rt; has_text(alloc, &body, Some(9), "")?);
    body.push(Element::Byte(b'A'))?;
    body.push(Element::Eci(7))?;
    body.push(Element::Byte(0xcf))?;
    assert!(&rt; has_text(alloc, &body, None, "AЯ")?);

    // The number 9 names no set: without bytes behind it that is nothing, with bytes there is no text.
    body.push(Element::Eci(9))?;
    assert!(&rt; has_text(alloc, &body, None, "AЯ")?);
    body.push(Element::Byte(b'A'))?;
    assert!(&rt; text_of(alloc, &body, None)?.is_none());
    Ok(())
}

#[test]
fn bodies_without_text(rt: HostRuntime) -> Result<(), Fail> {
    let alloc = rt.alloc();
    let mut body = Elements::new(alloc);
    body.push(Element::Byte(0xe9))?;
    assert!(&rt; has_text(alloc, &body, Some(7), "щ")?);
    assert!(&rt; text_of(alloc, &body, Some(26))?.is_none());
    body.push(Element::Eci(27))?;
    assert!(&rt; has_text(alloc, &body, None, "é")?);
    body.push(Element::Byte(0x80))?;
    assert!(&rt; text_of(alloc, &body, None)?.is_none());

    let mut strings = Elements::new(alloc);
    strings.push(Element::Fnc1)?;
    assert!(&rt; text_of(alloc, &strings, None)?.is_none());
    Ok(())
}

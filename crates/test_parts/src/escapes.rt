use input_escapes::{EscapeFault, escape, escape_text, unescape};
use std::test::Fail;

#[test]
fn forms(rt: HostRuntime) -> Result<(), Fail> {
    let alloc = rt.alloc();
    let text = b"A\\0\\E\\a\\b\\t\\n\\v\\f\\r\\e\\G\\R\\\\\\d065\\o101\\x4a\\x4A\\u00e9\\U01F600";
    let bytes = [
        65, 0, 4, 7, 8, 9, 10, 11, 12, 13, 27, 29, 30, 92, 65, 65, 74, 74, 0xc3, 0xa9, 0xf0, 0x9f,
        0x98, 0x80,
    ];
    assert_eq!(rt; unescape(alloc, text)?.as_slice(), bytes.as_slice());
    Ok(())
}

#[test]
fn faults(rt: HostRuntime) -> Result<(), Fail> {
    let alloc = rt.alloc();
    assert!(rt; matches!(&unescape(alloc, b"\\x4"), Err(EscapeFault::ShortEscape(0))));
    assert!(rt; matches!(&unescape(alloc, b"a\\"), Err(EscapeFault::ShortEscape(1))));
    assert!(rt;
        matches!(
            &unescape(alloc, b"\\o18A"),
            Err(EscapeFault::ShortEscape(0))
        )
    );
    assert!(rt;
        matches!(
            &unescape(alloc, b"ab\\q"),
            Err(EscapeFault::UnknownEscape(2))
        )
    );
    assert!(rt;
        matches!(
            &unescape(alloc, b"\\\\\\d256"),
            Err(EscapeFault::OutOfRange(2))
        )
    );
    assert!(rt;
        matches!(
            &unescape(alloc, b"\\uD800"),
            Err(EscapeFault::OutOfRange(0))
        )
    );
    assert!(rt;
        matches!(
            &unescape(alloc, b"\\U110000"),
            Err(EscapeFault::OutOfRange(0))
        )
    );
    Ok(())
}

#[test]
fn written(rt: HostRuntime) -> Result<(), Fail> {
    let alloc = rt.alloc();
    let text = b"A\\\\\\x0A\\xFF";
    assert_eq!(rt;
        escape(alloc, &[65, 92, 10, 255])?.as_slice(),
        text.as_slice()
    );
    let text = [65, 92, 92, 92, 120, 48, 65, 0xc3, 0xa9];
    assert_eq!(rt;
        escape_text(alloc, "A\\\n\u{e9}")?.as_slice(),
        text.as_slice()
    );
    Ok(())
}

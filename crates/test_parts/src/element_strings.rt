use bar_base::{Element, Elements};
use gs1_check::{Gs1Fault, check_digit, parse, show};
use std::alloc::Global;
use std::process::Abort;
use std::test::Fail;

// A body of these bytes, where `~` is FNC1.
fn body_of(alloc: Global, bytes: &[u8]) -> Result<Elements, Fail> {
    let mut body = Elements::new(alloc);
    for byte in bytes {
        body.push(if *byte == b'~' {
            Element::Fnc1
        } else {
            Element::Byte(*byte)
        })?;
    }
    Ok(body)
}

// The text has the body, and the body the text.
fn both(rt: &impl Abort, alloc: Global, text: &[u8], bytes: &[u8]) -> Result<(), Fail> {
    let body = body_of(alloc, bytes)?;
    assert_eq!(rt; parse(alloc, text, false)?.as_slice(), body.as_slice());
    match show(alloc, &body)? {
        Some(shown) => assert_eq!(rt; shown.as_slice(), text),
        None => assert!(rt; false),
    }
    Ok(())
}

#[test]
fn bodies(rt: HostRuntime) -> Result<(), Fail> {
    let alloc = rt.alloc();
    both(
        &rt,
        alloc,
        b"[01]09521234543213[17]261231[10]ABC123",
        b"01095212345432131726123110ABC123",
    )?;
    both(
        &rt,
        alloc,
        b"[235]A[21]B[3923]1[410]9521101530001[20]02",
        b"235A~21B~39231~41095211015300012002",
    )?;
    both(&rt, alloc, b"[10](A)", b"10(A)")?;
    assert!(&rt; show(alloc, &body_of(alloc, b"10A~")?)?.is_none());
    assert!(&rt; show(alloc, &body_of(alloc, b"")?)?.is_none());
    assert_eq!(&rt; parse(alloc, b"(235)A(21)B", true)?.len(), 8);
    assert_eq!(&rt; check_digit(b""), 0);
    assert_eq!(&rt; check_digit(b"0952123454321"), 3);
    Ok(())
}

// Each text has later faults behind the one that is wanted.
#[test]
fn faults(rt: HostRuntime) -> Result<(), Fail> {
    let alloc = rt.alloc();
    assert!(&rt; matches!(&parse(alloc, b"", false), Err(Gs1Fault::BadBracket(0))));
    assert!(&rt;
        matches!(
            &parse(alloc, b"a[99]#", false),
            Err(Gs1Fault::BadBracket(0))
        )
    );
    assert!(&rt; matches!(&parse(alloc, b"[10", false), Err(Gs1Fault::BadBracket(3))));
    assert!(&rt; matches!(&parse(alloc, b"[05#", false), Err(Gs1Fault::BadBracket(3))));
    assert!(&rt;
        matches!(
            &parse(alloc, b"[3106]#", false),
            Err(Gs1Fault::UnknownIdentifier(1))
        )
    );
    assert!(&rt;
        matches!(
            &parse(alloc, b"[17]#", false),
            Err(Gs1Fault::BadCharacter(4))
        )
    );
    assert!(&rt; matches!(&parse(alloc, b"[17]A", false), Err(Gs1Fault::BadLength(4))));
    assert!(&rt;
        matches!(
            &parse(alloc, b"[17]26130A", false),
            Err(Gs1Fault::BadCharacter(9))
        )
    );
    assert!(&rt;
        matches!(
            &parse(alloc, b"[17]260001", false),
            Err(Gs1Fault::BadDate(4))
        )
    );
    assert!(&rt;
        matches!(
            &parse(alloc, b"[17]260132", false),
            Err(Gs1Fault::BadDate(4))
        )
    );
    assert!(&rt;
        matches!(
            &parse(alloc, b"[01]09521234543214[05]", false),
            Err(Gs1Fault::BadCheck(17, 4, 3))
        )
    );
    assert!(&rt;
        matches!(
            &parse(alloc, b"(10)A)", true),
            Err(Gs1Fault::BadCharacter(5))
        )
    );
    assert!(&rt;
        matches!(
            &parse(alloc, b"[421]12AB", false),
            Err(Gs1Fault::BadCharacter(7))
        )
    );
    Ok(())
}

use bar_base::Element;
use linear_codes::code93;
use linear_reader::{ScanFault, parse_row, read_row};
use std::test::Fail;

#[test]
fn a_row_of_code_93_reads_as_its_text(rt: HostRuntime) -> Result<(), Fail> {
    let drawn = code93(rt.alloc(), b"a")?;
    if drawn.grid.rows() != 1 {
        return Err(Fail::from("rows"));
    }
    let scan = read_row(rt.alloc(), &drawn.grid, 25)?;
    assert!(rt; !scan.backward);
    assert_eq!(rt; scan.checks.len(), 2);
    assert_eq!(rt; scan.body.len(), 1);
    assert_eq!(rt; scan.body.get(0), Some(Element::Byte(b'a')));
    Ok(())
}

#[test]
fn a_text_without_a_start_is_refused(rt: HostRuntime) -> Result<(), Fail> {
    let row = parse_row(rt.alloc(), b"1\n")?;
    match read_row(rt.alloc(), &row, 20) {
        Err(ScanFault::NoStart) => Ok(()),
        _ => Err(Fail::from("read")),
    }
}

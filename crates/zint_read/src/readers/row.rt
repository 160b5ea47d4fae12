//! The row of bars in a line of text (ISO/IEC 15417, 16388, 16390; AIM Code 93).
ghost use Rattle.std.specs.Prelude.{◌≡◌, ◌≤◌, ◌++◌, IfOk, OnOk, length, drop, option_map};
ghost use Rattle.bar_base.specs.Picture.{row_count};
ghost use Rattle.linear_reader.specs.Patterns.{IsRowSymbol};
ghost use Rattle.zint_answers.specs.Steps.{MayAnswer};
ghost use Rattle.zint_read.specs.ReadReport.{body_line};
ghost use Rattle.zint_read.specs.readers.Row.{IsRowGs1, IsRowReport, direction_line, direction_text, reads_row, row_fault, check_line, scan_fault, scans, shows_row, symbol_line};

use crate::body_lines::put_gs1_line;
use crate::images::bad_image;
use crate::message_lines::put_data_line;
use bar_base::{Element, Elements, Grid, NoMemory};
use gs1_check::show;
use linear_reader::{RowFault, Scan, ScanFault, parse_row, read_row};
use std::alloc::Global;
use zint_answers::{Fault, ImageFault, Refusal, SymbolFault, put_number, put_numbers, put_text};

/// The report of the row of bars whose text these bytes are, read by a symbology: 8 Code 39, 9 extended Code 39, 20 Code 128, 25 Code 93,
/// 89 ITF-14; or the first refusal: the bytes are no row, and then what keeps the row from being read.
///
/// The lines of the report are `symbol=`, `direction=` (`forward` or `backward`), `check=` where there are check values, `data=`, and
/// `gs1=` where the data begins with FNC1 and the element strings behind it have a text.
#[tactic(auto, using(zint_answers::proofs::Steps::stepping), unfolding(crate::specs::readers::Row::reads_row))]
pub(crate) fn read(alloc: Global, symbol: u32, bytes: &[u8]) -> Result<Vec<u8>, Fault>
    requires symbol { IsRowSymbol symbol }
    requires short { length bytes.now ≤ 65536 }
    ensures { MayAnswer (λ report. report.items) result (reads_row symbol bytes.now) }
{
    let row = row_in(alloc, bytes)?;
    let scan = scan_of(alloc, &row, symbol)?;
    let report = report_of_scan(alloc, symbol, &scan)?;
    Ok(report)
}

/// The row that a text shows.
#[tactic(auto, using(crate::proofs::RowRefusals::row_refused))]
fn row_in(alloc: Global, bytes: &[u8]) -> Result<Grid, Fault>
    requires { length bytes.now ≤ 65536 }
    ensures answer { MayAnswer (λ row. row) result (shows_row bytes.now) }
    ensures one { IfOk result (λ row. row_count row ≡ 1) }
{
    match parse_row(alloc, bytes) {
        Ok(row) => Ok(row),
        Err(fault) => Err(row_fault(fault)),
    }
}

/// What a row reads as.
#[tactic(auto, using(crate::proofs::RowRefusals::scan_refused))]
fn scan_of(alloc: Global, row: &Grid, symbol: u32) -> Result<Scan, Fault>
    requires row { row_count row.now ≡ 1 }
    requires symbol { IsRowSymbol symbol }
    ensures { MayAnswer (λ scan. scan) result (scans symbol row.now) }
{
    match read_row(alloc, row, symbol) {
        Ok(scan) => Ok(scan),
        Err(fault) => Err(scan_fault(fault)),
    }
}

/// What a fault of the text of a row is here.
fn row_fault(fault: RowFault) -> Fault
    ensures { result ≡ row_fault fault }
{
    match fault {
        RowFault::NoMemory => Fault::NoMemory,
        RowFault::BadText(place) => bad_image(ImageFault::Grid(place as u64)),
        RowFault::BadSide(width, rows) => bad_image(ImageFault::Side(width, rows)),
    }
}

/// What a fault of a row is here.
fn scan_fault(fault: ScanFault) -> Fault
    ensures { result ≡ scan_fault fault }
{
    match fault {
        ScanFault::NoMemory => Fault::NoMemory,
        ScanFault::NoStart => Fault::Refused(Refusal::BadSymbol(SymbolFault::NoFinder(0, 0))),
        ScanFault::BadPattern(place) => Fault::Refused(Refusal::BadSymbol(SymbolFault::BadPattern(
            place as u64,
        ))),
        ScanFault::BadCheck(place, given, wanted) => Fault::Refused(Refusal::BadCheck {
            given,
            place: place as u64,
            wanted,
        }),
        ScanFault::BadSpelling(place) => Fault::Refused(Refusal::BadSymbol(SymbolFault::BadValue(
            place as u64,
        ))),
    }
}

/// The report of a row.
fn report_of_scan(alloc: Global, symbol: u32, scan: &Scan) -> Result<Vec<u8>, NoMemory>
    ensures { IfOk result (λ report. IsRowReport symbol scan.now report.items) }
{
    let gs1 = scan_gs1(alloc, &scan.body)?;
    let mut report = Vec::new(alloc);
    put_symbol_line(&mut report, symbol)?;
    put_direction_line(&mut report, scan.backward)?;
    put_check_line(&mut report, scan.checks.as_slice())?;
    put_data_line(alloc, &mut report, &scan.body)?;
    put_gs1_line(&mut report, &gs1)?;
    Ok(report)
}

/// Where a body begins with FNC1, the text of the element strings behind it, where there is one.
fn scan_gs1(alloc: Global, body: &Elements) -> Result<Option<Vec<u8>>, NoMemory>
    ensures { IfOk result (λ shown. IsRowGs1 body.now (option_map (λ text. text.items) shown)) }
{
    match body.get(0) {
        None => Ok(None),
        Some(Element::Byte(_)) => Ok(None),
        Some(Element::Eci(_)) => Ok(None),
        Some(Element::Fnc1) => {
            let rest = behind_first(alloc, body)?;
            let shown = show(alloc, &rest)?;
            Ok(shown)
        }
    }
}

/// The elements behind the first.
fn behind_first(alloc: Global, body: &Elements) -> Result<Elements, NoMemory>
    requires { 1 ≤ length body.now }
    ensures { IfOk result (λ rest. rest ≡ drop 1 body.now) }
{
    let mut rest = Elements::new(alloc);
    for element in &body.as_slice()[1..] {
        rest.push(*element)?;
    }
    Ok(rest)
}

/// Puts the line of the symbology at the end of `report`.
#[tactic(auto, unfolding(crate::specs::readers::Row::symbol_line))]
fn put_symbol_line(report: &mut Vec<u8>, symbol: u32) -> Result<(), NoMemory>
    ensures { OnOk result (report.new.items ≡ report.old.items ++ symbol_line symbol) }
{
    put_text(report, b"symbol=")?;
    put_number(report, u64::from(symbol))?;
    put_text(report, b"\n")?;
    Ok(())
}

/// The name of a direction.
fn direction(backward: bool) -> &'static [u8]
    ensures { result.now ≡ direction_text backward }
{
    if backward { b"backward" } else { b"forward" }
}

/// Puts the line of the direction at the end of `report`.
#[tactic(auto, unfolding(crate::specs::readers::Row::direction_line))]
fn put_direction_line(report: &mut Vec<u8>, backward: bool) -> Result<(), NoMemory>
    ensures { OnOk result (report.new.items ≡ report.old.items ++ direction_line backward) }
{
    put_text(report, b"direction=")?;
    put_text(report, direction(backward))?;
    put_text(report, b"\n")?;
    Ok(())
}

/// Puts the line of the check values, where there are some, at the end of `report`.
#[tactic(auto, unfolding(crate::specs::readers::Row::check_line))]
fn put_check_line(report: &mut Vec<u8>, checks: &[u8]) -> Result<(), NoMemory>
    ensures { OnOk result (report.new.items ≡ report.old.items ++ check_line checks.now) }
{
    if checks.is_empty() {
        return Ok(());
    }
    put_text(report, b"check=")?;
    put_numbers(report, checks)?;
    put_text(report, b"\n")?;
    Ok(())
}

//! The read report of a reading.
ghost use Rattle.std.specs.Prelude.{◌≡◌, ◌++◌, OnOk, IfOk};
ghost use Rattle.zint_read.specs.ReadReport.{IsReportOf, IsToldBehind, codewords_line, corrected_line, lost_line, lost_lines, size_line};

use crate::body_lines::{decoded_text, gs1_text, put_gs1_line, put_text_line};
use crate::message_lines::put_message_lines;
use aztec_layout::Size;
use bar_base::{Message, NoMemory};
use std::alloc::Global;
use symbol_reader::{LostReading, Reading};
use zint_answers::{put_number, put_size, put_text};

/// The read report of a reading, with the lost codewords where they are to be told.
pub(crate) fn report_of(
    alloc: Global,
    tells_lost: bool,
    read: &LostReading,
) -> Result<Vec<u8>, NoMemory>
    ensures { IfOk result (λ report. IsReportOf tells_lost read.now report.items) }
{
    let mut report = Vec::new(alloc);
    put_symbol_lines(&mut report, &read.reading)?;
    put_lost_lines(&mut report, tells_lost, read.lost)?;
    told_behind(alloc, report, &read.reading.message)
}

/// The lines of a message and of its texts behind those of a report.
fn told_behind(alloc: Global, front: Vec<u8>, message: &Message) -> Result<Vec<u8>, NoMemory>
    ensures { IfOk result (λ report. IsToldBehind front.items message.now report.items) }
{
    let mut report = front;
    let gs1 = gs1_text(alloc, message)?;
    let text = decoded_text(alloc, message)?;
    put_message_lines(alloc, &mut report, message)?;
    put_gs1_line(&mut report, &gs1)?;
    put_text_line(alloc, &mut report, &text)?;
    Ok(report)
}

/// Puts the line of the lost codewords at the end of `report`, where it is to be told.
fn put_lost_lines(report: &mut Vec<u8>, tells_lost: bool, lost: u32) -> Result<(), NoMemory>
    ensures { OnOk result (report.new.items ≡ report.old.items ++ lost_lines tells_lost lost) }
{
    if tells_lost {
        put_lost_line(report, lost)?;
    }
    Ok(())
}

/// Puts the line of the lost codewords at the end of `report`.
#[tactic(auto, unfolding(crate::specs::ReadReport::lost_line))]
fn put_lost_line(report: &mut Vec<u8>, lost: u32) -> Result<(), NoMemory>
    ensures { OnOk result (report.new.items ≡ report.old.items ++ lost_line lost) }
{
    put_text(report, b"lost=")?;
    put_number(report, u64::from(lost))?;
    put_text(report, b"\n")?;
    Ok(())
}

/// Puts the lines that tell the symbol at the end of `report`.
fn put_symbol_lines(report: &mut Vec<u8>, reading: &Reading) -> Result<(), NoMemory>
    ensures { OnOk result (report.new.items ≡ report.old.items ++ ((size_line reading.now.size
        ++ codewords_line reading.now.held reading.now.check) ++ corrected_line reading.now.corrected)) }
{
    put_size_line(report, reading.size)?;
    put_codewords_line(report, reading.held, reading.check)?;
    put_corrected_line(report, reading.corrected)?;
    Ok(())
}

/// Puts the line of the size at the end of `report`.
#[tactic(auto, unfolding(crate::specs::ReadReport::size_line))]
fn put_size_line(report: &mut Vec<u8>, size: Size) -> Result<(), NoMemory>
    ensures { OnOk result (report.new.items ≡ report.old.items ++ size_line size) }
{
    put_text(report, b"size=")?;
    put_size(report, size)?;
    put_text(report, b"\n")?;
    Ok(())
}

/// Puts the line of the data and check codewords at the end of `report`.
#[tactic(auto, unfolding(crate::specs::ReadReport::codewords_line))]
fn put_codewords_line(report: &mut Vec<u8>, held: u32, check: u32) -> Result<(), NoMemory>
    ensures { OnOk result (report.new.items ≡ report.old.items ++ codewords_line held check) }
{
    put_text(report, b"codewords=")?;
    put_number(report, u64::from(held))?;
    put_text(report, b"+")?;
    put_number(report, u64::from(check))?;
    put_text(report, b"\n")?;
    Ok(())
}

/// Puts the line of the corrected codewords at the end of `report`.
#[tactic(auto, unfolding(crate::specs::ReadReport::corrected_line))]
fn put_corrected_line(report: &mut Vec<u8>, corrected: u32) -> Result<(), NoMemory>
    ensures { OnOk result (report.new.items ≡ report.old.items ++ corrected_line corrected) }
{
    put_text(report, b"corrected=")?;
    put_number(report, u64::from(corrected))?;
    put_text(report, b"\n")?;
    Ok(())
}

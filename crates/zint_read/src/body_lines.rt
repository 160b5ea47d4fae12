//! The lines of a read report that show the body once more: as element strings, and as text.
ghost use Rattle.std.specs.Prelude.{◌≡◌, ◌++◌, OnOk, IfOk, option_map};
ghost use Rattle.std.specs.String.{string_bytes};
ghost use Rattle.zint_read.specs.ReadReport.{IsDecoded, IsGs1Text, gs1_line, text_line};

use bar_base::{Message, NoMemory};
use eci_sets::text_of;
use gs1_check::show;
use input_escapes::escape_text;
use std::alloc::Global;
use zint_answers::put_text;

/// In GS1 data the text of the element strings, where there is one.
pub(crate) fn gs1_text(alloc: Global, message: &Message) -> Result<Option<Vec<u8>>, NoMemory>
    ensures { IfOk result (λ shown. IsGs1Text message.now (option_map (λ text. text.items) shown)) }
{
    if message.gs1 {
        show(alloc, &message.body)
    } else {
        Ok(None)
    }
}

/// Puts the line of the element strings, where there is one, at the end of `report`.
pub(crate) fn put_gs1_line(report: &mut Vec<u8>, shown: &Option<Vec<u8>>) -> Result<(), NoMemory>
    ensures { OnOk result
        (report.new.items ≡ report.old.items ++ gs1_line (option_map (λ text. text.items) shown.now)) }
{
    match shown {
        None => Ok(()),
        Some(text) => {
            put_text(report, b"gs1=")?;
            put_text(report, text)?;
            put_text(report, b"\n")?;
            Ok(())
        }
    }
}

/// The text of the parts of a message's body, joined, where it has one.
#[tactic(auto, using(crate::proofs::BodyTexts::joined))]
pub(crate) fn decoded_text(alloc: Global, message: &Message) -> Result<Option<String>, NoMemory>
    ensures { IfOk result (λ text. IsDecoded message.now (option_map (λ text. string_bytes text) text)) }
{
    text_of(alloc, &message.body, message.eci)
}

/// Puts the line of the text, where there is one, at the end of `report`.
pub(crate) fn put_text_line(
    alloc: Global,
    report: &mut Vec<u8>,
    shown: &Option<String>,
) -> Result<(), NoMemory>
    ensures { OnOk result
        (report.new.items ≡ report.old.items ++ text_line (option_map (λ text. string_bytes text) shown.now)) }
{
    match shown {
        None => Ok(()),
        Some(text) => {
            let escaped = escape_text(alloc, text)?;
            put_text(report, b"text=")?;
            put_text(report, &escaped)?;
            put_text(report, b"\n")?;
            Ok(())
        }
    }
}

//! What is answered to settings, by what is to be done.
ghost use Rattle.std.specs.Prelude.{◌≡◌, ◌≤◌, false, IfOk, IfErr, OnOk, Ok, vec_len};
ghost use Rattle.std.specs.Io.KnownBytes.{IsAtEnd};
ghost use Rattle.bar_base.specs.Faults.{Rose};
ghost use Rattle.bar_base.specs.Files.{SameFiles, left_of};
ghost use Rattle.bar_base.specs.Input.{limit_for};
ghost use Rattle.bar_base.specs.Limits.{most_bmp_bytes, most_bytes};
ghost use Rattle.zint_answers.specs.Steps.{MayAnswer};
ghost use Rattle.zint_settings.specs.Settings.{OnDemonstration, drawing_in, origin_in, task_in};
ghost use Rattle.zint_cli.specs.Call.{answers, demonstration_lines, drawn_text, picture_limit, responds};
ghost use Rattle.zint_cli.specs.Content.{HasEnded, ReadFaulted, content_of, names_standard};
ghost use Rattle.zint_cli.specs.Headline.{ShowsNearGrid};
ghost use Rattle.zint_cli.specs.inner.OutputText.{output_text};
ghost use Rattle.zint_cli.specs.inner.Stopped.{IsStopped};

use crate::content::take_content;
use crate::output::{Output, shown_in};
use bar_base::{Files, MOST_BYTES, Source};
use std::alloc::Global;
use zint_answers::Fault;
use zint_demo::demonstrate;
use zint_draw::draw;
use zint_read::{picture_limit as reading_limit, read_report};
use zint_settings::{DrawingSettings, Settings, TaskSettings};

/// The output that the settings ask for, of the content that they name. All memory is taken here, and every refusal but that of a write
/// is decided here; the output is not touched.
#[tactic(auto, using(crate::proofs::AnswerLemmas::answering))]
pub fn answer<I: Source, F: Files>(
    alloc: Global,
    settings: &Settings<'_>,
    input: &mut I,
    files: &mut F,
) -> Result<Output, Fault>
    ensures given { IfOk result (λ output. responds (task_in settings.now.task)
        (content_of (origin_in settings.now.origin) (I.left input.old) (F.state files.old)) (Ok (output_text output))) }
    ensures refused { IfErr result (IsStopped (responds (task_in settings.now.task)
        (content_of (origin_in settings.now.origin) (I.left input.old) (F.state files.old)))
        (content_of (origin_in settings.now.origin) (I.left input.old) (F.state files.old))
        (ReadFaulted (origin_in settings.now.origin) (Rose (I.faults input.old) (I.faults input.new))
        (Rose (F.reading_faults files.old) (F.reading_faults files.new)))) }
    ensures near { IfOk result (λ output. OnDemonstration (task_in settings.now.task)
        (λ number. ShowsNearGrid number (output_text output))) }
    ensures ended { OnOk result (HasEnded (origin_in settings.now.origin)
        (IsAtEnd (I.left input.new)) (IsAtEnd (left_of (F.state files.new)))) }
    ensures input_kept { names_standard (origin_in settings.now.origin) ≡ false → input.new ≡ input.old }
    ensures same_files { SameFiles (F.state files.old) (F.state files.new) }
    ensures writing_count { F.writing_faults files.new ≡ F.writing_faults files.old }
{
    let limit = picture_limit(&settings.task);
    let raw = take_content(alloc, settings.origin, limit, input, files)?;
    let output = answer_to(alloc, &settings.task, raw)?;
    Ok(output)
}

/// The most bytes of a content that begins with `BM`.
fn picture_limit(task: &TaskSettings<'_>) -> usize
    ensures limit { result ≡ picture_limit (task_in task.now) }
    ensures some { 2 ≤ result }
    ensures few { result ≤ most_bmp_bytes }
{
    match task {
        TaskSettings::Reading(reading) => reading_limit(reading.look),
        _ => MOST_BYTES,
    }
}

/// What a task gives of the bytes of its content: a drawing, the report of a reading, or the demonstration, which needs none.
fn answer_to(alloc: Global, task: &TaskSettings<'_>, raw: Vec<u8>) -> Result<Output, Fault>
    requires within { vec_len raw ≤ limit_for most_bytes (picture_limit (task_in task.now)) raw.items }
    ensures given { MayAnswer output_text result (answers (task_in task.now) raw.items) }
    ensures near { IfOk result (λ output. OnDemonstration (task_in task.now)
        (λ number. ShowsNearGrid number (output_text output))) }
{
    match task {
        TaskSettings::Drawing(drawing) => drawn(alloc, drawing, raw),
        TaskSettings::Reading(reading) => {
            let lines = read_report(alloc, reading.look, &raw)?;
            Ok(Output::Lines(lines))
        }
        TaskSettings::Demonstration(number) => demonstrated(alloc, *number),
    }
}

/// The symbol of bytes, in the form that is asked for.
#[tactic(auto, using(zint_answers::proofs::Steps::stepping), unfolding(crate::specs::Call::drawn_text))]
fn drawn(alloc: Global, settings: &DrawingSettings<'_>, raw: Vec<u8>) -> Result<Output, Fault>
    ensures { MayAnswer output_text result (drawn_text (drawing_in settings.now) raw.items) }
{
    let symbol = draw(alloc, settings, raw)?;
    let output = shown_in(alloc, settings, symbol)?;
    Ok(output)
}

/// The lines and the grid of the demonstration.
#[tactic(auto, unfolding(crate::specs::Call::demonstration_lines))]
fn demonstrated(alloc: Global, number: u32) -> Result<Output, Fault>
    ensures given { MayAnswer output_text result (demonstration_lines number) }
    ensures near { IfOk result (λ output. ShowsNearGrid number (output_text output)) }
{
    let shown = demonstrate(alloc, number)?;
    Ok(Output::Report(shown.lines, shown.grid))
}

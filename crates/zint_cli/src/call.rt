//! The whole call.
ghost use Rattle.std.specs.Prelude.{◌≡◌, ◌⊎◌, IsSome, map, string_bytes};
ghost use Rattle.std.specs.Option.{option_map};
ghost use Rattle.std.specs.Io.KnownBytes.{IsAtEnd};
ghost use Rattle.bar_base.specs.Faults.{Rose};
ghost use Rattle.bar_base.specs.Files.{left_of};
ghost use Rattle.zint_answers.specs.declared.fault.Fault.TheVariants.{Unwritten};
ghost use Rattle.zint_words.specs.Outcome.{outcome_of, settings};
ghost use Rattle.zint_settings.specs.Settings.{request_in};
ghost use Rattle.zint_cli.specs.Effects.{HoldsText, HoldsTextPart, WriteFaulted, WritesLine};
ghost use Rattle.zint_cli.specs.Outside.{call_of, outside};
ghost use Rattle.zint_cli.specs.Run.{Ran};
ghost use Rattle.zint_cli.specs.inner.OutputText.{output_text};

use crate::answer::answer;
use crate::asking::asked;
use crate::emit::emit;
use crate::output::Output;
use crate::tell::tell;
use bar_base::{Files, Sink, Source};
use std::alloc::Global;
use zint_answers::Fault;
use zint_settings::Settings;

/// The status of a call whose output was written whole.
const OK: u8 = 0;

/// Writes the output where it is to be, and gives the status; where it was not written whole, the line of that is written.
fn finish<F: Files, O: Sink, E: Sink>(
    name: Option<&str>,
    output: Output,
    files: &mut F,
    out: &mut O,
    err: &mut E,
) -> u8
    ensures status { (result ≡ 0) ⊎ (result ≡ 12) }
    ensures written { result ≡ 0 → HoldsText (option_map (λ name. name.now) name.entry) (output_text output)
        (O.held out.old) (O.held out.new) (F.state files.old) (F.state files.new) }
    ensures part { result ≡ 12 → HoldsTextPart (option_map (λ name. name.now) name.entry) (output_text output)
        (O.held out.old) (O.held out.new) (F.state files.old) (F.state files.new) }
    ensures cause { result ≡ 12 → WriteFaulted (option_map (λ name. name.now) name.entry)
        (Rose (O.faults out.old) (O.faults out.new)) (Rose (F.writing_faults files.old) (F.writing_faults files.new)) }
    ensures out_kept { IsSome (option_map (λ name. name.now) name.entry) → out.new ≡ out.old }
    ensures reading_count { F.reading_faults files.new ≡ F.reading_faults files.old }
    ensures ended { IsAtEnd (left_of (F.state files.old)) → IsAtEnd (left_of (F.state files.new)) }
    ensures quiet { result ≡ 0 → err.new ≡ err.old }
    ensures line { result ≡ 12 → WritesLine (E.held err.old) (E.held err.new) (E.faults err.old) (E.faults err.new)
        Unwritten }
{
    match emit(name, output, files, out) {
        Ok(()) => OK,
        Err(_) => tell(err, &Fault::Unwritten),
    }
}

/// Answers the settings: from the content that they name to the status.
fn serve<I: Source, F: Files, O: Sink, E: Sink>(
    alloc: Global,
    asking: &Settings<'_>,
    input: &mut I,
    files: &mut F,
    out: &mut O,
    err: &mut E,
) -> u8
    ensures { let seen = outside I.left I.faults F.state F.reading_faults F.writing_faults O.held O.faults
        E.held E.faults in Ran (call_of (settings (request_in asking.now)) (seen input.old files.old out.old err.old)
        (seen input.new files.new out.new err.new) result) }
{
    match answer(alloc, asking, input, files) {
        Ok(output) => finish(asking.output, output, files, out, err),
        Err(fault) => tell(err, &fault),
    }
}

/// Runs the command: from its words, of which the first is the program's name, standard input and the files to the output, the fault
/// line and the exit status. All memory is taken and every refusal is decided before the first byte is written, so each status but 0
/// and 12 leaves output and files as they were.
pub fn run<I: Source, F: Files, O: Sink, E: Sink>(
    alloc: Global,
    words: &[String],
    input: &mut I,
    files: &mut F,
    out: &mut O,
    err: &mut E,
) -> u8
    // What the call leaves, whatever its words and its outside are: specs/Run says it, a sentence a field.
    ensures { let seen = outside I.left I.faults F.state F.reading_faults F.writing_faults O.held O.faults
        E.held E.faults in Ran (call_of (outcome_of (map string_bytes words.now)) (seen input.old files.old out.old err.old)
        (seen input.new files.new out.new err.new) result) }
{
    match asked(alloc, words) {
        Ok(settings) => serve(alloc, &settings, input, files, out, err),
        Err(fault) => tell(err, &fault),
    }
}

//! Where the output is written: to standard output, or to a file of a name.
ghost use Rattle.std.specs.Prelude.{◌≡◌, IsSome, OnOk, OnErr};
ghost use Rattle.std.specs.Option.{option_map};
ghost use Rattle.std.specs.Io.KnownBytes.{Appends, IsAtEnd};
ghost use Rattle.bar_base.specs.Faults.{HasCause, Rose};
ghost use Rattle.bar_base.specs.Files.{beside_held, held_of, left_of};
ghost use Rattle.bar_base.specs.Outside.{AppendsPrefix};
ghost use Rattle.zint_cli.specs.inner.OutputText.{output_text};
ghost use Rattle.zint_cli.specs.Effects.{HoldsText, HoldsTextPart, WriteFaulted};
ghost use Rattle.bar_base.specs.Files.{HoldsFile, HoldsPart};

use crate::output::{Output, write_output};
use bar_base::{Failed, FileSink, Files, Sink};

/// Writes the output to the file that is being written.
fn write_open<F: Files>(files: &mut F, output: Output) -> Result<(), Failed>
    ensures whole { OnOk result
        (Appends (held_of (F.state files.old)) (held_of (F.state files.new)) (output_text output)) }
    ensures part { OnErr result
        (AppendsPrefix (held_of (F.state files.old)) (held_of (F.state files.new)) (output_text output)) }
    ensures beside { option_map beside_held (F.state files.new) ≡ option_map beside_held (F.state files.old) }
    ensures cause { HasCause (F.writing_faults files.old) (F.writing_faults files.new) result }
    ensures reading_count { F.reading_faults files.new ≡ F.reading_faults files.old }
    ensures ended { IsAtEnd (left_of (F.state files.old)) → IsAtEnd (left_of (F.state files.new)) }
{
    let mut sink = FileSink::new(files);
    write_output(&mut sink, output)
}

/// Makes the file of this name, or empties it, and writes the output to it. `Failed` leaves the files as they were or a prefix in this
/// one alone, and is answered only where a fault was counted.
#[tactic(auto, using(bar_base::proofs::NamedFile::named_file))]
pub fn write_file<F: Files>(files: &mut F, name: &str, output: Output) -> Result<(), Failed>
    ensures whole { OnOk result (HoldsFile name.now (output_text output) (F.state files.old) (F.state files.new)) }
    ensures part { OnErr result (HoldsPart name.now (output_text output) (F.state files.old) (F.state files.new)) }
    ensures cause { HasCause (F.writing_faults files.old) (F.writing_faults files.new) result }
    ensures reading_count { F.reading_faults files.new ≡ F.reading_faults files.old }
    ensures ended { IsAtEnd (left_of (F.state files.old)) → IsAtEnd (left_of (F.state files.new)) }
{
    files.create(name)?;
    write_open(files, output)?;
    Ok(())
}

/// Writes the output to the file of the name, or to standard output where there is none. `Failed` has written a prefix, and is answered
/// only where a fault was counted.
pub fn emit<F: Files, O: Sink>(
    name: Option<&str>,
    output: Output,
    files: &mut F,
    out: &mut O,
) -> Result<(), Failed>
    ensures whole { OnOk result
        (HoldsText (option_map (λ name. name.now) name.entry) (output_text output)
        (O.held out.old) (O.held out.new) (F.state files.old) (F.state files.new)) }
    ensures part { OnErr result
        (HoldsTextPart (option_map (λ name. name.now) name.entry) (output_text output)
        (O.held out.old) (O.held out.new) (F.state files.old) (F.state files.new)) }
    ensures cause { OnErr result (WriteFaulted (option_map (λ name. name.now) name.entry)
        (Rose (O.faults out.old) (O.faults out.new)) (Rose (F.writing_faults files.old) (F.writing_faults files.new))) }
    ensures out_kept { IsSome (option_map (λ name. name.now) name.entry) → out.new ≡ out.old }
    ensures reading_count { F.reading_faults files.new ≡ F.reading_faults files.old }
    ensures ended { IsAtEnd (left_of (F.state files.old)) → IsAtEnd (left_of (F.state files.new)) }
{
    match name {
        Some(name) => write_file(files, name, output),
        None => write_output(out, output),
    }
}

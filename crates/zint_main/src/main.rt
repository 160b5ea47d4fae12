//! The command: it makes the real input, files and outputs, runs the call, and ends with its status.
#![tactic(auto)]

use bar_base::{StdFiles, StdSink, StdSource};
use std::process::ExitCode;
use std::{env, io};
use zint_answers::{Fault, Refusal};
use zint_cli::run;

/// Ends with the status of what the call answers. Where the list of words cannot be read, it writes nothing and ends as for want of
/// memory, or, for another cause such as a word that is not UTF-8, as for words that the command does not take.
fn main(rt: HostRuntime) -> ExitCode {
    let words: Vec<String> = match env::args(&rt).and_then(|args| Ok(args.collect(rt.alloc())?)) {
        Ok(words) => words,
        Err(error) if error.kind() == io::ErrorKind::OutOfMemory => return ExitCode::from(
            Fault::NoMemory.status(),
        ),
        Err(_) => return ExitCode::from(Refusal::Usage.status()),
    };
    let mut input = StdSource::new(rt.stdin());
    let mut files = StdFiles::new(rt);
    let mut out = StdSink::new(rt.stdout());
    let mut err = StdSink::new(rt.stderr());
    let status = run(
        rt.alloc(),
        &words,
        &mut input,
        &mut files,
        &mut out,
        &mut err,
    );
    ExitCode::from(status)
}

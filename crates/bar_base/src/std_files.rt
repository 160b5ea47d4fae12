ghost use Rattle.std.specs.Prelude.{◌≡◌, ◌<◌, ◌≤◌, ◌⊎◌, Ok, None, IfOk, IsErr, IsSome, OnOk, OnErr, length};
ghost use Rattle.std.specs.Option.{option_and_then};
ghost use Rattle.std.specs.Io.{ReadsAtMost, WritesAtMost};
ghost use Rattle.std.specs.Io.KnownBytes.{ReadConsumes, WriteAppends};
ghost use Rattle.bar_base.specs.Adapters.{OpenFiles};
ghost use Rattle.bar_base.specs.Faults.{HasCause, Rose, count_after};
ghost use Rattle.bar_base.specs.Files.{Lacks};

use crate::failed::Failed;
use crate::files::Files;
use std::io::{Read, Write};
use std::marker::Model;
use std::{fs, rt};

/// The files of a system as std knows them, seen as the files that are open and the two counts of faults. Which names have which
/// bytes is not said, since std does not say it.
#[derive(Drop)]
pub struct StdFiles<R: rt::Files> {
    rt: R,
    reading: Option<R::File>,
    writing: Option<R::File>,
    reading_faults: u64,
    writing_faults: u64,
}

impl<R: rt::Files> Model for StdFiles<R> {
    ghost Value = { OpenFiles R.File };

    ghost view = { λ s. record {
      reading = s.reading;
      writing = s.writing;
      faults = record { reading = s.reading_faults; writing = s.writing_faults };
    } };
}

impl<R: rt::Files + Drop> StdFiles<R> {
    /// The files of this runtime, of which none is read or written, with no fault counted.
    pub fn new(rt: R) -> StdFiles<R>
        ensures fresh { result
            ≡ record { reading = None; writing = None; faults = record { reading = 0; writing = 0 } } }
    {
        StdFiles {
            rt,
            reading: None,
            writing: None,
            reading_faults: 0,
            writing_faults: 0,
        }
    }
}

impl<R: rt::Files + Drop> Files for StdFiles<R> {
    ghost state = { λ _. None };

    ghost reading_faults = { λ files. files.faults.reading };

    ghost writing_faults = { λ files. files.faults.writing };

    /// Opens the file; an error, also where the name is missing, is a fault.
    fn open_read(&mut self, name: &str) -> Result<(), Failed>
        ensures opened { OnOk result (IsSome self.new.reading) }
        ensures kept { OnErr result (self.new.reading ≡ self.old.reading) }
        ensures writing { self.new.writing ≡ self.old.writing }
        ensures counted { self.new.faults
            ≡ record self.old.faults { reading = count_after result self.old.faults.reading } }
        ensures later { self.old.faults.reading ≤ self.new.faults.reading }
        ensures failed { IsErr result → Lacks name.now None ⊎ Rose self.old.faults.reading self.new.faults.reading }
    {
        match fs::open(&self.rt, name) {
            Ok(file) => {
                self.reading = Some(file);
                Ok(())
            }
            Err(_) => {
                self.reading_faults = self.reading_faults.saturating_add(1);
                Err(Failed)
            }
        }
    }

    /// Reads as the open file does; each of its errors is a fault. Where none is open, it reads nothing.
    fn read(&mut self, into: &mut [u8]) -> Result<usize, Failed>
        ensures taken { ReadConsumes (option_and_then R.File.remaining self.old.reading)
            (option_and_then R.File.remaining self.new.reading) result into.new }
        ensures not_open { self.old.reading ≡ None → result ≡ Ok 0 }
        ensures writing { self.new.writing ≡ self.old.writing }
        ensures counted { self.new.faults
            ≡ record self.old.faults { reading = count_after result self.old.faults.reading } }
        ensures bound { ReadsAtMost result into.new }
        ensures cause { HasCause self.old.faults.reading self.new.faults.reading result }
    {
        let Some(file) = &mut self.reading else {
            return Ok(0);
        };
        match file.read(into) {
            Ok(count) => Ok(count),
            Err(_) => {
                self.reading_faults = self.reading_faults.saturating_add(1);
                Err(Failed)
            }
        }
    }

    /// Makes the file, or empties it; an error is a fault.
    fn create(&mut self, name: &str) -> Result<(), Failed>
        ensures opened { OnOk result (IsSome self.new.writing) }
        ensures kept { OnErr result (self.new.writing ≡ self.old.writing) }
        ensures reading { self.new.reading ≡ self.old.reading }
        ensures counted { self.new.faults
            ≡ record self.old.faults { writing = count_after result self.old.faults.writing } }
        ensures cause { HasCause self.old.faults.writing self.new.faults.writing result }
    {
        match fs::create(&self.rt, name) {
            Ok(file) => {
                self.writing = Some(file);
                Ok(())
            }
            Err(_) => {
                self.writing_faults = self.writing_faults.saturating_add(1);
                Err(Failed)
            }
        }
    }

    /// Writes as the open file does. Each of its errors is a fault, and so is a write that takes nothing of a piece that isn't empty.
    /// Where none is open, the piece goes nowhere.
    fn append(&mut self, piece: &[u8]) -> Result<usize, Failed>
        ensures appended { WriteAppends (option_and_then R.File.contents self.old.writing)
            (option_and_then R.File.contents self.new.writing) result piece.now }
        ensures not_open { self.old.writing ≡ None → result ≡ Ok (length piece.now) }
        ensures reading { self.new.reading ≡ self.old.reading }
        ensures counted { self.new.faults
            ≡ record self.old.faults { writing = count_after result self.old.faults.writing } }
        ensures bound { WritesAtMost result piece.now }
        ensures moves { 0 < length piece.now → IfOk result (λ n. 0 < n) }
        ensures cause { HasCause self.old.faults.writing self.new.faults.writing result }
    {
        let Some(file) = &mut self.writing else {
            return Ok(piece.len());
        };
        match file.write(piece) {
            Ok(count) if count > 0 || piece.is_empty() => Ok(count),
            _ => {
                self.writing_faults = self.writing_faults.saturating_add(1);
                Err(Failed)
            }
        }
    }
}

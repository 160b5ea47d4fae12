ghost use Rattle.std.specs.Prelude.{◌≡◌, ◌≤◌, ◌↔◌, ◌⊎◌, [], Some, None, min, length, unwrap_or, IfOk, OnOk, OnErr, IsErr, IsTrue, option_copied};
ghost use Rattle.std.specs.FinMap.{get};
ghost use Rattle.std.specs.Io.{ReadsAtMost};
ghost use Rattle.std.specs.Io.KnownBytes.{ReadConsumes, WriteAppends};
ghost use Rattle.bar_base.specs.Faults.{HasCause, Rose};
ghost use Rattle.bar_base.specs.Files.{Lacks, Opens, created, left_of, held_of, beside_left, beside_reading, beside_held, beside_writing};
ghost use Rattle.bar_memory.specs.Memory.{next_fails};
ghost use Rattle.bar_memory.specs.MemoryFiles.{no_files, reserved, open_fails, create_fails, append_fails, after_open, after_files_read, after_create, after_append};

use crate::front::copy_front;
use crate::given_calls::GivenCalls;
use crate::place::{Place, emptied_place};
use crate::stored_file::StoredFile;
use crate::stored_files::{append_in, bytes_of, create_in, open_in, read_in, reserve_in};
use bar_base::{Failed, Files, NoMemory};
use std::alloc::Global;
use std::marker::Model;

/// Files in memory. A call fails at the numbers that were given, counted from 1 over all calls; opening a name without a file fails
/// without a fault; `create` fails for a name that wasn't reserved, and `append` where a piece is longer than the room that is left.
/// Every other read takes as many bytes as fit, and every other write the whole piece. All memory is taken by `new` and `reserve`.
#[derive(Debug, Drop)]
pub struct MemoryFiles {
    alloc: Global,
    files: Vec<StoredFile>,
    reading: Option<Place>,
    writing: Option<usize>,
    calls: GivenCalls,
    reading_faults: u64,
    writing_faults: u64,
}

impl Model for MemoryFiles {
    ghost use Rattle.std.specs.Prelude.{◌≡◌};
    ghost use Rattle.bar_memory.specs.MemoryFiles.{FilesValue, files_value_code};

    ghost Value = { FilesValue };

    ghost coded = { files_value_code };

    ghost use Rattle.bar_memory.specs.StoredFiles.{rooms_of, stored_state, IsKept};

    ghost view = { λ f. record {
      state = stored_state f.files.items f.reading f.writing;
      rooms = rooms_of f.files.items;
      calls = f.calls;
      faults = record { reading = f.reading_faults; writing = f.writing_faults };
    } };

    ghost invariant = { λ f. IsKept f.files.items f.reading f.writing };
}

impl MemoryFiles {
    /// No files and no reserved names; the calls whose numbers are in `fails` are to fail.
    pub fn new(alloc: Global, fails: &[u64]) -> Result<MemoryFiles, NoMemory>
        ensures fresh { IfOk result (λ files. files ≡ no_files fails.now) }
    {
        let calls = GivenCalls::new(alloc, fails)?;
        Ok(MemoryFiles {
            alloc,
            files: Vec::new(alloc),
            reading: None,
            writing: None,
            calls,
            reading_faults: 0,
            writing_faults: 0,
        })
    }

    /// Reserves the name for a file of `room` bytes, at most 33,554,432, or of more where more was reserved before. The files and the
    /// counts stay; without memory all stays.
    pub fn reserve(&mut self, name: &str, room: usize) -> Result<(), NoMemory>
        requires { room ≤ 33554432 }
        ensures reserved { OnOk result (self.new ≡ reserved name.now room self.old) }
        ensures kept { OnErr result (self.new ≡ self.old) }
    {
        reserve_in(self.alloc, &mut self.files, name, room)
    }

    /// The bytes of the file of this name; None exactly where there is none.
    pub fn file(&self, name: &str) -> Option<&[u8]>
        ensures bytes { option_copied result ≡ get self.now.state.files name.now }
    {
        bytes_of(&self.files, name)
    }
}

impl Files for MemoryFiles {
    ghost state = { λ files. Some files.state };

    ghost reading_faults = { λ files. files.faults.reading };

    ghost writing_faults = { λ files. files.faults.writing };

    /// Opens the file, where there is one.
    fn open_read(&mut self, name: &str) -> Result<(), Failed>
        ensures fails { IsErr result ↔ IsTrue (open_fails name.now self.old) }
        ensures after { self.new ≡ after_open name.now self.old }
        ensures opened { OnOk result (Opens name.now (Some self.old.state) (Some self.new.state)) }
        ensures missing { Lacks name.now (Some self.old.state) → IsErr result }
        ensures beside { beside_reading self.new.state ≡ beside_reading self.old.state }
        ensures later { self.old.faults.reading ≤ self.new.faults.reading }
        ensures failed { IsErr result →
            Lacks name.now (Some self.old.state) ⊎ Rose self.old.faults.reading self.new.faults.reading }
        ensures other_count { self.new.faults.writing ≡ self.old.faults.writing }
    {
        if self.calls.next() {
            self.reading_faults = self.reading_faults.saturating_add(1);
            return Err(Failed);
        }
        let Some(place) = open_in(&self.files, name) else {
            return Err(Failed);
        };
        self.reading = Some(place);
        Ok(())
    }

    /// Reads as many bytes as fit from the file that is being read; nothing where there is none.
    fn read(&mut self, into: &mut [u8]) -> Result<usize, Failed>
        ensures fails { IsErr result ↔ IsTrue (next_fails self.old.calls) }
        ensures after { self.new ≡ after_files_read (length into.old) self.old }
        ensures bound { ReadsAtMost result into.new }
        ensures taken { ReadConsumes (left_of (Some self.old.state)) (left_of (Some self.new.state)) result into.new }
        ensures all_that_fit { IfOk result (λ count. count
            ≡ min (length into.old) (length (unwrap_or (left_of (Some self.old.state)) []))) }
        ensures beside { beside_left self.new.state ≡ beside_left self.old.state }
        ensures cause { HasCause self.old.faults.reading self.new.faults.reading result }
        ensures other_count { self.new.faults.writing ≡ self.old.faults.writing }
    {
        if self.calls.next() {
            self.reading_faults = self.reading_faults.saturating_add(1);
            return Err(Failed);
        }
        let Some(mut place) = self.reading else {
            return Ok(0);
        };
        let count = read_in(&self.files, &mut place, into);
        self.reading = Some(place);
        Ok(count)
    }

    /// Makes the file, or empties it, where its name is reserved.
    fn create(&mut self, name: &str) -> Result<(), Failed>
        ensures fails { IsErr result ↔ IsTrue (create_fails name.now self.old) }
        ensures after { self.new ≡ after_create name.now self.old }
        ensures created { OnOk result (self.new.state ≡ created name.now self.old.state) }
        ensures kept { OnErr result (beside_writing self.new.state ≡ beside_writing self.old.state) }
        ensures cause { HasCause self.old.faults.writing self.new.faults.writing result }
        ensures other_count { self.new.faults.reading ≡ self.old.faults.reading }
    {
        if !self.calls.next() {
            if let Some(at) = create_in(&mut self.files, name) {
                self.reading = emptied_place(self.reading, at);
                self.writing = Some(at);
                return Ok(());
            }
        }
        self.writing_faults = self.writing_faults.saturating_add(1);
        Err(Failed)
    }

    /// Takes the whole piece, where there is room for it in the file that is being written; it goes nowhere where there is no such file.
    fn append(&mut self, piece: &[u8]) -> Result<usize, Failed>
        ensures fails { IsErr result ↔ IsTrue (append_fails piece.now self.old) }
        ensures whole { IfOk result (λ count. count ≡ length piece.now) }
        ensures after { self.new ≡ after_append piece.now self.old }
        ensures appended { WriteAppends (held_of (Some self.old.state)) (held_of (Some self.new.state))
            result piece.now }
        ensures beside { beside_held self.new.state ≡ beside_held self.old.state }
        ensures kept { OnErr result (self.new.state ≡ self.old.state) }
        ensures cause { HasCause self.old.faults.writing self.new.faults.writing result }
        ensures other_count { self.new.faults.reading ≡ self.old.faults.reading }
    {
        if !self.calls.next() {
            let Some(at) = self.writing else {
                return Ok(piece.len());
            };
            if append_in(&mut self.files, at, piece) {
                return Ok(piece.len());
            }
        }
        self.writing_faults = self.writing_faults.saturating_add(1);
        Err(Failed)
    }
}

ghost use Rattle.std.specs.Prelude.{◌≡◌, ◌↔◌, Some, min, length, IfOk, IsErr, IsTrue};
ghost use Rattle.std.specs.Io.{ReadsAtMost};
ghost use Rattle.std.specs.Io.KnownBytes.{ReadConsumes};
ghost use Rattle.bar_base.specs.Faults.{HasCause};
ghost use Rattle.bar_memory.specs.Memory.{SourceValue, next_fails, after_read};
ghost use Rattle.bar_base.specs.Outside.{nothing};

use crate::given_calls::GivenCalls;
use crate::sure_source::SureSource;
use bar_base::{Failed, NoMemory, Source};
use std::alloc::Global;
use std::marker::Model;

/// A source in memory. It fails at the numbers of calls that it was given, counted from 1; every other read takes as many bytes as fit.
#[derive(Debug, Drop)]
pub struct MemorySource {
    bytes: SureSource,
    calls: GivenCalls,
    faults: u64,
}

impl Model for MemorySource {
    ghost Value = { SourceValue };

    ghost view = { λ s. record { left = s.bytes; calls = s.calls; faults = s.faults } };
}

impl MemorySource {
    /// A source that has these bytes left; the reads whose numbers are in `fails` are to fail.
    pub fn new(alloc: Global, bytes: &[u8], fails: &[u64]) -> Result<MemorySource, NoMemory>
        ensures fresh { IfOk result (λ source. source
            ≡ record { left = bytes.now; calls = record { failing = fails.now; made = 0 }; faults = 0 }) }
    {
        let bytes = SureSource::new(alloc, bytes)?;
        let calls = GivenCalls::new(alloc, fails)?;
        Ok(MemorySource {
            bytes,
            calls,
            faults: 0,
        })
    }
}

impl Source for MemorySource {
    ghost left = { λ source. Some source.left };

    ghost faults = { λ source. source.faults };

    ghost rest = { λ _. nothing };

    /// Reads as many bytes as fit, or fails.
    fn read(&mut self, into: &mut [u8]) -> Result<usize, Failed>
        ensures fails { IsErr result ↔ IsTrue (next_fails self.old.calls) }
        ensures all_that_fit { IfOk result (λ count. count ≡ min (length into.old) (length self.old.left)) }
        ensures after { self.new ≡ after_read self.old (length into.old) }
        ensures bound { ReadsAtMost result into.new }
        ensures taken { ReadConsumes (Some self.old.left) (Some self.new.left) result into.new }
        ensures cause { HasCause self.old.faults self.new.faults result }
    {
        if self.calls.next() {
            self.faults = self.faults.saturating_add(1);
            return Err(Failed);
        }
        self.bytes.read(into)
    }
}

ghost use Rattle.std.specs.Prelude.{◌≡◌, ◌≤◌, ℕ, List, Some, Ok, min, drop, length, vec_len, IfOk};
ghost use Rattle.std.specs.Io.{ReadsAtMost};
ghost use Rattle.std.specs.Io.KnownBytes.{ReadConsumes};
ghost use Rattle.bar_base.specs.Outside.{nothing};

use crate::front::copy_front;
use bar_base::{Failed, NoMemory, Source};
use std::alloc::Global;
use std::marker::Model;

/// A source in memory that never fails, seen as the bytes that are left.
#[derive(Debug, Drop)]
pub struct SureSource {
    bytes: Vec<u8>,
    taken: usize,
}

impl Model for SureSource {
    ghost Value = { List ℕ };

    ghost view = { λ s. drop s.taken s.bytes.items };

    ghost invariant = { λ s. s.taken ≤ vec_len s.bytes };
}

impl SureSource {
    /// A source that has these bytes left.
    pub fn new(alloc: Global, bytes: &[u8]) -> Result<SureSource, NoMemory>
        ensures left { IfOk result (λ source. source ≡ bytes.now) }
    {
        let bytes = bytes.to_vec(alloc)?;
        Ok(SureSource { bytes, taken: 0 })
    }
}

impl Source for SureSource {
    ghost left = { λ bytes. Some bytes };

    ghost faults = { λ _. 0 };

    ghost rest = { λ _. nothing };

    /// Reads as many bytes as fit.
    fn read(&mut self, into: &mut [u8]) -> Result<usize, Failed>
        ensures all_that_fit { result ≡ Ok (min (length into.old) (length self.old)) }
        ensures bound { ReadsAtMost result into.new }
        ensures taken { ReadConsumes (Some self.old) (Some self.new) result into.new }
    {
        let count = copy_front(&self.bytes[self.taken..], into);
        self.taken += count;
        Ok(count)
    }
}

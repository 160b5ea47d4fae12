ghost use Rattle.std.specs.Prelude.{◌≡◌};
ghost use Rattle.std.specs.Io.{ReadsAtMost};
ghost use Rattle.std.specs.Io.KnownBytes.{ReadConsumes};
ghost use Rattle.bar_base.specs.Adapters.{Adapted};
ghost use Rattle.bar_base.specs.Faults.{HasCause, count_after};
ghost use Rattle.bar_base.specs.Outside.{nothing};

use crate::failed::Failed;
use crate::source::Source;
use std::io::Read;
use std::marker::Model;

/// A reader of std as a source, seen as the reader and a count of faults. What is left is what the reader says.
#[derive(Drop)]
pub struct StdSource<R> {
    reader: R,
    faults: u64,
}

impl<R> Model for StdSource<R> {
    ghost Value = { Adapted R };

    ghost view = { λ s. record { inner = s.reader; faults = s.faults } };
}

impl<R: Read + Drop> StdSource<R> {
    /// The reader as a source, with no fault counted.
    pub fn new(reader: R) -> StdSource<R>
        ensures fresh { result ≡ record { inner = reader; faults = 0 } }
    {
        StdSource { reader, faults: 0 }
    }
}

impl<R: Read + Drop> Source for StdSource<R> {
    ghost left = { λ s. R.remaining s.inner };

    ghost faults = { λ s. s.faults };

    ghost rest = { λ _. nothing };

    /// Reads as the reader does; each of its errors is a fault.
    fn read(&mut self, into: &mut [u8]) -> Result<usize, Failed>
        ensures counted { self.new.faults ≡ count_after result self.old.faults }
        ensures taken { ReadConsumes (R.remaining self.old.inner) (R.remaining self.new.inner) result into.new }
        ensures bound { ReadsAtMost result into.new }
        ensures cause { HasCause self.old.faults self.new.faults result }
    {
        match self.reader.read(into) {
            Ok(count) => Ok(count),
            Err(_) => {
                self.faults = self.faults.saturating_add(1);
                Err(Failed)
            }
        }
    }
}

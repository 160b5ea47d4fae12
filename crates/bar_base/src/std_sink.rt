ghost use Rattle.std.specs.Prelude.{◌≡◌, ◌<◌, IfOk, length};
ghost use Rattle.std.specs.Io.{WritesAtMost};
ghost use Rattle.std.specs.Io.KnownBytes.{WriteAppends};
ghost use Rattle.bar_base.specs.Adapters.{Adapted};
ghost use Rattle.bar_base.specs.Faults.{HasCause, count_after};
ghost use Rattle.bar_base.specs.Outside.{nothing};

use crate::failed::Failed;
use crate::sink::Sink;
use std::io::Write;
use std::marker::Model;

/// A writer of std as a sink, seen as the writer and a count of faults. It holds what the writer says that it holds.
#[derive(Drop)]
pub struct StdSink<W> {
    writer: W,
    faults: u64,
}

impl<W> Model for StdSink<W> {
    ghost Value = { Adapted W };

    ghost view = { λ s. record { inner = s.writer; faults = s.faults } };
}

impl<W: Write + Drop> StdSink<W> {
    /// The writer as a sink, with no fault counted.
    pub fn new(writer: W) -> StdSink<W>
        ensures fresh { result ≡ record { inner = writer; faults = 0 } }
    {
        StdSink { writer, faults: 0 }
    }
}

impl<W: Write + Drop> Sink for StdSink<W> {
    ghost held = { λ s. W.contents s.inner };

    ghost faults = { λ s. s.faults };

    ghost rest = { λ _. nothing };

    /// Writes as the writer does. Each of its errors is a fault, and so is a write that takes nothing of a piece that isn't empty.
    fn write(&mut self, piece: &[u8]) -> Result<usize, Failed>
        ensures counted { self.new.faults ≡ count_after result self.old.faults }
        ensures appended { WriteAppends (W.contents self.old.inner) (W.contents self.new.inner) result piece.now }
        ensures bound { WritesAtMost result piece.now }
        ensures moves { 0 < length piece.now → IfOk result (λ n. 0 < n) }
        ensures cause { HasCause self.old.faults self.new.faults result }
    {
        match self.writer.write(piece) {
            Ok(count) if count > 0 || piece.is_empty() => Ok(count),
            _ => {
                self.faults = self.faults.saturating_add(1);
                Err(Failed)
            }
        }
    }
}

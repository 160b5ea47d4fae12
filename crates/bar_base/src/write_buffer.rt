ghost use Rattle.std.specs.Prelude.{◌≡◌, ◌≤◌, ◌++◌, ℕ, [], List, OnOk, OnErr, length};
ghost use Rattle.std.specs.Bool.{OnTrue, OnFalse};
ghost use Rattle.std.specs.Io.KnownBytes.{Appends};
ghost use Rattle.bar_base.specs.Buffered.{WritesFront};
ghost use Rattle.bar_base.specs.Faults.{HasCause};
ghost use Rattle.bar_base.specs.Outside.{AppendsPrefix};

use crate::failed::Failed;
use crate::sink::Sink;
use crate::writing::write_all;
use arrayvec::ArrayVec;
use std::marker::Model;

/// How many bytes wait at most.
const MOST_WAITING: usize = 4096;

/// Bytes that wait to be written to a sink in one piece, at most 4,096; it takes no memory of its own.
#[derive(Debug, Drop)]
pub struct WriteBuffer {
    bytes: ArrayVec<u8, MOST_WAITING>,
}

impl Model for WriteBuffer {
    ghost Value = { List ℕ };

    ghost view = { λ b. b.bytes.items };

    ghost invariant = { λ b. length b.bytes.items ≤ 4096 };
}

impl WriteBuffer {
    /// A buffer in which nothing waits.
    pub fn new() -> WriteBuffer
        ensures empty { result ≡ [] }
    {
        WriteBuffer {
            bytes: ArrayVec::new(),
        }
    }

    /// Puts a piece behind the bytes that wait. Where it does not fit, they are written before, and a piece that is too long to wait is
    /// written after them. `Failed` has written a prefix of the bytes that waited and the piece, and is answered only where a fault was
    /// counted.
    #[tactic(auto, using(crate::proofs::Buffered::buffered, crate::proofs::Appended::appended))]
    pub fn put<S: Sink>(&mut self, sink: &mut S, piece: &[u8]) -> Result<(), Failed>
        ensures whole { OnOk result (WritesFront (S.held sink.old) (S.held sink.new) (self.old ++ piece.now) self.new) }
        ensures part { OnErr result (AppendsPrefix (S.held sink.old) (S.held sink.new) (self.old ++ piece.now)) }
        ensures rest { S.rest sink.new ≡ S.rest sink.old }
        ensures cause { HasCause (S.faults sink.old) (S.faults sink.new) result }
    {
        if self.keep(piece) {
            return Ok(());
        }
        self.flush(sink)?;
        if self.keep(piece) {
            return Ok(());
        }
        write_all(sink, piece)?;
        Ok(())
    }

    /// Puts a piece behind the bytes that wait, where it fits, and says so.
    fn keep(&mut self, piece: &[u8]) -> bool
        ensures kept { OnTrue result (self.new ≡ self.old ++ piece.now) }
        ensures full { OnFalse result (self.new ≡ self.old) }
    {
        self.bytes.try_extend_from_slice(piece).is_ok()
    }

    /// Writes the bytes that wait, so that none does. `Failed` has written a prefix of them, and is answered only where a fault was
    /// counted; then nothing waits any more.
    pub fn flush<S: Sink>(&mut self, sink: &mut S) -> Result<(), Failed>
        ensures whole { OnOk result (Appends (S.held sink.old) (S.held sink.new) self.old) }
        ensures part { OnErr result (AppendsPrefix (S.held sink.old) (S.held sink.new) self.old) }
        ensures empty { self.new ≡ [] }
        ensures rest { S.rest sink.new ≡ S.rest sink.old }
        ensures cause { HasCause (S.faults sink.old) (S.faults sink.new) result }
    {
        let written = write_all(sink, self.bytes.as_slice());
        self.bytes.clear();
        written
    }
}

ghost use Rattle.std.specs.Prelude.{◌≡◌, ◌≤◌, ◌↔◌, [], Some, length, vec_len, vec_capacity, IfOk, IsErr, IsTrue};
ghost use Rattle.bar_base.specs.Faults.{HasCause};
ghost use Rattle.bar_memory.specs.Memory.{SinkValue, write_fails, after_write};
ghost use Rattle.bar_base.specs.Outside.{nothing};

use crate::given_calls::GivenCalls;
use bar_base::{Failed, NoMemory, Sink};
use std::alloc::Global;
use std::marker::Model;

/// A sink in memory, with a room of at most 33,554,432 bytes. It fails at the numbers of calls that it was given, counted from 1, and
/// where a piece is longer than the room that is left; else each write takes the whole piece. It takes all its memory when it is made.
#[derive(Debug, Drop)]
pub struct MemorySink {
    bytes: Vec<u8>,
    room: usize,
    calls: GivenCalls,
    faults: u64,
}

impl Model for MemorySink {
    ghost Value = { SinkValue };

    ghost view = { λ s. record { bytes = s.bytes.items; room = s.room; calls = s.calls; faults = s.faults } };

    ghost invariant = { λ s. (vec_len s.bytes ≤ s.room) × (s.room ≤ vec_capacity s.bytes) };
}

impl MemorySink {
    /// A sink that holds nothing, with room for `room` bytes; the writes whose numbers are in `fails` are to fail.
    pub fn new(alloc: Global, room: usize, fails: &[u64]) -> Result<MemorySink, NoMemory>
        requires { room ≤ 33554432 }
        ensures fresh { IfOk result (λ sink. sink
            ≡ record { bytes = []; room = room; calls = record { failing = fails.now; made = 0 }; faults = 0 }) }
    {
        let calls = GivenCalls::new(alloc, fails)?;
        let bytes = Vec::with_capacity(alloc, room)?;
        Ok(MemorySink {
            bytes,
            room,
            calls,
            faults: 0,
        })
    }

    /// The bytes that the sink holds.
    pub fn bytes(&self) -> &[u8]
        ensures held { result.now ≡ self.now.bytes }
    {
        &self.bytes
    }
}

impl Sink for MemorySink {
    ghost held = { λ sink. Some sink.bytes };

    ghost faults = { λ sink. sink.faults };

    ghost rest = { λ _. nothing };

    /// Takes the whole piece, or fails.
    fn write(&mut self, piece: &[u8]) -> Result<usize, Failed>
        ensures fails { IsErr result ↔ IsTrue (write_fails self.old piece.now) }
        ensures whole { IfOk result (λ count. count ≡ length piece.now) }
        ensures after { self.new ≡ after_write self.old piece.now }
        ensures cause { HasCause self.old.faults self.new.faults result }
    {
        let given = self.calls.next();
        if given || piece.len() > self.room - self.bytes.len() {
            self.faults = self.faults.saturating_add(1);
            return Err(Failed);
        }
        self.bytes.extend_from_slice(piece).unwrap();
        Ok(piece.len())
    }
}

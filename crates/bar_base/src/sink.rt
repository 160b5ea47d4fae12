ghost use Rattle.std.specs.Prelude.{◌≡◌, ◌<◌, ℕ, List, Option, IfOk, length};
ghost use Rattle.std.specs.Io.{WritesAtMost};
ghost use Rattle.std.specs.Io.KnownBytes.{WriteAppends};
ghost use Rattle.bar_base.specs.Faults.{HasCause};
ghost use Rattle.bar_base.specs.Outside.{Rest};

use crate::failed::Failed;

/// What bytes are written to, as a file or standard output.
pub trait Sink {
    /// The bytes that were written, where they are known.
    ghost held: { Self → Option (List ℕ) };

    /// How often it has failed; a count that never falls, of 64 bits.
    ghost faults: { Self → ℕ };

    /// What no write changes but the bytes.
    ghost rest: { Self → Rest };

    /// Appends the first bytes of `piece` and says how many: at most its length, and at least 1 where it isn't empty. `Failed`
    /// appends nothing, and is answered only where a fault was counted.
    fn write(&mut self, piece: &[u8]) -> Result<usize, Failed>
        ensures bound { WritesAtMost result piece.now }
        ensures moves { 0 < length piece.now → IfOk result (λ n. 0 < n) }
        ensures appended { WriteAppends (held self.old) (held self.new) result piece.now }
        ensures rest { rest self.new ≡ rest self.old }
        ensures cause { HasCause (faults self.old) (faults self.new) result };
}

ghost use Rattle.std.specs.Prelude.{◌≡◌, ℕ, List, Option};
ghost use Rattle.std.specs.Io.{ReadsAtMost};
ghost use Rattle.std.specs.Io.KnownBytes.{ReadConsumes};
ghost use Rattle.bar_base.specs.Faults.{HasCause};
ghost use Rattle.bar_base.specs.Outside.{Rest};

use crate::failed::Failed;

/// What bytes are read from, as a file or standard input.
pub trait Source {
    /// The bytes that are left, where they are known.
    ghost left: { Self → Option (List ℕ) };

    /// How often it has failed; a count that never falls, of 64 bits.
    ghost faults: { Self → ℕ };

    /// What no read changes but the bytes.
    ghost rest: { Self → Rest };

    /// Puts the next bytes at the front of `into` and says how many, at most its length. For an `into` that isn't empty, 0 is
    /// the end of the input. `Failed` takes nothing, and is answered only where a fault was counted.
    fn read(&mut self, into: &mut [u8]) -> Result<usize, Failed>
        ensures bound { ReadsAtMost result into.new }
        ensures taken { ReadConsumes (left self.old) (left self.new) result into.new }
        ensures rest { rest self.new ≡ rest self.old }
        ensures cause { HasCause (faults self.old) (faults self.new) result };
}

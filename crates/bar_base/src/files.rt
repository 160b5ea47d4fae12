ghost use Rattle.std.specs.Prelude.{◌≡◌, ◌<◌, ◌≤◌, ◌⊎◌, ℕ, Option, IfOk, IsErr, OnOk, OnErr, length};
ghost use Rattle.std.specs.Option.{option_map};
ghost use Rattle.std.specs.Io.{ReadsAtMost, WritesAtMost};
ghost use Rattle.std.specs.Io.KnownBytes.{ReadConsumes, WriteAppends};
ghost use Rattle.bar_base.specs.Faults.{HasCause, Rose};
ghost use Rattle.bar_base.specs.Files.{FilesState, Lacks, Opens, created, left_of, held_of, beside_left, beside_reading, beside_held, beside_writing};

use crate::failed::Failed;

/// Files by their names, of which one at a time is read and one is written.
pub trait Files {
    /// The files, the one that is being read and the one that is being written, where they are known.
    ghost state: { Self → Option FilesState };

    /// How often opening a file to read it, or a read, has failed; a count that never falls, of 64 bits.
    ghost reading_faults: { Self → ℕ };

    /// How often creating a file, or a write, has failed; a count that never falls, of 64 bits.
    ghost writing_faults: { Self → ℕ };

    /// Begins to read the file of this name from its first byte. Where the files are known, it fails for a name that they lack; else
    /// `Failed` is answered only where a fault was counted. The files, and the one that is being written, stay.
    fn open_read(&mut self, name: &str) -> Result<(), Failed>
        ensures opened { OnOk result (Opens name.now (state self.old) (state self.new)) }
        ensures missing { Lacks name.now (state self.old) → IsErr result }
        ensures beside { option_map beside_reading (state self.new) ≡ option_map beside_reading (state self.old) }
        ensures later { reading_faults self.old ≤ reading_faults self.new }
        ensures failed { IsErr result →
            Lacks name.now (state self.old) ⊎ Rose (reading_faults self.old) (reading_faults self.new) }
        ensures other_count { writing_faults self.new ≡ writing_faults self.old };

    /// Reads on in the file that is being read, as `Source` does; all else stays.
    fn read(&mut self, into: &mut [u8]) -> Result<usize, Failed>
        ensures bound { ReadsAtMost result into.new }
        ensures taken { ReadConsumes (left_of (state self.old)) (left_of (state self.new)) result into.new }
        ensures beside { option_map beside_left (state self.new) ≡ option_map beside_left (state self.old) }
        ensures cause { HasCause (reading_faults self.old) (reading_faults self.new) result }
        ensures other_count { writing_faults self.new ≡ writing_faults self.old };

    /// Makes the file of this name, or empties it, and begins to write it; where it is being read, no byte of it is left. `Failed` is
    /// answered only where a fault was counted; then the files, and the one that is being read, stay.
    fn create(&mut self, name: &str) -> Result<(), Failed>
        ensures created { OnOk result (state self.new ≡ option_map (created name.now) (state self.old)) }
        ensures kept { OnErr result (option_map beside_writing (state self.new)
            ≡ option_map beside_writing (state self.old)) }
        ensures cause { HasCause (writing_faults self.old) (writing_faults self.new) result }
        ensures other_count { reading_faults self.new ≡ reading_faults self.old };

    /// Writes on in the file that is being written, as `Sink` does; all else stays, and with `Failed` all.
    fn append(&mut self, piece: &[u8]) -> Result<usize, Failed>
        ensures bound { WritesAtMost result piece.now }
        ensures moves { 0 < length piece.now → IfOk result (λ n. 0 < n) }
        ensures appended { WriteAppends (held_of (state self.old)) (held_of (state self.new)) result piece.now }
        ensures beside { option_map beside_held (state self.new) ≡ option_map beside_held (state self.old) }
        ensures kept { OnErr result (state self.new ≡ state self.old) }
        ensures cause { HasCause (writing_faults self.old) (writing_faults self.new) result }
        ensures other_count { reading_faults self.new ≡ reading_faults self.old };
}

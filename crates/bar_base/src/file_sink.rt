ghost use Rattle.std.specs.Prelude.{◌≡◌, Some};
ghost use Rattle.std.specs.Option.{option_map};
ghost use Rattle.bar_base.specs.Files.{held_of, beside_held};

use crate::failed::Failed;
use crate::files::Files;
use crate::sink::Sink;

/// The file that is being written, as a sink. Its count is the one of faults in creating and writing.
#[derive(Drop)]
pub struct FileSink<'a, F: Files> {
    files: &'a mut F,
}

impl<'a, F: Files> FileSink<'a, F> {
    ghost use Rattle.bar_base.specs.FileObjects.{sink_files};

    /// The file of these files that is being written.
    pub fn new(files: &'a mut F) -> FileSink<'a, F>
        ensures same_files { (sink_files result).now ≡ files.old }
        ensures same_reference { (sink_files result).ghost_name ≡ files.entry.ghost_name }
    {
        FileSink { files }
    }
}

impl<F: Files> Sink for FileSink<'_, F> {
    ghost held = { λ s. held_of (F.state s.files.now) };

    ghost faults = { λ s. F.writing_faults s.files.now };

    ghost rest = { λ s. record { files = option_map beside_held (F.state s.files.now); faults = F.reading_faults s.files.now; over = Some s.files.ghost_name } };

    /// Writes on in the file.
    fn write(&mut self, piece: &[u8]) -> Result<usize, Failed> {
        self.files.append(piece)
    }
}

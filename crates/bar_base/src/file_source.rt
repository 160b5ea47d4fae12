ghost use Rattle.std.specs.Prelude.{◌≡◌, Some};
ghost use Rattle.std.specs.Option.{option_map};
ghost use Rattle.bar_base.specs.Files.{left_of, beside_left};

use crate::failed::Failed;
use crate::files::Files;
use crate::source::Source;

/// The file that is being read, as a source. Its count is the one of faults in opening and reading.
#[derive(Drop)]
pub struct FileSource<'a, F: Files> {
    files: &'a mut F,
}

impl<'a, F: Files> FileSource<'a, F> {
    ghost use Rattle.bar_base.specs.FileObjects.{source_files};

    /// The file of these files that is being read.
    pub fn new(files: &'a mut F) -> FileSource<'a, F>
        ensures same_files { (source_files result).now ≡ files.old }
        ensures same_reference { (source_files result).ghost_name ≡ files.entry.ghost_name }
    {
        FileSource { files }
    }
}

impl<F: Files> Source for FileSource<'_, F> {
    ghost left = { λ s. left_of (F.state s.files.now) };

    ghost faults = { λ s. F.reading_faults s.files.now };

    ghost rest = { λ s. record { files = option_map beside_left (F.state s.files.now); faults = F.writing_faults s.files.now; over = Some s.files.ghost_name } };

    /// Reads on in the file.
    fn read(&mut self, into: &mut [u8]) -> Result<usize, Failed> {
        self.files.read(into)
    }
}

ghost use Rattle.std.specs.Prelude.{◌≡◌};
ghost use Rattle.bar_memory.specs.StoredFiles.{moved_place};

/// A place in a file in memory that is being read: which of the reserved files it is, how many of its bytes were read, and how many
/// there were when it was opened.
#[derive(Debug, Clone, Copy, PartialEq, Eq)]
pub(crate) struct Place {
    pub(crate) file: usize,
    pub(crate) at: usize,
    pub(crate) end: usize,
}

/// The place once a file was emptied: where it is in that file, nothing is left to read.
pub(crate) fn emptied_place(place: Option<Place>, file: usize) -> Option<Place>
    ensures { result ≡ moved_place file place }
{
    match place {
        Some(place) if place.file == file => Some(Place {
            file,
            at: 0,
            end: 0,
        }),
        _ => place,
    }
}

ghost use Rattle.std.specs.Prelude.{◌≡◌, ◌≤◌, ◌+◌, ◌++◌, [], max, true, false, length, vec_len, vec_capacity, string_bytes, IfOk, OnOk, OnErr, nat_le};
ghost use Rattle.std.specs.Bool.{OnTrue, OnFalse};
ghost use Rattle.std.specs.Str.{bytes_eq};
ghost use Rattle.bar_memory.specs.StoredFiles.{Stored};

use bar_base::NoMemory;
use std::alloc::Global;
use std::marker::Model;

/// A file in memory for which room is reserved: its name, whether it was created, its bytes, and the greatest number of them.
#[derive(Debug, Drop)]
pub(crate) struct StoredFile {
    name: String,
    made: bool,
    bytes: Vec<u8>,
    room: usize,
}

impl Model for StoredFile {
    ghost Value = { Stored };

    ghost view = { λ f. record { name = string_bytes f.name; made = f.made; bytes = f.bytes.items; room = f.room } };

    ghost invariant = { λ f. (vec_len f.bytes ≤ f.room) × (f.room ≤ vec_capacity f.bytes) };
}

impl StoredFile {
    /// A reserved name, without a file.
    pub(crate) fn new(alloc: Global, name: &str, room: usize) -> Result<StoredFile, NoMemory>
        ensures reserved { IfOk result (λ file. file
            ≡ record { name = name.now; made = false; bytes = []; room = room }) }
    {
        let name = String::from_str(alloc, name)?;
        let bytes = Vec::with_capacity(alloc, room)?;
        Ok(StoredFile {
            name,
            made: false,
            bytes,
            room,
        })
    }

    /// Whether it has this name.
    pub(crate) fn is_named(&self, name: &str) -> bool
        ensures { result ≡ bytes_eq self.now.name name.now }
    {
        self.name.as_str() == name
    }

    /// Whether the file was created.
    pub(crate) fn is_made(&self) -> bool
        ensures { result ≡ self.now.made }
    {
        self.made
    }

    /// The bytes of the file.
    pub(crate) fn bytes(&self) -> &[u8]
        ensures { result.now ≡ self.now.bytes }
    {
        &self.bytes
    }

    /// Makes room for so many bytes, where there is less.
    pub(crate) fn widen(&mut self, room: usize) -> Result<(), NoMemory>
        ensures widened { OnOk result (self.new ≡ record self.old { room = max room self.old.room }) }
        ensures kept { OnErr result (self.new ≡ self.old) }
    {
        if room > self.room {
            let more = room - self.bytes.len();
            if self.bytes.reserve(more).is_err() {
                return Err(NoMemory);
            }
            self.room = room;
        }
        Ok(())
    }

    /// Makes the file, or empties it.
    pub(crate) fn make(&mut self)
        ensures { self.new ≡ record self.old { made = true; bytes = [] } }
    {
        self.bytes.clear();
        self.made = true;
    }

    /// Puts the piece behind the bytes, where there is room for it, and says so.
    pub(crate) fn append(&mut self, piece: &[u8]) -> bool
        ensures fits { result ≡ nat_le (length self.old.bytes + length piece.now) self.old.room }
        ensures grown { OnTrue result (self.new ≡ record self.old { bytes = self.old.bytes ++ piece.now }) }
        ensures kept { OnFalse result (self.new ≡ self.old) }
    {
        if piece.len() > self.room - self.bytes.len() {
            return false;
        }
        self.bytes.extend_from_slice(piece).unwrap();
        true
    }
}

ghost use Rattle.std.specs.Prelude.{◌≡◌, ◌<◌, ◌-◌, Some, None, Option, not, false, min, take, length, vec_len, IfSome, IfNone, OnOk, OnErr, option_copied};
ghost use Rattle.std.specs.Bool.{OnTrue, OnFalse};
ghost use Rattle.std.specs.FinMap.{get, contains_key};
ghost use Rattle.bar_memory.specs.MemoryFiles.{room_is_short};
ghost use Rattle.bar_memory.specs.StoredFiles.{AllOther, IsDistinct, IsFileAt, IsReadAt, IsKept, Reserves, Creates, Grows, OpensAt, ReadsOn, files_of, rooms_of, stored_state, reading_at};
ghost use Rattle.bar_memory.specs.declared.place.Place.{Place as PlaceValue};

use crate::front::copy_front;
use crate::place::Place;
use crate::stored_file::StoredFile;
use bar_base::NoMemory;
use std::alloc::Global;

/// The place of the reserved file of this name.
pub(crate) fn find(files: &[StoredFile], name: &str) -> Option<usize>
    ensures found { IfSome result (IsFileAt files.now name.now) }
    ensures within { IfSome result (λ at. at < length files.now) }
    ensures missing { IfNone result (AllOther name.now files.now) }
{
    for (at, file) in files.iter().enumerate() {
        if file.is_named(name) {
            return Some(at);
        }
    }
    None
}

/// The bytes of the file of this name, where it was created.
pub(crate) fn bytes_of<'a>(files: &'a [StoredFile], name: &str) -> Option<&'a [u8]>
    requires { IsDistinct files.now }
    ensures bytes { option_copied result ≡ get (files_of files.now) name.now }
{
    let Some(at) = find(files, name) else {
        return None;
    };
    let file = &files[at];
    if file.is_made() {
        Some(file.bytes())
    } else {
        None
    }
}

/// Reserves a name for a file of `room` bytes, or of more where more was reserved before.
pub(crate) fn reserve_in(
    alloc: Global,
    files: &mut Vec<StoredFile>,
    name: &str,
    room: usize,
) -> Result<(), NoMemory>
    ensures reserved { OnOk result (Reserves files.old.items files.new.items name.now room) }
    ensures kept { OnErr result (files.new.items ≡ files.old.items) }
{
    match find(files, name) {
        Some(at) => files[at].widen(room),
        None => {
            let file = StoredFile::new(alloc, name, room)?;
            files.push(file)?;
            Ok(())
        }
    }
}

/// Makes the file of a reserved name, or empties it, and says which it is.
pub(crate) fn create_in(files: &mut Vec<StoredFile>, name: &str) -> Option<usize>
    ensures made { IfSome result (Creates files.old.items files.new.items name.now) }
    ensures unreserved { IfNone result (contains_key (rooms_of files.old.items) name.now ≡ false) }
    ensures kept { IfNone result (files.new.items ≡ files.old.items) }
{
    let Some(at) = find(files, name) else {
        return None;
    };
    files[at].make();
    Some(at)
}

/// Puts a piece behind the bytes of a file, where there is room for it, and says so.
pub(crate) fn append_in(files: &mut Vec<StoredFile>, at: usize, piece: &[u8]) -> bool
    requires { at < vec_len files.old }
    ensures grown { OnTrue result (Grows files.old.items files.new.items at piece.now) }
    ensures kept { OnFalse result (files.new.items ≡ files.old.items) }
    ensures short { (reading : Option PlaceValue) → IsKept files.old.items reading (Some at) →
        not result ≡ room_is_short piece.now (rooms_of files.old.items)
        (stored_state files.old.items reading (Some at)) }
{
    files[at].append(piece)
}

/// The place from which the file of this name is read, where it was created.
pub(crate) fn open_in(files: &[StoredFile], name: &str) -> Option<Place>
    requires { IsDistinct files.now }
    ensures found { IfSome result (OpensAt files.now name.now) }
    ensures missing { IfNone result (get (files_of files.now) name.now ≡ None) }
{
    let Some(at) = find(files, name) else {
        return None;
    };
    let file = &files[at];
    if file.is_made() {
        Some(Place {
            file: at,
            at: 0,
            end: file.bytes().len(),
        })
    } else {
        None
    }
}

/// Reads as many bytes as fit from a place on, and moves it behind them.
pub(crate) fn read_in(files: &[StoredFile], place: &mut Place, into: &mut [u8]) -> usize
    requires { IsReadAt files.now (Some place.old) }
    ensures moved { ReadsOn files.now place.old place.new (length into.old) }
    ensures count { result ≡ min (length into.old) (place.old.end - place.old.at) }
    ensures front { IfSome (reading_at files.now place.old) (λ reading.
        take result into.new ≡ take result reading.left) }
{
    let count = copy_front(&files[place.file].bytes()[place.at..place.end], into);
    place.at += count;
    count
}

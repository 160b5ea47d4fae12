//! A whole call over objects in memory.

use bar_base::NoMemory;
use bar_memory::{MemoryFiles, MemorySink, MemorySource};
use std::alloc::{AllocError, Global};
use zint_cli::run;

/// The room of the outputs and of files, in bytes.
const ROOM: usize = 16_384;

/// The numbers of the calls that fail, of each object of the outside.
#[derive(Clone, Copy)]
pub struct Fails<'a> {
    pub input: &'a [u64],
    pub files: &'a [u64],
    pub out: &'a [u64],
    pub err: &'a [u64],
}

/// None of them fails.
pub const NONE: Fails<'static> = Fails {
    input: &[],
    files: &[],
    out: &[],
    err: &[],
};

/// What a call left.
#[derive(Drop)]
pub struct Left {
    pub status: u8,
    pub files: MemoryFiles,
    pub out: MemorySink,
    pub err: MemorySink,
}

/// The words behind the program's name.
fn words_of(alloc: Global, words: &[&str]) -> Result<Vec<String>, AllocError> {
    let mut all = Vec::new(alloc);
    all.push("zint".to_string(alloc)?)?;
    for word in words {
        all.push(word.to_string(alloc)?)?;
    }
    Ok(all)
}

/// The call of these words, over an input and a file `x` that can be made.
pub fn call(
    alloc: Global,
    words: &[&str],
    input: &[u8],
    fails: &Fails<'_>,
) -> Result<Left, NoMemory> {
    let words = words_of(alloc, words)?;
    let mut input = MemorySource::new(alloc, input, fails.input)?;
    let mut files = MemoryFiles::new(alloc, fails.files)?;
    files.reserve("x", ROOM)?;
    let mut out = MemorySink::new(alloc, ROOM, fails.out)?;
    let mut err = MemorySink::new(alloc, ROOM, fails.err)?;
    let status = run(alloc, &words, &mut input, &mut files, &mut out, &mut err);
    Ok(Left {
        status,
        files,
        out,
        err,
    })
}

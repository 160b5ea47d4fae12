//! The content of the input that is asked for.
ghost use Rattle.std.specs.Prelude.{◌≡◌, ◌≤◌, false, Ok, IfOk, IfErr, OnOk, vec_len};
ghost use Rattle.std.specs.Option.{option_map};
ghost use Rattle.std.specs.Io.KnownBytes.{IsAtEnd};
ghost use Rattle.bar_base.specs.Faults.{Rose};
ghost use Rattle.bar_base.specs.Files.{beside_left, left_of};
ghost use Rattle.bar_base.specs.Input.{limit_for};
ghost use Rattle.bar_base.specs.Limits.{most_bytes, most_bmp_bytes};
ghost use Rattle.zint_settings.specs.Settings.{from_input, origin_in};
ghost use Rattle.zint_cli.specs.Content.{HasEnded, IsContent, ReadFaulted, content_left, content_of, known, named_content, names_standard, raw_of};
ghost use Rattle.zint_cli.specs.inner.Stopped.{IsUntaken};
ghost use Rattle.bar_base.specs.Files.{SameFiles};

use bar_base::{FileSource, Files, MOST_BYTES, Source, TakeFault, read_all};
use std::alloc::Global;
use zint_answers::{Fault, Refusal, Unit};
use zint_settings::Origin;

/// More bytes are there than the limit that counts.
fn too_long(limit: usize) -> Fault
    ensures { result ≡ Fault.Refused (Refusal.TooLong limit Unit.Bytes) }
{
    Fault::Refused(Refusal::TooLong(limit as u64, Unit::Bytes))
}

/// The limit that counts for bytes that begin so.
fn limit_of(input: &[u8], picture_limit: usize) -> usize
    ensures { result ≡ limit_for most_bytes picture_limit input.now }
{
    if input.starts_with(b"BM") {
        picture_limit
    } else {
        MOST_BYTES
    }
}

/// The bytes of a text, of which there are not too many.
fn take_text(alloc: Global, text: &str, picture_limit: usize) -> Result<Vec<u8>, Fault>
    ensures taken { IfOk result (λ bytes. IsContent (known text.now) bytes.items) }
    ensures within { IfOk result (λ bytes. vec_len bytes ≤ limit_for most_bytes picture_limit bytes.items) }
    ensures refused { IfErr result (IsUntaken picture_limit (known text.now) ⊥) }
{
    let limit = limit_of(text.as_bytes(), picture_limit);
    if text.len() > limit {
        return Err(too_long(limit));
    }
    match Vec::from_slice(alloc, text.as_bytes()) {
        Ok(bytes) => Ok(bytes),
        Err(_) => Err(Fault::NoMemory),
    }
}

/// All that is left of a source, read to its end. Where it begins with `BM` it has at most `picture_limit` bytes, which are at least 2,
/// else at most 65,536.
#[tactic(auto, using(crate::proofs::ContentLemmas::reading))]
fn take_from<S: Source>(
    alloc: Global,
    source: &mut S,
    picture_limit: usize,
) -> Result<Vec<u8>, Fault>
    requires some { 2 ≤ picture_limit }
    requires few { picture_limit ≤ most_bmp_bytes }
    ensures taken { IfOk result (λ bytes. IsContent (content_left (S.left source.old)) bytes.items) }
    ensures within { IfOk result (λ bytes. vec_len bytes ≤ limit_for most_bytes picture_limit bytes.items) }
    ensures ended { OnOk result (IsAtEnd (S.left source.new)) }
    ensures refused { IfErr result
        (IsUntaken picture_limit (content_left (S.left source.old))
        (Rose (S.faults source.old) (S.faults source.new))) }
    ensures later { S.faults source.old ≤ S.faults source.new }
    ensures rest { S.rest source.new ≡ S.rest source.old }
{
    match read_all(alloc, source, MOST_BYTES, picture_limit) {
        Ok(bytes) => Ok(bytes),
        Err(TakeFault::NoMemory) => Err(Fault::NoMemory),
        Err(TakeFault::Failed) => Err(Fault::Unread),
        Err(TakeFault::TooLong(limit)) => Err(too_long(limit)),
    }
}

/// All that is left of the file that is being read, as `take_from` takes it.
fn take_open<F: Files>(alloc: Global, files: &mut F, picture_limit: usize) -> Result<Vec<u8>, Fault>
    requires some { 2 ≤ picture_limit }
    requires few { picture_limit ≤ most_bmp_bytes }
    ensures taken { IfOk result (λ bytes. IsContent (content_left (left_of (F.state files.old))) bytes.items) }
    ensures within { IfOk result (λ bytes. vec_len bytes ≤ limit_for most_bytes picture_limit bytes.items) }
    ensures ended { OnOk result (IsAtEnd (left_of (F.state files.new))) }
    ensures refused { IfErr result
        (IsUntaken picture_limit (content_left (left_of (F.state files.old)))
        (Rose (F.reading_faults files.old) (F.reading_faults files.new))) }
    ensures later { F.reading_faults files.old ≤ F.reading_faults files.new }
    ensures beside { option_map beside_left (F.state files.new) ≡ option_map beside_left (F.state files.old) }
    ensures writing_count { F.writing_faults files.new ≡ F.writing_faults files.old }
{
    let mut source = FileSource::new(files);
    take_from(alloc, &mut source, picture_limit)
}

/// The content of the file of this name, read to its end, as `take_from` takes it.
#[tactic(auto, using(crate::proofs::ContentLemmas::opening))]
fn take_file<F: Files>(
    alloc: Global,
    name: &str,
    files: &mut F,
    picture_limit: usize,
) -> Result<Vec<u8>, Fault>
    requires some { 2 ≤ picture_limit }
    requires few { picture_limit ≤ most_bmp_bytes }
    ensures taken { IfOk result (λ bytes. IsContent (named_content name.now (F.state files.old)) bytes.items) }
    ensures within { IfOk result (λ bytes. vec_len bytes ≤ limit_for most_bytes picture_limit bytes.items) }
    ensures ended { OnOk result (IsAtEnd (left_of (F.state files.new))) }
    ensures refused { IfErr result
        (IsUntaken picture_limit (named_content name.now (F.state files.old))
        (Rose (F.reading_faults files.old) (F.reading_faults files.new))) }
    ensures same_files { SameFiles (F.state files.old) (F.state files.new) }
    ensures writing_count { F.writing_faults files.new ≡ F.writing_faults files.old }
{
    if files.open_read(name).is_err() {
        return Err(Fault::Unread);
    }
    take_open(alloc, files, picture_limit)
}

/// The content of the input of this name, read to its end: what is left of standard input, whose name is `-`, or a file.
fn take_input<I: Source, F: Files>(
    alloc: Global,
    name: &str,
    picture_limit: usize,
    input: &mut I,
    files: &mut F,
) -> Result<Vec<u8>, Fault>
    requires some { 2 ≤ picture_limit }
    requires few { picture_limit ≤ most_bmp_bytes }
    ensures taken { IfOk result
        (λ bytes. IsContent (content_of (from_input name.now) (I.left input.old) (F.state files.old)) bytes.items) }
    ensures within { IfOk result (λ bytes. vec_len bytes ≤ limit_for most_bytes picture_limit bytes.items) }
    ensures refused { IfErr result
        (IsUntaken picture_limit (content_of (from_input name.now) (I.left input.old) (F.state files.old))
        (ReadFaulted (from_input name.now) (Rose (I.faults input.old) (I.faults input.new))
        (Rose (F.reading_faults files.old) (F.reading_faults files.new)))) }
    ensures ended { OnOk result
        (HasEnded (from_input name.now) (IsAtEnd (I.left input.new)) (IsAtEnd (left_of (F.state files.new)))) }
    ensures input_kept { names_standard (from_input name.now) ≡ false → input.new ≡ input.old }
    ensures same_files { SameFiles (F.state files.old) (F.state files.new) }
    ensures writing_count { F.writing_faults files.new ≡ F.writing_faults files.old }
{
    if name == "-" {
        take_from(alloc, input, picture_limit)
    } else {
        take_file(alloc, name, files, picture_limit)
    }
}

/// The content that is drawn or read: the text, what is left of standard input, whose name is `-`, or a file. Where it begins with `BM`
/// it has at most `picture_limit` bytes, which are at least 2, else at most 65,536. An input is read to its end; a text leaves it as it is.
pub fn take_content<I: Source, F: Files>(
    alloc: Global,
    origin: Origin<'_>,
    picture_limit: usize,
    input: &mut I,
    files: &mut F,
) -> Result<Vec<u8>, Fault>
    requires some { 2 ≤ picture_limit }
    requires few { picture_limit ≤ most_bmp_bytes }
    ensures taken { IfOk result (λ bytes.
        raw_of picture_limit (content_of (origin_in origin.entry) (I.left input.old) (F.state files.old)) (Ok bytes.items)) }
    ensures refused { IfErr result
        (IsUntaken picture_limit (content_of (origin_in origin.entry) (I.left input.old) (F.state files.old))
        (ReadFaulted (origin_in origin.entry) (Rose (I.faults input.old) (I.faults input.new))
        (Rose (F.reading_faults files.old) (F.reading_faults files.new)))) }
    ensures ended { OnOk result
        (HasEnded (origin_in origin.entry) (IsAtEnd (I.left input.new)) (IsAtEnd (left_of (F.state files.new)))) }
    ensures input_kept { names_standard (origin_in origin.entry) ≡ false → input.new ≡ input.old }
    ensures same_files { SameFiles (F.state files.old) (F.state files.new) }
    ensures writing_count { F.writing_faults files.new ≡ F.writing_faults files.old }
{
    match origin {
        Origin::Text(text) => take_text(alloc, text, picture_limit),
        Origin::Input(name) => take_input(alloc, name, picture_limit, input, files),
    }
}

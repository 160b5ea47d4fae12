//! From the bytes of an image to the picture that they show: a text of a grid, or a BMP.
ghost use Rattle.std.specs.Prelude.{◌≡◌, ◌≤◌, IfOk, length};
ghost use Rattle.bar_base.specs.Paint.{IsPaint};
ghost use Rattle.bar_base.specs.Picture.{row_count};
ghost use Rattle.symbol_reader.specs.Sight.{sight_of};
ghost use Rattle.zint_answers.specs.Steps.{MayAnswer};
ghost use Rattle.zint_read.specs.Images.{bmp_fault, bmp_picture, bmp_pixels, is_bmp, parse_fault, text_picture, text_sight};

use bar_base::{Grid, Paint};
use bmp_io::{BmpFault, read_bmp, read_pixels};
use std::alloc::Global;
use symbol_reader::{TextFault, Unknown, parse_grid, parse_unknown};
use zint_answers::{Fault, ImageFault, Refusal};

/// Whether bytes are read as a BMP: they begin with `BM`.
pub(crate) fn is_bmp(bytes: &[u8]) -> bool
    ensures { result ≡ is_bmp bytes.now }
{
    bytes.starts_with(b"BM")
}

/// The picture that the text of a grid shows.
#[tactic(auto, using(crate::proofs::Refusals::text_refused))]
pub(crate) fn text_picture(alloc: Global, bytes: &[u8]) -> Result<Grid, Fault>
    requires { length bytes.now ≤ 65536 }
    ensures { MayAnswer (λ picture. picture) result (text_picture bytes.now) }
{
    match parse_grid(alloc, bytes) {
        Ok(grid) => Ok(grid),
        Err(fault) => Err(parse_fault(fault)),
    }
}

/// What the text of a grid shows in which `?` stands for an unknown module.
#[tactic(auto, using(crate::proofs::Refusals::sight_text_refused, crate::proofs::Unknowns::sight_shown))]
pub(crate) fn text_sight(alloc: Global, bytes: &[u8]) -> Result<Unknown, Fault>
    requires { length bytes.now ≤ 65536 }
    ensures { MayAnswer (λ unknown. sight_of unknown) result (text_sight bytes.now) }
{
    match parse_unknown(alloc, bytes) {
        Ok(unknown) => Ok(unknown),
        Err(fault) => Err(parse_fault(fault)),
    }
}

/// The picture that a BMP shows which was painted so.
#[tactic(auto, using(crate::proofs::Refusals::bmp_refused))]
pub(crate) fn bmp_picture(alloc: Global, bytes: &[u8], paint: Paint) -> Result<Grid, Fault>
    requires { IsPaint paint }
    ensures { MayAnswer (λ picture. picture) result (bmp_picture paint bytes.now) }
{
    match read_bmp(alloc, bytes, paint) {
        Ok(grid) => Ok(grid),
        Err(fault) => Err(bmp_fault(fault)),
    }
}

/// The picture of all pixels of a BMP.
#[tactic(auto, using(crate::proofs::Refusals::bmp_refused))]
pub(crate) fn bmp_pixels(alloc: Global, bytes: &[u8]) -> Result<Grid, Fault>
    ensures shown { MayAnswer (λ picture. picture) result (bmp_pixels bytes.now) }
    ensures small { IfOk result (λ picture. (picture.width ≤ 1024) × (row_count picture ≤ 1024)) }
{
    match read_pixels(alloc, bytes) {
        Ok(grid) => Ok(grid),
        Err(fault) => Err(bmp_fault(fault)),
    }
}

/// What a fault of a BMP is here.
fn bmp_fault(fault: BmpFault) -> Fault
    ensures { result ≡ bmp_fault fault }
{
    match fault {
        BmpFault::NoMemory => Fault::NoMemory,
        BmpFault::NotBmp => bad_image(ImageFault::Grid(0)),
        BmpFault::Unsupported(field) => bad_image(ImageFault::Field(field)),
        BmpFault::Truncated(count) => bad_image(ImageFault::Truncated(count as u64)),
        BmpFault::BadSize(width, height) => bad_image(ImageFault::Size(width, height)),
    }
}

/// What a fault of the text of a grid is here.
fn parse_fault(fault: TextFault) -> Fault
    ensures { result ≡ parse_fault fault }
{
    match fault {
        TextFault::NoMemory => Fault::NoMemory,
        TextFault::BadText(place) => bad_image(ImageFault::Grid(place as u64)),
        TextFault::BadSide(width, rows) => bad_image(ImageFault::Side(width, rows)),
    }
}

/// The bytes show no picture of a symbol.
pub(crate) fn bad_image(fault: ImageFault) -> Fault
    ensures { result ≡ Fault.Refused (Refusal.BadImage fault) }
{
    Fault::Refused(Refusal::BadImage(fault))
}

//! What is wrong with the bytes of a picture, or with its sides.
ghost use Rattle.std.specs.Prelude.{◌≡◌, ◌≤◌, ◌++◌, codes, length, decimal};
ghost use Rattle.zint_answers.specs.ImageFaults.{field_text, image_detail_of, image_status, sides_text};

use crate::detail::{Detail, put, put_digits};
use arrayvec::ArrayVec;
use bmp_io::BmpField;

/// What is wrong with the bytes of a picture, or with its sides.
#[derive(Debug, Clone, Copy, PartialEq, Eq)]
pub enum ImageFault {
    /// The bytes leave the text of a grid at this place, in bytes from 0.
    Grid(u64),
    /// No symbol has so many columns and rows of modules.
    Side(u32, u32),
    /// The BMP ends too early; it has so many bytes.
    Truncated(u64),
    /// This field of the BMP has a value that is not read.
    Field(BmpField),
    /// The width and height of the BMP, in pixels, are not those of a symbol with its white space.
    Size(u32, u32),
}

/// The name of a field.
fn field_word(field: BmpField) -> &'static [u8]
    ensures word { result.now ≡ field_text field }
    ensures short { length result.now ≤ 16 }
{
    match field {
        BmpField::Header => b"header",
        BmpField::Planes => b"planes",
        BmpField::Bits => b"bits",
        BmpField::Compression => b"compression",
        BmpField::Width => b"width",
        BmpField::Height => b"height",
        BmpField::Palette => b"palette",
    }
}

/// A number behind a word, as in `bit 12`.
pub(crate) fn number_detail(word: &[u8], number: u64) -> Detail
    requires { length word.now ≤ 16 }
    ensures { result.items ≡ word.now ++ decimal number }
{
    let mut detail: Detail = ArrayVec::new();
    put(&mut detail, word);
    put_digits(&mut detail, number);
    detail
}

/// A width and a height behind a word, as in `side 20x20`.
fn sides_detail(word: &[u8], width: u32, height: u32) -> Detail
    requires { length word.now ≤ 16 }
    ensures { result.items ≡ word.now ++ sides_text width height }
{
    let mut detail: Detail = ArrayVec::new();
    put(&mut detail, word);
    put_digits(&mut detail, u64::from(width));
    put(&mut detail, b"x");
    put_digits(&mut detail, u64::from(height));
    detail
}

/// The detail of a field that is not read, as in `field planes`.
fn field_detail(field: BmpField) -> Detail
    ensures { result.items ≡ codes "field " ++ field_text field }
{
    let mut detail: Detail = ArrayVec::new();
    put(&mut detail, b"field ");
    put(&mut detail, field_word(field));
    detail
}

impl ImageFault {
    /// The exit status.
    pub fn status(self) -> u8
        ensures { result ≡ image_status self }
    {
        13
    }

    /// What it is about.
    pub(crate) fn detail(self) -> Detail
        ensures { result.items ≡ image_detail_of self }
    {
        match self {
            ImageFault::Grid(place) => number_detail(b"grid at ", place),
            ImageFault::Side(width, rows) => sides_detail(b"side ", width, rows),
            ImageFault::Truncated(count) => number_detail(b"truncated at ", count),
            ImageFault::Field(field) => field_detail(field),
            ImageFault::Size(width, height) => sides_detail(b"size ", width, height),
        }
    }
}

//! A symbol that stands anywhere in a BMP, as large and as turned as may be.
ghost use Rattle.std.specs.Prelude.{◌≡◌, ◌≤◌, IfOk, if◌then◌else◌};
ghost use Rattle.bar_base.specs.Picture.{row_count};
ghost use Rattle.image_locate.specs.Finding.{IsFirstStand};
ghost use Rattle.zint_answers.specs.Steps.{MayAnswer};
ghost use Rattle.zint_read.specs.Seen.{sight_in};
ghost use Rattle.zint_read.specs.frames.Anywhere.{cuts, locates, sees_anywhere};

use crate::images::{bad_image, bmp_pixels};
use crate::seen::Seen;
use aztec_layout::Size;
use bar_base::Grid;
use image_locate::{Stand, cut, locate};
use std::alloc::Global;
use symbol_reader::bad_mode;
use zint_answers::{Fault, ImageFault, Refusal, SymbolFault};

/// What is seen in such an image: the cut of the first stand that is read, all of whose modules are known.
#[tactic(auto, using(zint_answers::proofs::Steps::stepping), unfolding(crate::specs::frames::Anywhere::sees_anywhere))]
pub(crate) fn see(alloc: Global, bytes: &[u8]) -> Result<Seen, Fault>
    ensures { MayAnswer sight_in result (sees_anywhere bytes.now) }
{
    let pixels = bmp_pixels(alloc, bytes)?;
    let stand = stand_in(&pixels)?;
    let cut = cut_at(alloc, &pixels, stand)?;
    Ok(Seen::Known(cut))
}

/// The first stand that shows a finder.
#[tactic(auto, unfolding(crate::specs::frames::Anywhere::locates))]
fn stand_in(pixels: &Grid) -> Result<Stand, Fault>
    requires wide { pixels.now.width ≤ 1024 }
    requires high { row_count pixels.now ≤ 1024 }
    ensures located { MayAnswer (λ stand. stand) result (locates pixels.now) }
    ensures first { IfOk result (IsFirstStand pixels.now) }
{
    match locate(pixels) {
        Some(stand) => Ok(stand),
        None => Err(Fault::Refused(Refusal::BadSymbol(SymbolFault::NoFinder(0, 0)))),
    }
}

/// The cut of a stand that is read: that of the first size, by layers, whose mode message is not bad.
fn cut_at(alloc: Global, pixels: &Grid, stand: Stand) -> Result<Grid, Fault>
    requires { IsFirstStand pixels.now stand }
    ensures { MayAnswer (λ cut. cut) result (cuts pixels.now stand) }
{
    let mut bad = None;
    for layers in 1..most_layers(stand.full) + 1 {
        let size = size_of(stand, layers);
        match cut(alloc, pixels, stand, size)? {
            None => {}
            Some(grid) => match bad_mode(alloc, &grid)? {
                None => return Ok(grid),
                Some(words) => bad = Some(words),
            },
        }
    }
    match bad {
        None => Err(bad_image(ImageFault::Size(pixels.width(), pixels.rows()))),
        Some(words) => Err(Fault::Refused(Refusal::BadSymbol(SymbolFault::BadMode(words)))),
    }
}

/// The most layers of a kind.
fn most_layers(full: bool) -> u32
    ensures { result ≡ (if full then 32 else 4) }
{
    if full { 32 } else { 4 }
}

/// The size of a stand's kind with so many layers.
fn size_of(stand: Stand, layers: u32) -> Size
    ensures kind { result.full ≡ stand.full }
    ensures layers { result.layers ≡ layers }
{
    Size {
        full: stand.full,
        layers,
    }
}

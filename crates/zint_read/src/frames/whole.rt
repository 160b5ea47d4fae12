//! A symbol that is the whole image: the text of a grid, or a BMP at a scale with white space.
ghost use Rattle.bar_base.specs.Paint.{IsPaint};
ghost use Rattle.zint_answers.specs.Steps.{MayAnswer};
ghost use Rattle.zint_read.specs.Images.{IsWithin};
ghost use Rattle.zint_read.specs.Seen.{sight_in};
ghost use Rattle.zint_read.specs.frames.Whole.{image_picture, sees_whole};

use crate::images::{bmp_picture, is_bmp, text_picture};
use crate::seen::Seen;
use bar_base::{Grid, Paint};
use std::alloc::Global;
use zint_answers::Fault;

/// What is seen in such an image: its picture, all of whose modules are known.
#[tactic(auto, using(zint_answers::proofs::Steps::stepping), unfolding(crate::specs::frames::Whole::sees_whole))]
pub(crate) fn see(alloc: Global, paint: Paint, bytes: &[u8]) -> Result<Seen, Fault>
    requires paint { IsPaint paint }
    requires short { IsWithin bytes.now }
    ensures { MayAnswer sight_in result (sees_whole paint bytes.now) }
{
    let picture = image_picture(alloc, paint, bytes)?;
    Ok(Seen::Known(picture))
}

/// The picture that bytes show: that of a BMP where they begin with `BM`, else that of the text of a grid.
#[tactic(auto, unfolding(crate::specs::frames::Whole::image_picture))]
fn image_picture(alloc: Global, paint: Paint, bytes: &[u8]) -> Result<Grid, Fault>
    requires paint { IsPaint paint }
    requires short { IsWithin bytes.now }
    ensures { MayAnswer (λ picture. picture) result (image_picture paint bytes.now) }
{
    if is_bmp(bytes) {
        bmp_picture(alloc, bytes, paint)
    } else {
        text_picture(alloc, bytes)
    }
}

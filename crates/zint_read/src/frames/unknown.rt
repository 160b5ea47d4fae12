//! A symbol that is the whole image, of which some modules may be unknown where it is a text.
ghost use Rattle.std.specs.Prelude.{◌≡◌, IfOk};
ghost use Rattle.bar_base.specs.Paint.{IsPaint};
ghost use Rattle.symbol_reader.specs.Sight.{known, sight_of};
ghost use Rattle.zint_answers.specs.Steps.{MayAnswer};
ghost use Rattle.zint_read.specs.Images.{IsWithin};
ghost use Rattle.zint_read.specs.Seen.{sight_in};
ghost use Rattle.zint_read.specs.frames.Unknown.{sees_bmp, sees_unknown};

use crate::images::{bmp_picture, is_bmp, text_sight};
use crate::seen::Seen;
use bar_base::Paint;
use std::alloc::Global;
use zint_answers::Fault;

/// What is seen in such an image: in a BMP where it begins with `BM`, else in the text of a grid with unknown modules.
#[tactic(auto, unfolding(crate::specs::frames::Unknown::sees_unknown))]
pub(crate) fn see(alloc: Global, paint: Paint, bytes: &[u8]) -> Result<Seen, Fault>
    requires paint { IsPaint paint }
    requires short { IsWithin bytes.now }
    ensures { MayAnswer sight_in result (sees_unknown paint bytes.now) }
{
    if is_bmp(bytes) {
        see_bmp(alloc, paint, bytes)
    } else {
        let unknown = text_sight(alloc, bytes)?;
        Ok(Seen::Marked(unknown))
    }
}

/// What is seen in a BMP: its picture, all of whose modules are known.
#[tactic(auto, using(zint_answers::proofs::Steps::stepping), unfolding(crate::specs::frames::Unknown::sees_bmp))]
fn see_bmp(alloc: Global, paint: Paint, bytes: &[u8]) -> Result<Seen, Fault>
    requires { IsPaint paint }
    ensures { MayAnswer sight_in result (sees_bmp paint bytes.now) }
{
    let picture = bmp_picture(alloc, bytes, paint)?;
    Ok(Seen::Known(picture))
}

//! Frames, a file each, and the two calls that choose among them.
pub(crate) mod anywhere;
pub(crate) mod unknown;
pub(crate) mod whole;

ghost use Rattle.std.specs.Prelude.{◌≡◌};
ghost use Rattle.zint_settings.specs.Looks.{IsFrame};
ghost use Rattle.zint_answers.specs.Steps.{MayAnswer};
ghost use Rattle.zint_read.specs.Images.{IsWithin};
ghost use Rattle.zint_read.specs.Seen.{sight_in};
ghost use Rattle.zint_read.specs.frames.{sees, tells_lost};

use crate::seen::Seen;
use std::alloc::Global;
use zint_answers::Fault;
use zint_settings::Frame;

/// What is seen of a symbol in an image.
pub(crate) fn seen_in(alloc: Global, frame: Frame, bytes: &[u8]) -> Result<Seen, Fault>
    requires frame { IsFrame frame }
    requires short { IsWithin bytes.now }
    ensures { MayAnswer sight_in result (sees frame bytes.now) }
{
    match frame {
        Frame::Whole(paint) => whole::see(alloc, paint, bytes),
        Frame::Unknown(paint) => unknown::see(alloc, paint, bytes),
        Frame::Anywhere => anywhere::see(alloc, bytes),
    }
}

/// Whether a report tells how many codewords were lost.
pub(crate) fn tells_lost(frame: Frame) -> bool
    ensures { result ≡ tells_lost frame }
{
    match frame {
        Frame::Unknown(_) => true,
        Frame::Whole(_) => false,
        Frame::Anywhere => false,
    }
}

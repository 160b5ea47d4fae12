//! Which pixels of a BMP are looked at.
ghost use Rattle.std.specs.Prelude.{◌≡◌};
ghost use Rattle.bar_base.specs.Paint.{IsPaint};
ghost use Rattle.bmp_io.specs.Samplings.{IsSampling, each_pixel, sampling_of};

use bar_base::{Paint, unit};

/// Which pixels of a BMP are looked at: one for each module of a picture that was painted with whole modules.
#[derive(Debug, Clone, Copy, PartialEq, Eq)]
pub(crate) struct Sampling {
    /// The pixels of a module's side.
    pub(crate) unit: u32,
    /// The column and the row, within its module, of the pixel that is looked at.
    pub(crate) inset: u32,
    /// The light modules on the left and on the right.
    pub(crate) white: u32,
    /// The light modules above and below.
    pub(crate) vwhite: u32,
    /// The most modules of a side, beside the white space.
    pub(crate) most: u32,
}

/// The pixel in the middle of each module of a symbol that was painted so.
pub(crate) fn sampling_of(paint: Paint) -> Sampling
    requires { IsPaint paint }
    ensures sampling { result ≡ sampling_of paint }
    ensures bounded { IsSampling result }
{
    Sampling {
        unit: unit(paint),
        inset: paint.scale,
        white: paint.white,
        vwhite: paint.vwhite,
        most: 151,
    }
}

/// Every pixel of a picture of at most 1,024 by 1,024.
pub(crate) fn each_pixel() -> Sampling
    ensures sampling { result ≡ each_pixel }
    ensures bounded { IsSampling result }
{
    Sampling {
        unit: 1,
        inset: 0,
        white: 0,
        vwhite: 0,
        most: 1024,
    }
}

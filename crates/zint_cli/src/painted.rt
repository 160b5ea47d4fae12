//! Pictures that are to be written: a grid, and how it is painted.
ghost use Rattle.std.specs.Prelude.{◌≤◌, ◌<◌, vec_len};
ghost use Rattle.bar_base.specs.Paint.{IsPaint};
ghost use Rattle.bmp_io.specs.Bmp.{file_size, stride_of};

use bar_base::{Grid, Paint};

/// A grid, and how it is painted.
#[derive(Debug, Drop)]
pub struct Painted {
    pub grid: Grid,
    pub paint: Paint,
    pub ghost in_range: { IsPaint paint },
}

/// A grid, how it is painted as a BMP picture, and room for rows of its pixels.
#[derive(Debug, Drop)]
pub struct Bitmap {
    pub grid: Grid,
    pub paint: Paint,
    pub room: Vec<u8>,
    pub ghost in_range: { IsPaint paint },
    pub ghost roomy: { stride_of paint grid ≤ vec_len room },
    pub ghost small: { file_size paint grid < 2147483648 },
}

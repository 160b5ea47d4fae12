//! Writing the BMP of a grid.
ghost use Rattle.std.specs.Prelude.{◌≡◌, ◌<◌, ◌≤◌, OnOk, OnErr, length, replicate, []};
ghost use Rattle.std.specs.Io.KnownBytes.{Appends};
ghost use Rattle.bar_base.specs.Faults.{HasCause};
ghost use Rattle.bar_base.specs.Outside.{AppendsPrefix};
ghost use Rattle.bar_base.specs.Paint.{IsPaint, modules_high, tall_row, tall_rows};
ghost use Rattle.bar_base.specs.Picture.{row_count};
ghost use Rattle.bmp_io.specs.Bmp.{bmp_bytes, file_size, rows_from_bottom, stride_of};
ghost use Rattle.bmp_io.specs.Pixels.{stacked};

use crate::copies::write_times;
use crate::header_bytes::header_bytes;
use crate::pixels::make_row;
use bar_base::{Failed, Grid, Paint, Sink, painted_height, painted_width, unit, write_all};

/// The bytes of one row of pixels of the grid's BMP.
pub fn stride(grid: &Grid, paint: Paint) -> usize
    requires { IsPaint paint }
    ensures stride { result ≡ stride_of paint grid.now }
    ensures positive { 0 < result }
    ensures bounded { result ≤ 82920 }

    // A symbol of at most 200 modules from top to bottom can be written.
    ensures can_be_written { modules_high grid.now ≤ 200 → file_size paint grid.now < 2147483648 }

    // The widest drawing is a Code 128 symbol of 8,483 modules, whose row is at most 200 modules high.
    ensures largest { grid.now.width ≤ 8483 → modules_high grid.now ≤ 200 → file_size paint grid.now < 700000000 }
{
    (painted_width(grid, paint) as usize + 31) / 32 * 4
}

/// Writes the BMP of a grid: one bit a pixel, a dark one black, rows from the bottom. `row` has room for one row of
/// pixels (see `stride`), which is all the memory that it works in; where it has room for more, several equal rows are
/// written in one piece. The file has fewer than 2,147,483,648 bytes. `Failed` has written a prefix of the file, and is
/// answered only where a fault was counted.
pub fn write_bmp<S: Sink>(
    sink: &mut S,
    grid: &Grid,
    paint: Paint,
    row: &mut [u8],
) -> Result<(), Failed>
    requires paint { IsPaint paint }
    requires room { stride_of paint grid.now ≤ length row.old }
    requires small { file_size paint grid.now < 2147483648 }
    ensures whole { OnOk result (Appends (S.held sink.old) (S.held sink.new) (bmp_bytes paint grid.now)) }
    ensures part { OnErr result (AppendsPrefix (S.held sink.old) (S.held sink.new) (bmp_bytes paint grid.now)) }
    ensures rest { S.rest sink.new ≡ S.rest sink.old }
    ensures cause { HasCause (S.faults sink.old) (S.faults sink.new) result }
{
    let width = painted_width(grid, paint);
    let height = painted_height(grid, paint);
    let stride = stride(grid, paint);
    let header = header_bytes(width, height, stride as u32 * height);
    write_all(sink, header.as_slice())?;
    write_pixels(sink, grid, paint, row, stride)?;
    Ok(())
}

/// Writes the rows of pixels of the whole painted grid, from the bottom, each made in `rows`.
fn write_pixels<S: Sink>(
    sink: &mut S,
    grid: &Grid,
    paint: Paint,
    rows: &mut [u8],
    stride: usize,
) -> Result<(), Failed>
    requires paint { IsPaint paint }
    requires some { 0 < stride }
    requires small { stride ≤ 100000 }
    requires fits { stride ≤ length rows.old }
    requires stride { stride ≡ stride_of paint grid.now }
    ensures whole { OnOk result (Appends (S.held sink.old) (S.held sink.new) (rows_from_bottom paint grid.now)) }
    ensures part { OnErr result (AppendsPrefix (S.held sink.old) (S.held sink.new) (rows_from_bottom paint grid.now)) }
    ensures rest { S.rest sink.new ≡ S.rest sink.old }
    ensures cause { HasCause (S.faults sink.old) (S.faults sink.new) result }
{
    write_light(sink, paint, rows, stride)?;
    write_rows(sink, grid, paint, rows, stride)?;
    write_light(sink, paint, rows, stride)?;
    Ok(())
}

/// Writes the rows of pixels of the white space above or below the symbol.
fn write_light<S: Sink>(
    sink: &mut S,
    paint: Paint,
    rows: &mut [u8],
    stride: usize,
) -> Result<(), Failed>
    requires paint { IsPaint paint }
    requires some { 0 < stride }
    requires fits { stride ≤ length rows.old }
    ensures whole { OnOk result (Appends (S.held sink.old) (S.held sink.new)
        (stacked paint stride (replicate paint.vwhite []))) }
    ensures part { OnErr result (AppendsPrefix (S.held sink.old) (S.held sink.new)
        (stacked paint stride (replicate paint.vwhite []))) }
    ensures rest { S.rest sink.new ≡ S.rest sink.old }
    ensures cause { HasCause (S.faults sink.old) (S.faults sink.new) result }
{
    rows[..stride].fill(0);
    write_times(sink, rows, stride, paint.vwhite * unit(paint))?;
    Ok(())
}

/// Writes the rows of pixels that show the symbol, from its bottom.
fn write_rows<S: Sink>(
    sink: &mut S,
    grid: &Grid,
    paint: Paint,
    rows: &mut [u8],
    stride: usize,
) -> Result<(), Failed>
    requires paint { IsPaint paint }
    requires some { 0 < stride }
    requires small { stride ≤ 100000 }
    requires fits { stride ≤ length rows.old }
    ensures whole { OnOk result (Appends (S.held sink.old) (S.held sink.new)
        (stacked paint stride (tall_rows grid.now (row_count grid.now)))) }
    ensures part { OnErr result (AppendsPrefix (S.held sink.old) (S.held sink.new)
        (stacked paint stride (tall_rows grid.now (row_count grid.now)))) }
    ensures rest { S.rest sink.new ≡ S.rest sink.old }
    ensures cause { HasCause (S.faults sink.old) (S.faults sink.new) result }
{
    let count = grid.rows();
    for below in 0..count {
        write_row(sink, grid, count - 1 - below, paint, rows, stride)?;
    }
    Ok(())
}

/// Writes the rows of pixels that show row `y` of the grid, which are equal: made once, written as often as the row is
/// high.
fn write_row<S: Sink>(
    sink: &mut S,
    grid: &Grid,
    y: u32,
    paint: Paint,
    rows: &mut [u8],
    stride: usize,
) -> Result<(), Failed>
    requires row { y < row_count grid.now }
    requires paint { IsPaint paint }
    requires some { 0 < stride }
    requires small { stride ≤ 100000 }
    requires fits { stride ≤ length rows.old }
    ensures whole { OnOk result (Appends (S.held sink.old) (S.held sink.new)
        (stacked paint stride (tall_row grid.now y))) }
    ensures part { OnErr result (AppendsPrefix (S.held sink.old) (S.held sink.new)
        (stacked paint stride (tall_row grid.now y))) }
    ensures rest { S.rest sink.new ≡ S.rest sink.old }
    ensures cause { HasCause (S.faults sink.old) (S.faults sink.new) result }
{
    make_row(grid, y, paint, &mut rows[..stride]);
    write_times(sink, rows, stride, grid.height(y) * unit(paint))?;
    Ok(())
}

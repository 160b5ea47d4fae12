//! What is written: lines, a grid as text, or a picture.
ghost use Rattle.std.specs.Prelude.{◌≡◌, ◌≤◌, ◌++◌, IfOk, OnOk, OnErr};
ghost use Rattle.std.specs.Io.KnownBytes.{Appends};
ghost use Rattle.bar_base.specs.Faults.{HasCause};
ghost use Rattle.bar_base.specs.GridText.{grid_text};
ghost use Rattle.bar_base.specs.Outside.{AppendsPrefix};
ghost use Rattle.bar_base.specs.Paint.{IsPaint, modules_high};
ghost use Rattle.bmp_io.specs.Bmp.{bmp_bytes};
ghost use Rattle.zint_draw.specs.Height.{IsLowSymbol};
ghost use Rattle.zint_draw.specs.symbologies.{grid_of, head_of};
ghost use Rattle.zint_cli.specs.Call.{text_in};
ghost use Rattle.zint_cli.specs.inner.OutputText.{output_text};

use crate::painted::{Bitmap, Painted};
use bar_base::{Failed, Grid, NoMemory, Paint, Sink, write_all};
use bmp_io::{stride, write_bmp};
use std::alloc::Global;
use vector_out::{write_eps, write_grid, write_svg};
use zint_draw::Symbol;
use zint_settings::{DrawingSettings, Form};

/// The room for rows of pixels that is lent at least: many rows of a small picture are written in one piece.
const ROOM: usize = 65_536;

/// What is written.
#[derive(Debug, Drop)]
pub enum Output {
    /// Lines alone.
    Lines(Vec<u8>),
    /// The lines before a grid, and the text of the grid.
    Report(Vec<u8>, Grid),
    Svg(Painted),
    Eps(Painted),
    Bmp(Bitmap),
}

/// A symbol in the form that is asked for.
pub fn shown_in(
    alloc: Global,
    settings: &DrawingSettings<'_>,
    symbol: Symbol,
) -> Result<Output, NoMemory>
    requires { IsLowSymbol symbol }
    ensures { IfOk result (λ output. output_text output ≡ text_in settings.now.options symbol) }
{
    let paint = settings.options.paint;
    let height = settings.options.height;
    match settings.options.form {
        Form::Grid => Ok(Output::Report(Vec::new(alloc), symbol.into_grid(height))),
        Form::Report => reported(alloc, symbol, height),
        Form::Svg => {
            let grid = symbol.into_grid(height);
            Ok(Output::Svg(Painted { grid, paint }))
        }
        Form::Eps => {
            let grid = symbol.into_grid(height);
            Ok(Output::Eps(Painted { grid, paint }))
        }
        Form::Bmp => bitmap_of(alloc, symbol.into_grid(height), paint),
    }
}

/// The lines of a symbol's report, and its grid.
fn reported(alloc: Global, symbol: Symbol, height: u32) -> Result<Output, NoMemory>
    requires positive { 1 ≤ height }
    requires bounded { height ≤ 200 }
    ensures { IfOk result (λ output. output_text output ≡ head_of symbol ++ grid_text (grid_of height symbol)) }
{
    let head = symbol.head(alloc)?;
    Ok(Output::Report(head, symbol.into_grid(height)))
}

/// A grid as a BMP picture.
fn bitmap_of(alloc: Global, grid: Grid, paint: Paint) -> Result<Output, NoMemory>
    requires paint { IsPaint paint }
    requires low { modules_high grid ≤ 200 }
    ensures { IfOk result (λ output. output_text output ≡ bmp_bytes paint grid) }
{
    let row = stride(&grid, paint);
    let room = vec![in alloc; 0; row.max(ROOM)]?;
    Ok(Output::Bmp(Bitmap { grid, paint, room }))
}

/// Writes the lines before a grid, and the lines of the grid.
#[tactic(auto, using(bar_base::proofs::Appended::appended))]
fn write_report<S: Sink>(sink: &mut S, head: &[u8], grid: &Grid) -> Result<(), Failed>
    ensures whole { OnOk result (Appends (S.held sink.old) (S.held sink.new) (head.now ++ grid_text grid.now)) }
    ensures part { OnErr result
        (AppendsPrefix (S.held sink.old) (S.held sink.new) (head.now ++ grid_text grid.now)) }
    ensures rest { S.rest sink.new ≡ S.rest sink.old }
    ensures cause { HasCause (S.faults sink.old) (S.faults sink.new) result }
{
    write_all(sink, head)?;
    write_grid(sink, grid)?;
    Ok(())
}

/// Writes a BMP picture, in pieces as long as its room.
fn write_bitmap<S: Sink>(sink: &mut S, bitmap: Bitmap) -> Result<(), Failed>
    ensures whole { OnOk result
        (Appends (S.held sink.old) (S.held sink.new) (bmp_bytes bitmap.paint bitmap.grid)) }
    ensures part { OnErr result
        (AppendsPrefix (S.held sink.old) (S.held sink.new) (bmp_bytes bitmap.paint bitmap.grid)) }
    ensures rest { S.rest sink.new ≡ S.rest sink.old }
    ensures cause { HasCause (S.faults sink.old) (S.faults sink.new) result }
{
    let mut room = bitmap.room;
    write_bmp(sink, &bitmap.grid, bitmap.paint, &mut room)
}

/// Writes an output. It takes no memory; `Failed` has written a prefix, and is answered only where a fault was counted.
pub fn write_output<S: Sink>(sink: &mut S, output: Output) -> Result<(), Failed>
    ensures whole { OnOk result (Appends (S.held sink.old) (S.held sink.new) (output_text output)) }
    ensures part { OnErr result (AppendsPrefix (S.held sink.old) (S.held sink.new) (output_text output)) }
    ensures rest { S.rest sink.new ≡ S.rest sink.old }
    ensures cause { HasCause (S.faults sink.old) (S.faults sink.new) result }
{
    match output {
        Output::Lines(lines) => write_all(sink, lines.as_slice()),
        Output::Report(head, grid) => write_report(sink, head.as_slice(), &grid),
        Output::Svg(painted) => write_svg(sink, &painted.grid, painted.paint),
        Output::Eps(painted) => write_eps(sink, &painted.grid, painted.paint),
        Output::Bmp(bitmap) => write_bitmap(sink, bitmap),
    }
}

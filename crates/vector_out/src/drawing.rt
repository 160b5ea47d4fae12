//! A grid written as SVG and EPS, in pieces of some kilobytes.
ghost use Rattle.std.specs.Prelude.{◌≡◌, ◌<◌, ◌≤◌, ◌*◌, ◌++◌, OnOk, OnErr};
ghost use Rattle.std.specs.Io.KnownBytes.{Appends};
ghost use Rattle.bar_base.specs.Buffered.{WritesFront};
ghost use Rattle.bar_base.specs.Faults.{HasCause};
ghost use Rattle.bar_base.specs.Outside.{AppendsPrefix};
ghost use Rattle.bar_base.specs.Paint.{IsPaint};
ghost use Rattle.bar_base.specs.Picture.{row_count};
ghost use Rattle.vector_out.specs.Runs.{modules_above};
ghost use Rattle.vector_out.specs.Drawing.{run_line, row_lines, rectangle_lines, svg_text, eps_text, IsFormOf};

use crate::form::{Form, eps_head, rectangle_line, svg_head};
use crate::runs::{begins_run, rectangle_of};
use crate::texts::{EPS_END, SVG_END};
use bar_base::{Failed, Grid, Paint, Sink, WriteBuffer, painted_height, painted_width};

/// Puts the line of the dark run that begins in column `x` of row `y`, if one does, behind the bytes that wait; `above` modules are
/// above the row.
#[tactic(auto, using(bar_base::proofs::Buffered::buffered))]
fn put_run<S: Sink>(
    sink: &mut S,
    grid: &Grid,
    paint: Paint,
    form: Form,
    y: u32,
    above: u32,
    x: u32,
    waiting: &mut WriteBuffer,
) -> Result<(), Failed>
    requires column { x < grid.now.width }
    requires narrow { x < 16384 }
    requires row { y < row_count grid.now }
    requires paint { IsPaint paint }
    requires form { IsFormOf form paint grid.now }
    requires above { above ≡ modules_above grid.now y }
    requires low { above ≤ 200 * 16384 }
    ensures whole { OnOk result
        (WritesFront (S.held sink.old) (S.held sink.new)
        (waiting.old ++ run_line form paint grid.now y x) waiting.new) }
    ensures part { OnErr result
        (AppendsPrefix (S.held sink.old) (S.held sink.new) (waiting.old ++ run_line form paint grid.now y x)) }
    ensures rest { S.rest sink.new ≡ S.rest sink.old }
    ensures cause { HasCause (S.faults sink.old) (S.faults sink.new) result }
{
    if !begins_run(grid, y, x) {
        return Ok(());
    }
    let line = rectangle_line(form, rectangle_of(grid, paint, y, above, x));
    waiting.put(sink, line.as_slice())?;
    Ok(())
}

/// Puts the lines of the dark runs of row `y` behind the bytes that wait; `above` modules are above the row.
fn put_row<S: Sink>(
    sink: &mut S,
    grid: &Grid,
    paint: Paint,
    form: Form,
    y: u32,
    above: u32,
    waiting: &mut WriteBuffer,
) -> Result<(), Failed>
    requires row { y < row_count grid.now }
    requires paint { IsPaint paint }
    requires form { IsFormOf form paint grid.now }
    requires above { above ≡ modules_above grid.now y }
    requires low { above ≤ 200 * 16384 }
    ensures whole { OnOk result
        (WritesFront (S.held sink.old) (S.held sink.new) (waiting.old ++ row_lines form paint grid.now y) waiting.new) }
    ensures part { OnErr result
        (AppendsPrefix (S.held sink.old) (S.held sink.new) (waiting.old ++ row_lines form paint grid.now y)) }
    ensures rest { S.rest sink.new ≡ S.rest sink.old }
    ensures cause { HasCause (S.faults sink.old) (S.faults sink.new) result }
{
    for x in 0..grid.width() {
        put_run(sink, grid, paint, form, y, above, x, waiting)?;
    }
    Ok(())
}

/// Puts the lines of all dark runs, row by row from the top, behind the bytes that wait.
fn put_runs<S: Sink>(
    sink: &mut S,
    grid: &Grid,
    paint: Paint,
    form: Form,
    waiting: &mut WriteBuffer,
) -> Result<(), Failed>
    requires paint { IsPaint paint }
    requires form { IsFormOf form paint grid.now }
    ensures whole { OnOk result
        (WritesFront (S.held sink.old) (S.held sink.new)
        (waiting.old ++ rectangle_lines form paint grid.now) waiting.new) }
    ensures part { OnErr result
        (AppendsPrefix (S.held sink.old) (S.held sink.new) (waiting.old ++ rectangle_lines form paint grid.now)) }
    ensures rest { S.rest sink.new ≡ S.rest sink.old }
    ensures cause { HasCause (S.faults sink.old) (S.faults sink.new) result }
{
    let mut above = 0;
    for y in 0..grid.rows() {
        put_row(sink, grid, paint, form, y, above, waiting)?;
        above += grid.height(y);
    }
    Ok(())
}

/// Writes a drawing: its head, the lines of all dark runs, and its end.
fn write_drawing<S: Sink>(
    sink: &mut S,
    grid: &Grid,
    paint: Paint,
    form: Form,
    head: &[u8],
    end: &[u8],
) -> Result<(), Failed>
    requires paint { IsPaint paint }
    requires form { IsFormOf form paint grid.now }
    ensures whole { OnOk result
        (Appends (S.held sink.old) (S.held sink.new) (head.now ++ rectangle_lines form paint grid.now ++ end.now)) }
    ensures part { OnErr result
        (AppendsPrefix (S.held sink.old) (S.held sink.new)
        (head.now ++ rectangle_lines form paint grid.now ++ end.now)) }
    ensures rest { S.rest sink.new ≡ S.rest sink.old }
    ensures cause { HasCause (S.faults sink.old) (S.faults sink.new) result }
{
    let mut waiting = WriteBuffer::new();
    waiting.put(sink, head)?;
    put_runs(sink, grid, paint, form, &mut waiting)?;
    waiting.put(sink, end)?;
    waiting.flush(sink)?;
    Ok(())
}

/// Writes the SVG of a grid, many lines in one piece: a white rectangle under a black one for each dark run, the runs row by row from
/// the top and in a row from the left. Lengths are in units, of which a module has 2 times the scale on a side. It takes no memory;
/// `Failed` has written a prefix of the drawing, and is answered only where a fault was counted.
#[tactic(auto, unfolding(crate::specs::Drawing::svg_text))]
pub fn write_svg<S: Sink>(sink: &mut S, grid: &Grid, paint: Paint) -> Result<(), Failed>
    requires paint { IsPaint paint }
    ensures whole { OnOk result (Appends (S.held sink.old) (S.held sink.new) (svg_text paint grid.now)) }
    ensures part { OnErr result (AppendsPrefix (S.held sink.old) (S.held sink.new) (svg_text paint grid.now)) }
    ensures rest { S.rest sink.new ≡ S.rest sink.old }
    ensures cause { HasCause (S.faults sink.old) (S.faults sink.new) result }
{
    let head = svg_head(painted_width(grid, paint), painted_height(grid, paint));
    write_drawing(sink, grid, paint, Form::Svg, head.as_slice(), &SVG_END)
}

/// Writes the EPS of a grid, many lines in one piece: white under a black rectangle for each dark run, the runs row by row from the top
/// and in a row from the left. Lengths are in units, of which a module has 2 times the scale on a side; places are counted from the
/// bottom left. It takes no memory; `Failed` has written a prefix of the drawing, and is answered only where a fault was counted.
#[tactic(auto, unfolding(crate::specs::Drawing::eps_text))]
pub fn write_eps<S: Sink>(sink: &mut S, grid: &Grid, paint: Paint) -> Result<(), Failed>
    requires paint { IsPaint paint }
    ensures whole { OnOk result (Appends (S.held sink.old) (S.held sink.new) (eps_text paint grid.now)) }
    ensures part { OnErr result (AppendsPrefix (S.held sink.old) (S.held sink.new) (eps_text paint grid.now)) }
    ensures rest { S.rest sink.new ≡ S.rest sink.old }
    ensures cause { HasCause (S.faults sink.old) (S.faults sink.new) result }
{
    let height = painted_height(grid, paint);
    let head = eps_head(painted_width(grid, paint), height);
    write_drawing(
        sink,
        grid,
        paint,
        Form::Eps(height),
        head.as_slice(),
        &EPS_END,
    )
}

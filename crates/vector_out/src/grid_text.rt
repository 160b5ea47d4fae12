//! The text of a grid, each line one piece.
ghost use Rattle.std.specs.Prelude.{◌≡◌, ◌<◌, OnOk, OnErr};
ghost use Rattle.std.specs.Io.KnownBytes.{Appends};
ghost use Rattle.bar_base.specs.Faults.{HasCause};
ghost use Rattle.bar_base.specs.GridText.{grid_text, line_of};
ghost use Rattle.bar_base.specs.Outside.{AppendsPrefix};
ghost use Rattle.bar_base.specs.Picture.{row_count, row_of};

use crate::grid_lines::{GridLine, make_line};
use bar_base::{Failed, Grid, Sink, write_all};

/// Writes the line of row `y` of a grid as one piece; it is made in `line`.
fn write_line<S: Sink>(sink: &mut S, grid: &Grid, y: u32, line: &mut GridLine) -> Result<(), Failed>
    requires row { y < row_count grid.now }
    ensures whole { OnOk result (Appends (S.held sink.old) (S.held sink.new) (line_of (row_of grid.now y))) }
    ensures part { OnErr result (AppendsPrefix (S.held sink.old) (S.held sink.new) (line_of (row_of grid.now y))) }
    ensures rest { S.rest sink.new ≡ S.rest sink.old }
    ensures cause { HasCause (S.faults sink.old) (S.faults sink.new) result }
{
    make_line(line, grid, y);
    write_all(sink, line.as_slice())
}

/// Writes the text of a grid, each line as one piece. It takes no memory; `Failed` has written a prefix of the text, and is answered
/// only where a fault was counted.
pub fn write_grid<S: Sink>(sink: &mut S, grid: &Grid) -> Result<(), Failed>
    ensures whole { OnOk result (Appends (S.held sink.old) (S.held sink.new) (grid_text grid.now)) }
    ensures part { OnErr result (AppendsPrefix (S.held sink.old) (S.held sink.new) (grid_text grid.now)) }
    ensures rest { S.rest sink.new ≡ S.rest sink.old }
    ensures cause { HasCause (S.faults sink.old) (S.faults sink.new) result }
{
    let mut line = GridLine::new();
    for y in 0..grid.rows() {
        write_line(sink, grid, y, &mut line)?;
    }
    Ok(())
}

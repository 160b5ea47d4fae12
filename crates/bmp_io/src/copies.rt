//! Writing one piece many times.
ghost use Rattle.std.specs.Prelude.{◌≡◌, ◌<◌, ◌≤◌, ◌*◌, OnOk, OnErr, length, take};
ghost use Rattle.std.specs.Io.KnownBytes.{Appends};
ghost use Rattle.std.specs.List.{repeat};
ghost use Rattle.bar_base.specs.Faults.{HasCause};
ghost use Rattle.bar_base.specs.Outside.{AppendsPrefix};

use bar_base::{Failed, Sink, write_all};

/// Writes the first `stride` bytes of `rows` so many times, several of them in a piece where there is room for copies.
pub(crate) fn write_times<S: Sink>(
    sink: &mut S,
    rows: &mut [u8],
    stride: usize,
    times: u32,
) -> Result<(), Failed>
    requires some { 0 < stride }
    requires fits { stride ≤ length rows.old }
    ensures whole { OnOk result (Appends (S.held sink.old) (S.held sink.new)
        (repeat times (take stride rows.old))) }
    ensures part { OnErr result (AppendsPrefix (S.held sink.old) (S.held sink.new)
        (repeat times (take stride rows.old))) }
    ensures rest { S.rest sink.new ≡ S.rest sink.old }
    ensures cause { HasCause (S.faults sink.old) (S.faults sink.new) result }
{
    let many = (rows.len() / stride).min(times as usize);
    if many == 0 {
        return Ok(());
    }
    copy_rows(rows, stride, many);
    write_pieces(sink, &rows[..many * stride], times / many as u32)?;
    write_all(sink, &rows[..times as usize % many * stride])?;
    Ok(())
}

/// Copies the first row of `rows` behind itself, until there are `count` of it.
fn copy_rows(rows: &mut [u8], stride: usize, count: usize)
    requires some { 0 < stride }
    requires one { 0 < count }
    requires fits { count * stride ≤ length rows.old }
    ensures copies { take (count * stride) rows.new ≡ repeat count (take stride rows.old) }
{
    for i in 1..count {
        rows.copy_within(0..stride, i * stride);
    }
}

/// Writes `piece` so many times.
fn write_pieces<S: Sink>(sink: &mut S, piece: &[u8], times: u32) -> Result<(), Failed>
    ensures whole { OnOk result (Appends (S.held sink.old) (S.held sink.new) (repeat times piece.now)) }
    ensures part { OnErr result (AppendsPrefix (S.held sink.old) (S.held sink.new) (repeat times piece.now)) }
    ensures rest { S.rest sink.new ≡ S.rest sink.old }
    ensures cause { HasCause (S.faults sink.old) (S.faults sink.new) result }
{
    for i in 0..times {
        write_all(sink, piece)?;
    }
    Ok(())
}

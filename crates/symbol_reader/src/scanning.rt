ghost use Rattle.std.specs.Prelude.{◌≡◌, ◌≤◌, ◌<◌, IfOk, IfErr, IfSome, length};
ghost use Rattle.symbol_reader.specs.GridLines.{HasTextSides, IsBadText};
ghost use Rattle.symbol_reader.specs.Scanning.{IsScanned, TakesByte, can_end_text, is_full_line, is_whole_line, line_after, scan_step};

/// How far the text of a grid has been read.
#[derive(Debug, Clone, Copy)]
pub(crate) struct Scan {
    /// The modules of the first line, or 0 before its end.
    width: u32,
    /// The modules of the line so far.
    column: u32,
    /// The lines in front of it.
    rows: u32,
    /// Whether the last byte was a carriage return.
    returned: bool,
}

/// Whether no module can follow in the line.
fn is_full(scan: Scan) -> bool
    ensures { result ≡ is_full_line scan }
{
    scan.width != 0 && scan.column == scan.width
}

/// Whether the line can end.
fn is_whole(scan: Scan) -> bool
    ensures { result ≡ is_whole_line scan }
{
    scan.column != 0 && (scan.width == 0 || scan.column == scan.width)
}

/// Whether the bytes can end.
fn can_end(scan: Scan) -> bool
    ensures { result ≡ can_end_text scan }
{
    !scan.returned && (is_whole(scan) || (scan.width != 0 && scan.column == 0))
}

/// Behind a line feed.
fn next_line(scan: Scan) -> Scan
    requires { scan.rows < 65536 }
    ensures { result ≡ line_after scan }
{
    Scan {
        width: scan.column,
        column: 0,
        rows: scan.rows + 1,
        returned: false,
    }
}

/// Behind one byte more, or None where it cannot stand.
fn step(scan: Scan, byte: u8) -> Option<Scan>
    requires columns { scan.column < 65536 }
    requires rows { scan.rows < 65536 }
    ensures step { result ≡ scan_step scan byte }
    ensures how { IfSome result (TakesByte scan byte) }
{
    if scan.returned {
        return if byte == 10 {
            Some(next_line(scan))
        } else {
            None
        };
    }
    if byte == 48 || byte == 49 {
        if is_full(scan) {
            return None;
        }
        return Some(Scan {
            width: scan.width,
            column: scan.column + 1,
            rows: scan.rows,
            returned: false,
        });
    }
    if !is_whole(scan) {
        return None;
    }
    if byte == 10 {
        return Some(next_line(scan));
    }
    if byte == 13 {
        return Some(Scan {
            width: scan.width,
            column: scan.column,
            rows: scan.rows,
            returned: true,
        });
    }
    None
}

/// Behind all bytes, or the place of the first that cannot stand.
fn scanned(bytes: &[u8]) -> Result<Scan, usize>
    requires { length bytes.now ≤ 65536 }
    ensures scanned { IfOk result (IsScanned bytes.now) }
    ensures bad { IfErr result (IsBadText bytes.now) }
{
    let mut scan = Scan {
        width: 0,
        column: 0,
        rows: 0,
        returned: false,
    };
    for at in 0..bytes.len() {
        match step(scan, bytes[at]) {
            None => return Err(at),
            Some(next) => scan = next,
        }
    }
    Ok(scan)
}

/// The modules in a row and the rows of a text, or the place of the first byte that cannot stand, or of the end.
pub(crate) fn sides(bytes: &[u8]) -> Result<(u32, u32), usize>
    requires { length bytes.now ≤ 65536 }
    ensures good { IfOk result (λ sides. HasTextSides bytes.now sides.0 sides.1) }
    ensures bad { IfErr result (IsBadText bytes.now) }
{
    let scan = match scanned(bytes) {
        Err(place) => return Err(place),
        Ok(scan) => scan,
    };
    if !can_end(scan) {
        return Err(bytes.len());
    }
    if scan.column == 0 {
        return Ok((scan.width, scan.rows));
    }
    Ok((scan.column, scan.rows + 1))
}

use aztec_modes::Mode;

/// Where a spelling stands: before the element at `place`, counted from 0, in `mode`.
#[derive(Debug, Clone, Copy, PartialEq, Eq)]
pub struct Stand {
    pub mode: Mode,
    pub place: u32,
}

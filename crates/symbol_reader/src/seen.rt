//! A picture of which some modules may be unknown, as it is read.
ghost use Rattle.std.specs.Prelude.{◌≡◌, true};
ghost use Rattle.bar_base.specs.Picture.{row_count};

use bar_base::Grid;

/// A picture twice: with its unknown modules light, and with them dark.
#[derive(Debug, Clone, Copy)]
pub(crate) struct Seen<'a> {
    pub(crate) grid: &'a Grid,
    pub(crate) dark: &'a Grid,
    /// Whether all modules are known to be known, so that the two are one.
    pub(crate) whole: bool,
    pub(crate) ghost same: { whole ≡ true → dark.now ≡ grid.now },
    pub(crate) ghost width: { dark.now.width ≡ grid.now.width },
    pub(crate) ghost rows: { row_count dark.now ≡ row_count grid.now },
}

//! A picture of which some modules are unknown.
ghost use Rattle.std.specs.Prelude.{◌≡◌};
ghost use Rattle.bar_base.specs.Picture.{row_count};

use bar_base::Grid;

/// A picture of which some modules are unknown: those that are dark in `lost`. They are light in `grid`. Both have one width
/// and one number of rows.
#[derive(Debug, Drop)]
pub struct Unknown {
    /// The picture, its unknown modules light.
    pub grid: Grid,
    /// Its unknown modules, dark.
    pub lost: Grid,
    pub ghost width: { lost.width ≡ grid.width },
    pub ghost rows: { row_count lost ≡ row_count grid },
}

//! What is seen of a symbol.
use bar_base::Grid;
use symbol_reader::Unknown;

/// What is seen of a symbol: a picture, of which some modules may be unknown.
#[derive(Debug, Drop)]
pub(crate) enum Seen {
    /// All its modules are known.
    Known(Grid),
    /// Those that are marked are unknown.
    Marked(Unknown),
}

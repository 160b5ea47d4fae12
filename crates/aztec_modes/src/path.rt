use crate::code::Code;
use bar_base::{Item, Items};

impl Item for Code {}

/// A list of codes, in the order in which they are drawn.
pub type Path = Items<Code>;

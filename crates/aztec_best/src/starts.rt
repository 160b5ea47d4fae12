/// The fewest bits that begin with a code which spells something, in each mode; at least 2 to the power 30 where there is no such code.
#[derive(Clone, Copy)]
pub(crate) struct Starts {
    pub(crate) upper: u32,
    pub(crate) lower: u32,
    pub(crate) mixed: u32,
    pub(crate) punct: u32,
    pub(crate) digit: u32,
}

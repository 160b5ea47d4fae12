/// What is kept for a place: the fewest bits of the rest of the elements from it on, from each mode, and how many bytes stand there.
#[derive(Clone, Copy)]
pub(crate) struct Costs {
    pub(crate) upper: u32,
    pub(crate) lower: u32,
    pub(crate) mixed: u32,
    pub(crate) punct: u32,
    pub(crate) digit: u32,
    pub(crate) bytes: u32,
}

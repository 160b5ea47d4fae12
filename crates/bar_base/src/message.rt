use crate::lists::Elements;
use crate::short::Short;

/// The identifier of a structured append set: 1 to 32 bytes from 33 to 126, or none where it is empty.
pub type Ident = Short<32>;

/// The place of a symbol in a structured append set: the `index`-th of `count` symbols, counted from 1.
#[derive(Debug, Drop)]
pub struct Append {
    pub index: u8,
    pub count: u8,
    pub id: Ident,
}

/// What a symbol says: its place in a set, whether its data is GS1 element strings, the extended channel interpretation that is
/// written, and the body.
#[derive(Debug, Drop)]
pub struct Message {
    pub append: Option<Append>,
    pub gs1: bool,
    pub eci: Option<u32>,
    pub body: Elements,
}

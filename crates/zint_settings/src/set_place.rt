//! The place of a symbol in a structured append set.
ghost use Rattle.zint_settings.specs.SetPlace.{IsSetPlace};

/// The place of a symbol in a structured append set (`--structapp`): the `index`-th of `count` symbols, counted from 1.
#[derive(Clone, Copy, Debug)]
pub struct SetPlace<'a> {
    /// 1 to the count.
    pub index: u8,
    /// 2 to 26.
    pub count: u8,
    /// The identifier of the set: 1 to 32 bytes from 33 to 126, or none where it is empty.
    pub id: &'a str,
    pub ghost placed: { IsSetPlace index count id.now },
}

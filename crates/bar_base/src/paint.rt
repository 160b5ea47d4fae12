/// How a picture is painted: a module is 2 times `scale` units (of an SVG or EPS) or pixels (of a BMP) wide, and `white` light modules
/// are left and right of the symbol, `vwhite` above and below it. The scale is 1 to 20, each white space 0 to 100.
#[derive(Debug, Clone, Copy, PartialEq, Eq)]
pub struct Paint {
    pub scale: u32,
    pub white: u32,
    pub vwhite: u32,
}

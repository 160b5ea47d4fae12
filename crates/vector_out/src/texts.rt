//! The texts of a drawing that hold no number; code and definition read them here.

/// The front of an SVG, up to the width of the drawing.
pub const SVG_FRONT: [u8; 86] =
    *b"<?xml version=\"1.0\" encoding=\"UTF-8\"?>\n<svg xmlns=\"http://www.w3.org/2000/svg\" width=\"";

/// The end of the line of a light rectangle in an SVG.
pub const SVG_WHITE: [u8; 19] = *b"\" fill=\"#FFFFFF\"/>\n";

/// The end of the line of a dark rectangle in an SVG.
pub const SVG_BLACK: [u8; 19] = *b"\" fill=\"#000000\"/>\n";

/// The end of an SVG.
pub const SVG_END: [u8; 7] = *b"</svg>\n";

/// The front of an EPS, up to the width of the drawing.
pub const EPS_FRONT: [u8; 43] = *b"%!PS-Adobe-3.0 EPSF-3.0\n%%BoundingBox: 0 0 ";

/// What stands in an EPS between the bounding box and the size of the white rectangle under all.
pub const EPS_WHITE: [u8; 29] = *b"\n%%EndComments\n1 setgray 0 0 ";

/// What stands in an EPS behind the size of that rectangle: from there on all is black.
pub const EPS_BLACK: [u8; 20] = *b" rectfill\n0 setgray\n";

/// The end of an EPS.
pub const EPS_END: [u8; 6] = *b"%%EOF\n";

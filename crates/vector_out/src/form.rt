//! The lines of a drawing in the form of SVG or EPS.
ghost use Rattle.std.specs.Prelude.{◌≡◌, ◌≤◌, ◌+◌};
ghost use Rattle.vector_out.specs.Drawing.{svg_head, svg_rectangle, eps_head, eps_rectangle};
ghost use Rattle.vector_out.specs.Drawing.{rectangle_line, EndsInside};

use crate::line::{Line, put, put_number};
use crate::runs::Rectangle;
use crate::texts::{EPS_BLACK, EPS_FRONT, EPS_WHITE, SVG_BLACK, SVG_FRONT, SVG_WHITE};
use arrayvec::ArrayVec;

/// What a drawing is written as; an EPS with its height.
#[derive(Debug, Clone, Copy, PartialEq, Eq)]
pub(crate) enum Form {
    Svg,
    Eps(u32),
}

/// The lines of an SVG before its dark rectangles.
#[tactic(auto, unfolding(crate::specs::Drawing::svg_head))]
pub(crate) fn svg_head(width: u32, height: u32) -> Line
    ensures { result.items ≡ svg_head width height }
{
    let mut line: Line = ArrayVec::new();
    put(&mut line, &SVG_FRONT);
    put_number(&mut line, width);
    put(&mut line, b"\" height=\"");
    put_number(&mut line, height);
    put(&mut line, b"\" viewBox=\"0 0 ");
    put_number(&mut line, width);
    put(&mut line, b" ");
    put_number(&mut line, height);
    put(&mut line, b"\">\n<rect x=\"0\" y=\"0\" width=\"");
    put_number(&mut line, width);
    put(&mut line, b"\" height=\"");
    put_number(&mut line, height);
    put(&mut line, &SVG_WHITE);
    line
}

/// The line of an SVG for a dark rectangle.
#[tactic(auto, unfolding(crate::specs::Drawing::svg_rectangle))]
fn svg_rectangle(rectangle: Rectangle) -> Line
    ensures { result.items ≡ svg_rectangle rectangle }
{
    let mut line: Line = ArrayVec::new();
    put(&mut line, b"<rect x=\"");
    put_number(&mut line, rectangle.left);
    put(&mut line, b"\" y=\"");
    put_number(&mut line, rectangle.top);
    put(&mut line, b"\" width=\"");
    put_number(&mut line, rectangle.width);
    put(&mut line, b"\" height=\"");
    put_number(&mut line, rectangle.height);
    put(&mut line, &SVG_BLACK);
    line
}

/// The lines of an EPS before its dark rectangles.
#[tactic(auto, unfolding(crate::specs::Drawing::eps_head))]
pub(crate) fn eps_head(width: u32, height: u32) -> Line
    ensures { result.items ≡ eps_head width height }
{
    let mut line: Line = ArrayVec::new();
    put(&mut line, &EPS_FRONT);
    put_number(&mut line, width);
    put(&mut line, b" ");
    put_number(&mut line, height);
    put(&mut line, &EPS_WHITE);
    put_number(&mut line, width);
    put(&mut line, b" ");
    put_number(&mut line, height);
    put(&mut line, &EPS_BLACK);
    line
}

/// The line of an EPS of this height for a dark rectangle: its bottom is counted from that of the drawing.
#[tactic(auto, unfolding(crate::specs::Drawing::eps_rectangle))]
fn eps_rectangle(height: u32, rectangle: Rectangle) -> Line
    requires inside { rectangle.top + rectangle.height ≤ height }
    ensures { result.items ≡ eps_rectangle height rectangle }
{
    let bottom = height - rectangle.top - rectangle.height;
    let mut line: Line = ArrayVec::new();
    put_number(&mut line, rectangle.left);
    put(&mut line, b" ");
    put_number(&mut line, bottom);
    put(&mut line, b" ");
    put_number(&mut line, rectangle.width);
    put(&mut line, b" ");
    put_number(&mut line, rectangle.height);
    put(&mut line, b" rectfill\n");
    line
}

/// The line for a dark rectangle.
pub(crate) fn rectangle_line(form: Form, rectangle: Rectangle) -> Line
    requires inside { EndsInside form rectangle }
    ensures { result.items ≡ rectangle_line form rectangle }
{
    match form {
        Form::Svg => svg_rectangle(rectangle),
        Form::Eps(height) => eps_rectangle(height, rectangle),
    }
}

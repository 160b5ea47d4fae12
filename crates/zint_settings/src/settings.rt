//! What is asked for: a drawing, a reading or the demonstration.
ghost use Rattle.zint_settings.specs.DrawingOptions.{IsInRange};
ghost use Rattle.zint_settings.specs.Looks.{IsLook};

use crate::drawing_options::DrawingOptions;
use crate::look::Look;
use crate::segment::Segment;
use crate::set_place::SetPlace;

/// Where the message, or the picture of a symbol, comes from.
#[derive(Clone, Copy, Debug)]
pub enum Origin<'a> {
    /// It is this text (`--data`), which is empty where nothing is named.
    Text(&'a str),
    /// It is read from the input of this name (`--input`); `-` is standard input.
    Input(&'a str),
}

/// What is asked of a drawing.
#[derive(Debug, Drop)]
pub struct DrawingSettings<'a> {
    /// What is drawn and how.
    pub options: DrawingOptions,
    /// The place in a structured append set (`--structapp`), where there is one.
    pub append: Option<SetPlace<'a>>,
    /// The segments behind the data (`--seg1` to `--seg9`), in their order.
    pub segments: Vec<Segment<'a>>,
    pub ghost in_range: { IsInRange options },
}

/// What is asked of a reading (`--read`).
#[derive(Clone, Copy, Debug)]
pub struct ReadingSettings {
    /// What is looked for, and in which way.
    pub look: Look,
    pub ghost in_range: { IsLook look },
}

/// What is to be done.
#[derive(Debug, Drop)]
pub enum TaskSettings<'a> {
    /// A symbol is drawn.
    Drawing(DrawingSettings<'a>),
    /// A symbol is read (`--read`).
    Reading(ReadingSettings),
    /// The demonstration of a number from 0 to 2,147,483,647 is shown (`--demo`).
    Demonstration(u32),
}

/// What the words ask for.
#[derive(Debug, Drop)]
pub struct Settings<'a> {
    /// Where the message, or the picture of a symbol, comes from (`--data` or `--input`).
    pub origin: Origin<'a>,
    /// The name of the file to write (`--output`); none is standard output, as with `--direct`.
    pub output: Option<&'a str>,
    /// What is to be done.
    pub task: TaskSettings<'a>,
}

//! What may be asked of the command, as types with their ranges: a drawing, a reading or the demonstration. The words that ask for
//! them are the command line's.
#![tactic(auto)]

mod character_sets;
mod drawing_options;
mod form;
mod look;
mod segment;
mod set_place;
mod settings;
mod symbology;

pub use character_sets::{CHARACTER_SETS, is_character_set};
pub use drawing_options::{DrawingOptions, Gs1Brackets};
pub use form::{FORMS, Form, form_by_ending, form_in, has_left_out_ending};
pub use look::{Frame, Look, ROW_SYMBOLOGIES, RowSymbology, row_symbology_numbered};
pub use segment::Segment;
pub use set_place::SetPlace;
pub use settings::{DrawingSettings, Origin, ReadingSettings, Settings, TaskSettings};
pub use symbology::{SYMBOLOGIES, Symbology, symbology_numbered};

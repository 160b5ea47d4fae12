//! A drawing, step by step.
ghost use Rattle.std.specs.Prelude.{◌≡◌, IfOk};
ghost use Rattle.zint_answers.specs.Steps.{MayAnswer};
ghost use Rattle.zint_settings.specs.Settings.{drawing_in};
ghost use Rattle.zint_draw.specs.Drawing.{draws};
ghost use Rattle.zint_draw.specs.Height.{IsLowSymbol};

use crate::data::{data_of, not_empty};
use crate::segments::within_bytes;
use crate::symbologies::{Symbol, draw_as};
use std::alloc::Global;
use zint_answers::Fault;
use zint_settings::DrawingSettings;

/// The symbol that the settings ask for, of a content and the segments behind it, or the first refusal of them: by their bytes, of which
/// there are at most 65,536 together, by the data, which is empty or has a backslash that begins no escape, and then by the symbology.
pub fn draw(alloc: Global, settings: &DrawingSettings<'_>, raw: Vec<u8>) -> Result<Symbol, Fault>
    ensures given { MayAnswer (λ symbol. symbol) result (draws (drawing_in settings.now) raw.items) }
    ensures low { IfOk result IsLowSymbol }
{
    drawn(alloc, settings, raw)
}

/// The steps of a drawing.
#[tactic(auto, using(zint_answers::proofs::Steps::stepping), unfolding(crate::specs::Drawing::draws))]
fn drawn(alloc: Global, settings: &DrawingSettings<'_>, raw: Vec<u8>) -> Result<Symbol, Fault>
    ensures { MayAnswer (λ symbol. symbol) result (draws (drawing_in settings.now) raw.items) }
{
    let whole = within_bytes(settings, raw)?;
    let data = data_of(alloc, settings.options.escapes, whole)?;
    let bytes = not_empty(&data)?;
    draw_as(alloc, settings, bytes)
}

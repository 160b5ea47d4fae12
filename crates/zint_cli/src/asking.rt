//! What the words ask for.
ghost use Rattle.std.specs.Prelude.{map, string_bytes};
ghost use Rattle.zint_answers.specs.Steps.{MayAnswer};
ghost use Rattle.zint_words.specs.Outcome.{outcome_of};
ghost use Rattle.zint_settings.specs.Settings.{request_in};
ghost use Rattle.zint_cli.specs.Call.{asked};

use std::alloc::Global;
use zint_answers::{Fault, Refusal};
use zint_settings::Settings;
use zint_words::{Refusal as WordsRefusal, settings_of};

/// The settings that the words ask for, or why there are none.
pub fn asked<'a>(alloc: Global, words: &'a [String]) -> Result<Settings<'a>, Fault>
    ensures { MayAnswer request_in result (asked (outcome_of (map string_bytes words.entry.now))) }
{
    match settings_of(alloc, words) {
        Ok(settings) => Ok(settings),
        Err(WordsRefusal::Usage) => Err(Fault::Refused(Refusal::Usage)),
        Err(WordsRefusal::BadOption(text)) => Err(Fault::Refused(Refusal::BadOption(text))),
        Err(WordsRefusal::NoMemory) => Err(Fault::NoMemory),
    }
}

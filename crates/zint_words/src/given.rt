//! What the words give each option.
ghost use Rattle.std.specs.Prelude.{◌≡◌, option_map, is_some};
ghost use Rattle.zint_words.specs.CommandLine.{given_as};

use crate::options::{OptionName, Takes};
use crate::values::{symbology_in, whole_number_in};
use clap::ArgMatches;
use zint_settings::{Form, Gs1Brackets, Symbology, form_by_ending, form_in};

/// The values of the options, as the words give them.
#[derive(Drop)]
pub struct Given<'a> {
    pub matches: ArgMatches<'a>,
}

impl<'a> Given<'a> {
    ghost use Rattle.zint_words.specs.GivenValues.{values_of};
    ghost use Rattle.zint_words.specs.CommandLine.{taken_by};
    ghost use Rattle.zint_words.specs.DrawingOptions.{IsWithin, given_number, gs1_of, gs1_source_of, output_form_of, symbology_of};

    /// The text that the option was given. A flag that is on has the text `true`.
    pub fn value(&self, option: OptionName) -> Option<&'a str>
        ensures { option_map (λ s. s.now) result ≡ values_of self.now option }
    {
        value_as(option.takes(), self.matches.get_str(option.long()))
    }

    /// Whether the option was given.
    pub fn has(&self, option: OptionName) -> bool
        ensures { result ≡ is_some (values_of self.now option) }
    {
        self.value(option).is_some()
    }

    /// What makes the data GS1 data, where the symbology carries such data: `--gs1`, `--gs1parens`, or `-b` where the
    /// symbology carries no other.
    #[tactic(auto, unfolding(crate::specs::DrawingOptions::gs1_source_of))]
    pub fn gs1_source(&self) -> Option<OptionName>
        ensures { result ≡ gs1_source_of (values_of self.now) }
    {
        if !OptionName::Gs1.suits(self.symbology()) {
            None
        } else if self.has(OptionName::Gs1) {
            Some(OptionName::Gs1)
        } else if self.has(OptionName::Gs1parens) {
            Some(OptionName::Gs1parens)
        } else if let Symbology::Gs1Code128 = self.symbology() {
            Some(OptionName::Barcode)
        } else {
            None
        }
    }

    /// The brackets of GS1 data: round ones where `--gs1parens` is given.
    #[tactic(auto, unfolding(crate::specs::DrawingOptions::gs1_of))]
    pub fn gs1(&self) -> Option<Gs1Brackets>
        ensures { result ≡ gs1_of (values_of self.now) }
    {
        self.gs1_source()?;
        if self.has(OptionName::Gs1parens) {
            Some(Gs1Brackets::Round)
        } else {
            Some(Gs1Brackets::Square)
        }
    }

    /// The number that an option which takes a number was given, and `other` where it was given none.
    #[tactic(auto, unfolding(crate::specs::DrawingOptions::given_number))]
    pub fn number(&self, option: OptionName, other: u32) -> u32
        ensures number { result ≡ given_number (values_of self.now) option other }
        ensures within { IsWithin (taken_by option) other → IsWithin (taken_by option) result }
    {
        match (option.takes(), self.value(option)) {
            (Takes::Number(low, high), Some(text)) => {
                whole_number_in(low, high, text).unwrap_or(other)
            }
            _ => other,
        }
    }

    /// The symbology that is named, and Code 128 where none is.
    #[tactic(auto, unfolding(crate::specs::DrawingOptions::symbology_of))]
    pub fn symbology(&self) -> Symbology
        ensures { result ≡ symbology_of (values_of self.now) }
    {
        match self.value(OptionName::Barcode) {
            Some(text) => symbology_in(text).unwrap_or(Symbology::Code128),
            None => Symbology::Code128,
        }
    }

    /// The form that is named, by `--filetype` or else by the ending of the file's name.
    #[tactic(auto, unfolding(crate::specs::DrawingOptions::output_form_of))]
    pub fn form(&self) -> Form
        ensures { result ≡ output_form_of (values_of self.now) }
    {
        let by_ending = match self.value(OptionName::Output) {
            Some(name) => form_by_ending(name),
            None => Form::Grid,
        };
        match self.value(OptionName::Filetype) {
            Some(text) => form_in(text).unwrap_or(by_ending),
            None => by_ending,
        }
    }
}

// What the first value that was found says: a flag that was not used has `false`.
fn value_as<'a>(takes: Takes, found: Option<&'a str>) -> Option<&'a str>
    ensures { option_map (λ s. s.now) result ≡ given_as takes (option_map (λ s. s.now) found.entry) }
{
    match takes {
        Takes::Flag => found.filter(|text| *text == "true"),
        _ => found,
    }
}

//! The rules on the options, in the order in which they are tested.
ghost use Rattle.std.specs.Prelude.{◌≡◌, find};
ghost use Rattle.zint_words.specs.GivenValues.{values_of};
ghost use Rattle.zint_words.specs.Rules.{breaks, excluded_by, first_broken, is_good_text, is_good_value, not_admitted_by};

use crate::comma_values::{segment_in, set_place_in};
use crate::given::Given;
use crate::options::{OPTION_NAMES, OptionName, Takes, option_table};
use crate::values::{character_set_in, row_symbology_in, symbology_in, whole_number_in};
use zint_settings::{form_in, has_left_out_ending};

/// A rule on the options.
#[derive(Clone, Copy, Debug)]
pub enum Rule {
    /// The option's value is one that it may have.
    Value(OptionName),
    /// The two options are not both given.
    Apart(OptionName, OptionName),
    /// The option is given only with options that it admits.
    Alone(OptionName),
    /// The option is given only with a symbology and with data that it is for.
    Excluded(OptionName),
    /// The first option is given only where the second one is.
    Behind(OptionName, OptionName),
    /// There is a message, or none is needed.
    Message,
}

/// The options that are not given together, in the order in which they are tested.
pub const PAIRS: &[Rule] = &[
    Rule::Apart(OptionName::Data, OptionName::Input),
    Rule::Apart(OptionName::Direct, OptionName::Output),
    Rule::Alone(OptionName::Demo),
    Rule::Alone(OptionName::Read),
];

/// What must not be missing where an option is given, what is not given with an option that has no use for it, and the
/// message, in the order in which they are tested.
pub const NEEDS: &[Rule] = &[
    Rule::Behind(OptionName::Seg2, OptionName::Seg1),
    Rule::Behind(OptionName::Seg3, OptionName::Seg2),
    Rule::Behind(OptionName::Seg4, OptionName::Seg3),
    Rule::Behind(OptionName::Seg5, OptionName::Seg4),
    Rule::Behind(OptionName::Seg6, OptionName::Seg5),
    Rule::Behind(OptionName::Seg7, OptionName::Seg6),
    Rule::Behind(OptionName::Seg8, OptionName::Seg7),
    Rule::Behind(OptionName::Seg9, OptionName::Seg8),
    Rule::Behind(OptionName::Erasures, OptionName::Read),
    Rule::Alone(OptionName::Scan),
    Rule::Behind(OptionName::Find, OptionName::Read),
    Rule::Apart(OptionName::Find, OptionName::Scale),
    Rule::Apart(OptionName::Find, OptionName::Whitesp),
    Rule::Apart(OptionName::Find, OptionName::Vwhitesp),
    Rule::Apart(OptionName::Find, OptionName::Erasures),
    Rule::Message,
];

macro_rules! value {
    ($option:ident, $($rest:tt)*) => {
        Rule::Value(OptionName::$option)
    };
}

macro_rules! excluded {
    ($option:ident, $($rest:tt)*) => {
        Rule::Excluded(OptionName::$option)
    };
}

// The rules of each option, in the order of their table.
const VALUES: &[Rule] = option_table!(value);

const EXCLUDED: &[Rule] = option_table!(excluded);

/// The first rule that the values break.
#[tactic(auto, unfolding(crate::specs::Rules::first_broken))]
pub fn first_broken(given: &Given<'_>) -> Option<Rule>
    ensures { result ≡ first_broken (values_of given.now) }
{
    first_of(given, VALUES)
        .or(first_of(given, PAIRS))
        .or(first_of(given, EXCLUDED))
        .or(first_of(given, NEEDS))
}

fn first_of(given: &Given<'_>, rules: &[Rule]) -> Option<Rule>
    ensures { result ≡ find (breaks (values_of given.now)) rules.now }
{
    rules.iter().copied().find(|rule| breaks(given, *rule))
}

#[tactic(auto, unfolding(crate::specs::Rules::breaks))]
fn breaks(given: &Given<'_>, rule: Rule) -> bool
    ensures { result ≡ breaks (values_of given.now) rule }
{
    match rule {
        Rule::Value(option) => !is_good_value(given, option),
        Rule::Apart(first, second) => given.has(first) && given.has(second),
        Rule::Alone(option) => given.has(option) && not_admitted_by(given, option).is_some(),
        Rule::Excluded(option) => excluded_by(given, option).is_some(),
        Rule::Behind(option, before) => given.has(option) && !given.has(before),
        Rule::Message => {
            !given.has(OptionName::Data)
                && !given.has(OptionName::Input)
                && !given.has(OptionName::Demo)
        }
    }
}

/// The first option, in the order of the table, that was given and that this one does not admit.
#[tactic(auto, unfolding(crate::specs::Rules::not_admitted_by))]
pub fn not_admitted_by(given: &Given<'_>, option: OptionName) -> Option<OptionName>
    ensures { result ≡ not_admitted_by (values_of given.now) option }
{
    OPTION_NAMES
        .iter()
        .copied()
        .find(|other| given.has(*other) && !option.admits(*other))
}

/// The option with which this one cannot be given: `-b` where it is not for the symbology, and what makes the data GS1 data
/// where it is not for that.
#[tactic(auto, unfolding(crate::specs::Rules::excluded_by))]
pub fn excluded_by(given: &Given<'_>, option: OptionName) -> Option<OptionName>
    ensures { result ≡ excluded_by (values_of given.now) option }
{
    if !given.has(option) {
        None
    } else if !option.suits(given.symbology()) {
        Some(OptionName::Barcode)
    } else if !option.is_for_gs1() {
        given.gs1_source()
    } else {
        None
    }
}

// An option that was not given has a good value.
#[tactic(auto, unfolding(crate::specs::Rules::is_good_value))]
fn is_good_value(given: &Given<'_>, option: OptionName) -> bool
    ensures { result ≡ is_good_value (values_of given.now) option }
{
    match given.value(option) {
        Some(text) => is_good_text(given, option.takes(), text),
        None => true,
    }
}

#[tactic(auto, unfolding(crate::specs::Rules::is_good_text))]
fn is_good_text(given: &Given<'_>, takes: Takes, text: &str) -> bool
    ensures { result ≡ is_good_text (values_of given.now) takes text.now }
{
    match takes {
        Takes::Flag => true,
        Takes::Text => true,
        Takes::SymbologyNumber => symbology_in(text).is_some(),
        Takes::RowSymbologyNumber => row_symbology_in(text).is_some(),
        Takes::FileName => given.has(OptionName::Filetype) || !has_left_out_ending(text),
        Takes::FormName => form_in(text).is_some(),
        Takes::Number(low, high) => whole_number_in(low, high, text).is_some(),
        Takes::Version => {
            whole_number_in(1, given.symbology().greatest_version(), text).is_some()
        }
        Takes::CharacterSet => character_set_in(text).is_some(),
        Takes::SetPlace => set_place_in(text).is_some(),
        Takes::Segment => segment_in(text).is_some(),
    }
}

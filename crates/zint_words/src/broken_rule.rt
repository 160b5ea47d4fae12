//! The text that names a broken rule.
ghost use Rattle.std.specs.Prelude.{◌≡◌, ◌++◌, IfOk, string_bytes, codes};
ghost use Rattle.zint_words.specs.BrokenRule.{broken_text, option_written, together};
ghost use Rattle.zint_words.specs.GivenValues.{values_of};

use crate::given::Given;
use crate::options::OptionName;
use crate::rules::{Rule, excluded_by, not_admitted_by};
use std::alloc::{AllocError, Global};

/// The text that names the rule that the values break, as `--secure=5`.
#[tactic(auto, unfolding(crate::specs::BrokenRule::broken_text))]
pub fn broken_text(alloc: Global, given: &Given<'_>, rule: Rule) -> Result<String, AllocError>
    ensures { IfOk result (λ s. string_bytes s ≡ broken_text (values_of given.now) rule) }
{
    match rule {
        Rule::Value(option) => with_value(alloc, option, given.value(option).unwrap_or("")),
        Rule::Apart(first, second) => together(alloc, first, second),
        Rule::Alone(option) => {
            let other = not_admitted_by(given, option).unwrap_or(OptionName::Barcode);
            together(alloc, option, other)
        }
        Rule::Excluded(option) => {
            let other = excluded_by(given, option).unwrap_or(OptionName::Barcode);
            together(alloc, option, other)
        }
        Rule::Behind(option, before) => joined(alloc, option, " without ", before),
        Rule::Message => String::from_str(alloc, "no input"),
    }
}

fn with_value(alloc: Global, option: OptionName, value: &str) -> Result<String, AllocError>
    ensures { IfOk result (λ s. string_bytes s ≡ option_written option ++ codes "=" ++ value.now) }
{
    let mut text = option_written(alloc, option)?;
    text.push_str("=")?;
    text.push_str(value)?;
    Ok(text)
}

fn together(alloc: Global, first: OptionName, second: OptionName) -> Result<String, AllocError>
    ensures { IfOk result (λ s. string_bytes s ≡ together first second) }
{
    joined(alloc, first, " with ", second)
}

fn joined(
    alloc: Global,
    first: OptionName,
    between: &str,
    second: OptionName,
) -> Result<String, AllocError>
    ensures { IfOk result (λ s. string_bytes s ≡ option_written first ++ between.now ++ option_written second) }
{
    let mut text = option_written(alloc, first)?;
    text.push_str(between)?;
    text.push_str(option_written(alloc, second)?.as_str())?;
    Ok(text)
}

// The letter of the option where it has one, and else its long name.
#[tactic(auto, unfolding(crate::specs::BrokenRule::option_written))]
fn option_written(alloc: Global, option: OptionName) -> Result<String, AllocError>
    ensures { IfOk result (λ s. string_bytes s ≡ option_written option) }
{
    match option.short() {
        Some(letter) => format!(in alloc; "-{letter}"),
        None => format!(in alloc; "--{}", option.long()),
    }
}

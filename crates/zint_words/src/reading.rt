//! From the words to the settings.
ghost use Rattle.std.specs.Prelude.{◌≡◌, IfOk, IfErr, map, option_map, string_bytes, false, true};
ghost use Rattle.zint_words.specs.CommandLine.{is_refused, values_by};
ghost use Rattle.zint_words.specs.GivenValues.{values_of};
ghost use Rattle.zint_words.specs.Outcome.{IsRefusedBy, IsUnreadable, outcome_by, outcome_of, settings};
ghost use Rattle.zint_settings.specs.Settings.{append_in, drawing_in, origin_in, request_in, segment_in, task_in};
ghost use Rattle.zint_settings.specs.Looks.{IsFrame, IsLook};
ghost use Rattle.zint_words.specs.Settings.{append_of, drawing_by, frame_of, look_of, origin_of, request_by, row_of, segment_given, segments_of, task_by};

use crate::broken_rule::broken_text;
use crate::comma_values::{segment_in, set_place_in};
use crate::command::command;
use crate::drawing_options::{drawing_options, paint_of};
use crate::given::Given;
use crate::options::{OptionName, SEGMENT_OPTIONS};
use crate::refusal::Refusal;
use crate::rules::first_broken;
use crate::values::row_symbology_in;
use clap::error::ErrorKind;
use std::alloc::{AllocError, Global};
use zint_settings::{
    DrawingSettings, Frame, Look, Origin, ReadingSettings, RowSymbology, Segment, SetPlace,
    Settings, TaskSettings,
};

/// The settings that the words ask for. The first word is the program's name.
///
/// `Refusal::Usage` comes where the command takes no such words, `Refusal::BadOption` where they break a rule, with the text
/// of the first one that is broken, and `Refusal::NoMemory` only where memory ran out.
pub fn settings_of<'a>(alloc: Global, words: &'a [String]) -> Result<Settings<'a>, Refusal>
    ensures settings { IfOk result (λ s. outcome_of (map string_bytes words.entry.now) ≡ settings (request_in s)) }
    ensures refused { IfErr result (IsRefusedBy (outcome_of (map string_bytes words.entry.now))) }
{
    match given_by(alloc, words) {
        Ok(given) => settings_by(alloc, &given),
        Err(refusal) => Err(refusal),
    }
}

fn settings_by<'a>(alloc: Global, given: &Given<'a>) -> Result<Settings<'a>, Refusal>
    ensures settings { IfOk result (λ s. outcome_by (values_of given.now) ≡ settings (request_in s)) }
    ensures refused { IfErr result (IsRefusedBy (outcome_by (values_of given.now))) }
{
    match first_broken(given) {
        Some(rule) => Err(Refusal::BadOption(broken_text(alloc, given, rule)?)),
        None => Ok(request_by(alloc, given)?),
    }
}

fn given_by<'a>(alloc: Global, words: &'a [String]) -> Result<Given<'a>, Refusal>
    ensures given { IfOk result (λ g. (is_refused (map string_bytes words.entry.now) ≡ false)
        × (values_of g ≡ values_by (map string_bytes words.entry.now))) }
    ensures refused { IfErr result (IsUnreadable (is_refused (map string_bytes words.entry.now))) }
{
    let command = command(alloc)?;
    match command.try_get_matches_from(words) {
        Ok(matches) => Ok(Given { matches }),
        Err(error) => match error.kind() {
            ErrorKind::OutOfMemory => Err(Refusal::NoMemory),
            _ => Err(Refusal::Usage),
        },
    }
}

#[tactic(auto, unfolding(crate::specs::Settings::request_by))]
fn request_by<'a>(alloc: Global, given: &Given<'a>) -> Result<Settings<'a>, AllocError>
    ensures { IfOk result (λ s. request_in s ≡ request_by (values_of given.now)) }
{
    let task = task_by(alloc, given)?;
    Ok(Settings {
        origin: origin_of(given),
        output: given.value(OptionName::Output),
        task,
    })
}

#[tactic(auto, unfolding(crate::specs::Settings::task_by))]
fn task_by<'a>(alloc: Global, given: &Given<'a>) -> Result<TaskSettings<'a>, AllocError>
    ensures { IfOk result (λ t. task_in t ≡ task_by (values_of given.now)) }
{
    if given.has(OptionName::Demo) {
        Ok(TaskSettings::Demonstration(given.number(OptionName::Demo, 0)))
    } else if given.has(OptionName::Read) || given.has(OptionName::Scan) {
        let look = look_of(given);
        Ok(TaskSettings::Reading(ReadingSettings { look }))
    } else {
        Ok(TaskSettings::Drawing(drawing_by(alloc, given)?))
    }
}

#[tactic(auto, unfolding(crate::specs::Settings::look_of))]
fn look_of(given: &Given<'_>) -> Look
    ensures look { result ≡ look_of (values_of given.now) }
    ensures in_range { IsLook result }
{
    match row_of(given) {
        Some(symbology) => Look::Row(symbology),
        None => Look::Aztec(frame_of(given)),
    }
}

#[tactic(auto, unfolding(crate::specs::Settings::row_of))]
fn row_of(given: &Given<'_>) -> Option<RowSymbology>
    ensures { result ≡ row_of (values_of given.now) }
{
    row_symbology_in(given.value(OptionName::Scan)?)
}

#[tactic(auto, unfolding(crate::specs::Settings::frame_of))]
fn frame_of(given: &Given<'_>) -> Frame
    ensures frame { result ≡ frame_of (values_of given.now) }
    ensures in_range { IsFrame result }
{
    if given.has(OptionName::Find) {
        Frame::Anywhere
    } else if given.has(OptionName::Erasures) {
        Frame::Unknown(paint_of(given))
    } else {
        Frame::Whole(paint_of(given))
    }
}

#[tactic(auto, unfolding(crate::specs::Settings::drawing_by))]
fn drawing_by<'a>(alloc: Global, given: &Given<'a>) -> Result<DrawingSettings<'a>, AllocError>
    ensures { IfOk result (λ s. drawing_in s ≡ drawing_by (values_of given.now)) }
{
    let segments = segments_of(alloc, given)?;
    let options = drawing_options(given);
    Ok(DrawingSettings {
        options,
        append: append_of(given),
        segments,
    })
}

#[tactic(auto, unfolding(crate::specs::Settings::append_of))]
fn append_of<'a>(given: &Given<'a>) -> Option<SetPlace<'a>>
    ensures { option_map append_in result ≡ append_of (values_of given.now) }
{
    set_place_in(given.value(OptionName::Structapp)?)
}

fn segments_of<'a>(alloc: Global, given: &Given<'a>) -> Result<Vec<Segment<'a>>, AllocError>
    ensures { IfOk result (λ s. map segment_in s.items ≡ segments_of (values_of given.now)) }
{
    let mut segments = Vec::new(alloc);
    for option in SEGMENT_OPTIONS.iter() {
        match segment_given(given, *option) {
            Some(segment) => segments.push(segment)?,
            None => (),
        }
    }
    Ok(segments)
}

#[tactic(auto, unfolding(crate::specs::Settings::segment_given))]
fn segment_given<'a>(given: &Given<'a>, option: OptionName) -> Option<Segment<'a>>
    ensures { option_map segment_in result ≡ segment_given (values_of given.now) option }
{
    segment_in(given.value(option)?)
}

#[tactic(auto, unfolding(crate::specs::Settings::origin_of))]
fn origin_of<'a>(given: &Given<'a>) -> Origin<'a>
    ensures { origin_in result ≡ origin_of (values_of given.now) }
{
    let text = given.value(OptionName::Data);
    let name = given.value(OptionName::Input);
    match (text, name) {
        (Some(text), _) => Origin::Text(text),
        (None, Some(name)) => Origin::Input(name),
        (None, None) => Origin::Text(""),
    }
}

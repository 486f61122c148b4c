//! Inputs and settings.

ghost use Rattle.std.specs.Prelude.{◌≡◌, []};
ghost use Rattle.std.specs.Option.{option_copied};
ghost use Rattle.qt_typing.specs.Checked.{Gives};
ghost use Rattle.qt_typing.specs.Inputs.{inputs_fit, is_input, setting_of, settings_fit, start_of, start_with, starts_from};

use crate::written::bits_written;
use qt_tree::label::{Label, Setting};
use qt_tree::refusal::{Cause, TextRefusal};
use qt_typed::program::{StartValue, TypedOutput};
use sqlite_items::Items;
use std::alloc::Global;

/// The value that the first setting of a name gives.
fn setting_of<'a>(mut settings: &'a [Setting], name: &str) -> Option<&'a Label>
    ensures { option_copied result ≡ setting_of settings.entry.now name.now }
{
    while let [setting, rest @ ..] = settings {
        if setting.name.text() == name {
            return Some(&setting.value);
        }
        settings = rest;
    }
    None
}

/// Whether an input has the name.
fn is_input(mut inputs: &[TypedOutput], name: &str) -> bool
    ensures { result ≡ is_input inputs.entry.now name.now }
{
    while let [input, rest @ ..] = inputs {
        if input.name.text() == name {
            return true;
        }
        inputs = rest;
    }
    false
}

/// The value of an input, as its text is read.
fn start_with(
    alloc: Global,
    input: &TypedOutput,
    bits: Option<u64>,
) -> Result<StartValue, TextRefusal>
    ensures { Gives (start_with input.now.name input.now.slot bits) result }
{
    match bits {
        Some(bits) => Ok(StartValue {
            slot: input.slot,
            bits,
        }),
        None => Err(TextRefusal::E19(input.name.copied(alloc)?, Cause::Bad)),
    }
}

/// The value of an input before the first statement: E19 `missing` where none is given, `bad` where it isn't one of the input's type. Each
/// type that is declared has a size; an input of another would be answered by want of memory.
fn start_of(
    alloc: Global,
    input: &TypedOutput,
    given: Option<&Label>,
) -> Result<StartValue, TextRefusal>
    ensures { Gives (start_of input.now (option_copied given.entry)) result }
{
    if !input.kind.has_size() {
        return Err(TextRefusal::OutOfMemory);
    }
    match given {
        Some(text) => start_with(alloc, input, bits_written(input.kind, text.text())),
        None => Err(TextRefusal::E19(input.name.copied(alloc)?, Cause::Missing)),
    }
}

/// The values of the inputs, in order.
#[tactic(auto, unfolding(qt_typing::specs::Inputs::starts_from))]
fn starts_of(
    alloc: Global,
    settings: &[Setting],
    mut inputs: &[TypedOutput],
) -> Result<Items<StartValue>, TextRefusal>
    ensures { Gives (starts_from settings.now [] inputs.entry.now) result }
{
    let mut starts = Items::new(alloc);
    while let [input, rest @ ..] = inputs {
        let start = start_of(alloc, input, setting_of(settings, input.name.text()))?;
        starts.push(start)?;
        inputs = rest;
    }
    Ok(starts)
}

/// That each setting names an input: E19 `unknown` for the first that doesn't.
#[tactic(auto, unfolding(qt_typing::specs::Inputs::settings_fit))]
fn settings_fit(
    alloc: Global,
    inputs: &[TypedOutput],
    mut settings: &[Setting],
) -> Result<(), TextRefusal>
    ensures { Gives (settings_fit inputs.now settings.entry.now) result }
{
    while let [setting, rest @ ..] = settings {
        if !is_input(inputs, setting.name.text()) {
            return Err(TextRefusal::E19(setting.name.copied(alloc)?, Cause::Unknown));
        }
        settings = rest;
    }
    Ok(())
}

/// The value of each input in the order of text; or E19: the first input that has none or a bad one, and then the first setting that
/// names no input.
#[tactic(auto, unfolding(qt_typing::specs::Inputs::inputs_fit))]
pub fn inputs_fit(
    alloc: Global,
    settings: &[Setting],
    inputs: &[TypedOutput],
) -> Result<Items<StartValue>, TextRefusal>
    ensures { Gives (inputs_fit settings.now inputs.now) result }
{
    let starts = starts_of(alloc, settings, inputs)?;
    settings_fit(alloc, inputs, settings)?;
    Ok(starts)
}

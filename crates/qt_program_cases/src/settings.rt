//! Settings of inputs in rows.

use qt_outside::faults::OutOfMemory;
use qt_rows::answer::Answer;
use qt_rows::row::Row;
use qt_tree::label::{Label, Setting};
use std::alloc::Global;

/// A setting as `name=value`. What has no `=` is the name of an input with an empty value.
fn setting_of(alloc: Global, word: &str) -> Result<Setting, OutOfMemory> {
    let (name, value) = match word.split_once('=') {
        Some(parts) => parts,
        None => (word, ""),
    };
    Ok(Setting {
        name: Label::new(alloc, name)?,
        value: Label::new(alloc, value)?,
    })
}

/// The settings in the words that are left.
pub fn settings_in(
    alloc: Global,
    words: &mut Row<'_>,
    answer: &mut Answer,
) -> Option<Vec<Setting>> {
    let mut settings = Vec::new(alloc);
    for word in words.rest.split(' ') {
        if !word.is_empty() {
            let setting = answer.given(setting_of(alloc, word))?;
            answer.given(settings.push(setting))?;
        }
    }
    Some(settings)
}

//! Settings: the values that are given for inputs.

ghost use Rattle.std.specs.Prelude.{◌≡◌, ◌≢◌, [], map};
ghost use Rattle.std.specs.Option.{option_map};
ghost use Rattle.qt_command.specs.Arguments.{Gives, has_setting, no_settings, parts_of, setting_at, settings_from, settings_of};
ghost use Rattle.qt_command.specs.declared.arguments.WordsRefusal.TheVariants as refusal;

use crate::arguments::{Mode, WordsRefusal};
use qt_tree::label::{Label, Setting};
use sqlite_items::Items;
use std::alloc::Global;

/// Whether one of the settings has the name.
fn has_setting(mut settings: &[Setting], name: &str) -> bool
    ensures { result ≡ has_setting settings.entry.now name.now }
{
    while let [setting, rest @ ..] = settings {
        if setting.name.text() == name {
            return true;
        }
        settings = rest;
    }
    false
}

/// The refusal of a word that is no setting, or none that may stand there.
fn refused(alloc: Global, word: &str) -> WordsRefusal
    ensures { result ≢ refusal.OutOfMemory → result ≡ refusal.Setting word.now }
{
    match Label::new(alloc, word) {
        Ok(word) => WordsRefusal::Setting { word },
        Err(_) => WordsRefusal::OutOfMemory,
    }
}

/// The name and the value of a setting, parted by its first `=`.
fn parts_of(word: &str) -> Option<(&str, &str)>
    ensures { option_map (λ p. (p.0.now, p.1.now)) result ≡ parts_of word.now }
{
    word.split_once('=')
}

/// A setting behind others.
fn setting_at(alloc: Global, before: &[Setting], word: &str) -> Result<Setting, WordsRefusal>
    ensures { Gives (setting_at before.now word.now) result }
{
    let Some((name, value)) = parts_of(word) else {
        return Err(refused(alloc, word));
    };
    if name.is_empty() || has_setting(before, name) {
        return Err(refused(alloc, word));
    }
    Ok(Setting {
        name: Label::new(alloc, name)?,
        value: Label::new(alloc, value)?,
    })
}

/// The settings that words are.
#[tactic(auto, unfolding(crate::specs::Arguments::settings_from))]
fn settings_from(alloc: Global, mut words: &[&str]) -> Result<Items<Setting>, WordsRefusal>
    ensures { Gives (settings_from [] (map (λ word. word.now) words.entry.now)) result }
{
    let mut settings = Items::new(alloc);
    while let [word, rest @ ..] = words {
        let setting = setting_at(alloc, settings.as_slice(), word)?;
        settings.push(setting)?;
        words = rest;
    }
    Ok(settings)
}

/// No settings, where there are no words.
fn no_settings(alloc: Global, words: &[&str]) -> Result<Items<Setting>, WordsRefusal>
    ensures { Gives (no_settings (map (λ word. word.now) words.now)) result }
{
    match words {
        [word, ..] => Err(refused(alloc, word)),
        [] => Ok(Items::new(alloc)),
    }
}

/// The settings that words are with a mode: none go with `format`.
pub fn settings_of(
    alloc: Global,
    mode: Mode,
    words: &[&str],
) -> Result<Items<Setting>, WordsRefusal>
    ensures { Gives (settings_of mode (map (λ word. word.now) words.now)) result }
{
    match mode {
        Mode::Format => no_settings(alloc, words),
        Mode::Run | Mode::Check => settings_from(alloc, words),
    }
}

//! What words say, or the line of their refusal.

use crate::escapes::{tell_line, tell_word};
use qt_command::arguments::{Arguments, Mode, WordsRefusal};
use qt_command::reading::arguments_of;
use qt_command::refused::refusal_line;
use qt_rows::answer::Answer;
use qt_tree::label::Setting;
use std::alloc::Global;

/// How many settings are told at each end of a list.
const TOLD: usize = 4;

fn mode_word(mode: Mode) -> &'static str {
    match mode {
        Mode::Run => "run ",
        Mode::Check => "check ",
        Mode::Format => "format ",
    }
}

fn tell_setting(setting: &Setting, answer: &mut Answer) {
    answer.push_str(" ");
    tell_word(setting.name.text(), answer);
    answer.push_str(" ");
    tell_word(setting.value.text(), answer);
    answer.push_str(";");
}

/// How many settings there are, and those at both ends.
fn tell_settings(settings: &[Setting], answer: &mut Answer) {
    let count = settings.len();
    write!(answer, " settings {count};");
    for (index, setting) in settings.iter().enumerate() {
        if index < TOLD || index >= count.saturating_sub(TOLD) {
            tell_setting(setting, answer);
        }
    }
}

fn tell_arguments(said: &Arguments, answer: &mut Answer) {
    answer.push_str(mode_word(said.mode));
    tell_word(said.file.text(), answer);
    let (workers, fuel) = (said.workers, said.fuel);
    write!(answer, " workers {workers} fuel {fuel} ");
    answer.push_str(if said.json { "json" } else { "text" });
    tell_settings(said.settings.as_slice(), answer);
}

fn tell_refusal(alloc: Global, refusal: &WordsRefusal, answer: &mut Answer) {
    if let Some(line) = answer.given(refusal_line(alloc, refusal)) {
        tell_line(line.as_str(), answer);
    }
}

/// What the words say, or the line of their refusal.
pub fn answer_words(alloc: Global, words: &[String], answer: &mut Answer) {
    match arguments_of(alloc, words) {
        Ok(said) => tell_arguments(&said, answer),
        Err(refusal) => tell_refusal(alloc, &refusal, answer),
    }
}

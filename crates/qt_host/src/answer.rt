//! The text that is asked for, and the answer that it comes to.

ghost use Rattle.std.specs.Prelude.{◌≡◌, ℕ, List, take, string_bytes, Some, IfOk, MatchResult};
ghost use Rattle.qt_outside.specs.Causes.{Texts, text_of};
ghost use Rattle.qt_read.specs.Reading.{IsReason};
ghost use Rattle.qt_host.specs.Steps.{IsAnswer, HasNoSource, HasNoAnswer, HasNoAnswerAt, HasNoText, HasShelfCause};
ghost use Rattle.qt_words.specs.declared.request.Mode.TheVariants as modes;

use crate::refusal::HostRefusal;
use qt_first::read::read as read_first;
use qt_outside::faults::{FetchFault, OutOfMemory};
use qt_outside::shelf::Shelf;
use qt_report::text_report;
use qt_run::run;
use qt_sources::source::{canonical, check};
use qt_tree::label::Label;
use qt_tree::refusal::TextRefusal;
use qt_words::request::Mode;
use std::alloc::{AllocError, Global};

/// One more byte than the longest text that is read, so that a longer one is seen to be too long.
const MOST: usize = 1048577;

impl From<OutOfMemory> for HostRefusal {
    ghost use Rattle.qt_host.specs.declared.refusal.HostRefusal.TheVariants.{OutOfMemory};

    ghost from_gives = { λ _ e. e ≡ OutOfMemory };

    fn from(_error: OutOfMemory) -> HostRefusal {
        HostRefusal::OutOfMemory
    }
}

impl From<AllocError> for HostRefusal {
    ghost use Rattle.qt_host.specs.declared.refusal.HostRefusal.TheVariants.{OutOfMemory};

    ghost from_gives = { λ _ e. e ≡ OutOfMemory };

    fn from(_error: AllocError) -> HostRefusal {
        HostRefusal::OutOfMemory
    }
}

/// The text of that name, as far as it is read.
fn fetched<S: Shelf>(alloc: Global, shelf: &mut S, name: &str) -> Result<Vec<u8>, HostRefusal>
    ensures text { (texts : Texts) → S.holds shelf.old ≡ Some texts
        → IfOk result (λ text. text.items ≡ take MOST (text_of texts name.now)) }
    ensures cause { MatchResult result
        (λ _. S.faults shelf.new ≡ S.faults shelf.old)
        (HasNoText (S.faults shelf.old) (S.faults shelf.new) (S.failed shelf.new) name.now) }
{
    let mut text = Vec::new(alloc);
    match shelf.fetch(name, MOST, &mut text) {
        Ok(()) => Ok(text),
        Err(FetchFault::Failed) => Err(HostRefusal::Shelf(Label::new(alloc, name)?)),
        Err(FetchFault::OutOfMemory) => Err(HostRefusal::OutOfMemory),
    }
}

/// Why a text that is refused has no answer.
fn told(refusal: TextRefusal) -> HostRefusal
    ensures { (name text : List ℕ) → IsReason name 0 text refusal → HasNoSource name text result }
{
    match refusal {
        TextRefusal::OutOfMemory => HostRefusal::OutOfMemory,
        refusal => HostRefusal::Text(refusal),
    }
}

/// The canonical text of the program of a text.
fn canonical_of(alloc: Global, name: &str, text: &[u8]) -> Result<String, HostRefusal>
    ensures { MatchResult result
        (λ answer. IsAnswer modes.Format text.now (string_bytes answer))
        (HasNoAnswer modes.Format name.now text.now) }
{
    match canonical(alloc, name, text) {
        Ok(answer) => Ok(answer),
        Err(refusal) => Err(told(refusal)),
    }
}

/// The report of the program of a text, if it has the first form.
fn report_of(alloc: Global, name: &str, text: &[u8]) -> Result<String, HostRefusal>
    ensures { MatchResult result (λ answer. IsAnswer modes.Run text.now (string_bytes answer)) (HasNoAnswer modes.Run name.now text.now) }
{
    if let Err(refusal) = check(alloc, name, text) {
        return Err(told(refusal));
    }
    let Some(program) = read_first(alloc, text)? else {
        return Err(HostRefusal::Early(Label::new(alloc, name)?));
    };
    let distribution = run(alloc, &program)?;
    Ok(text_report(alloc, &distribution)?)
}

/// The answer to a mode for a text.
fn answer_of(alloc: Global, mode: Mode, name: &str, text: &[u8]) -> Result<String, HostRefusal>
    ensures { MatchResult result (λ answer. IsAnswer mode text.now (string_bytes answer)) (HasNoAnswer mode name.now text.now) }
{
    match mode {
        Mode::Run => report_of(alloc, name, text),
        Mode::Format => canonical_of(alloc, name, text),
    }
}

/// The answer to a mode for the text of that name.
pub fn answer_at<S: Shelf>(
    alloc: Global,
    shelf: &mut S,
    mode: Mode,
    name: &str,
) -> Result<String, HostRefusal>
    ensures answer { (texts : Texts) → S.holds shelf.old ≡ Some texts → MatchResult result
        (λ answer. IsAnswer mode (text_of texts name.now) (string_bytes answer))
        (HasNoAnswerAt mode name.now (text_of texts name.now)) }
    ensures shelf { MatchResult result
        (λ _. S.faults shelf.new ≡ S.faults shelf.old)
        (HasShelfCause (S.faults shelf.old) (S.faults shelf.new) (S.failed shelf.new) name.now) }
{
    let text = fetched(alloc, shelf, name)?;
    answer_of(alloc, mode, name, text.as_slice())
}

/// The canonical text of the program in the text of that name. The text is refused as for the mode
/// `format` (E1 to E6); the shelf's fault comes only where its count rose in this call, with that name, and a count that rose is
/// answered by that fault or want of memory.
pub fn format_text<S: Shelf>(
    alloc: Global,
    shelf: &mut S,
    name: &str,
) -> Result<String, HostRefusal>
    ensures text { (texts : Texts) → S.holds shelf.old ≡ Some texts → MatchResult result
        (λ text. IsAnswer modes.Format (text_of texts name.now) (string_bytes text))
        (HasNoAnswerAt modes.Format name.now (text_of texts name.now)) }
    ensures shelf { MatchResult result
        (λ _. S.faults shelf.new ≡ S.faults shelf.old)
        (HasShelfCause (S.faults shelf.old) (S.faults shelf.new) (S.failed shelf.new) name.now) }
{
    answer_at(alloc, shelf, Mode::Format, name)
}

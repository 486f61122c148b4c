ghost use Rattle.std.specs.Prelude.{◌≡◌, ◌≢◌, ℕ, List, ◌<◌, ◌⊎◌, map, string_bytes, Some};
ghost use Rattle.qt_outside.specs.Causes.{Texts, Rose};
ghost use Rattle.qt_words.specs.Words.{Asks, AreServed, named};
ghost use Rattle.qt_lines.specs.Lines.{IsLine};
ghost use Rattle.qt_lines.specs.Puts.{seen, PutsLine};
ghost use Rattle.qt_host.specs.Lines.{TellsRefusal, fault_line};
ghost use Rattle.qt_host.specs.Said.{Said, refused};
ghost use Rattle.qt_host.specs.Puts.{Answered, AnsweredInPart};

use crate::answer::answer_at;
use crate::tell::tell;
use qt_lines::cut::put_lines;
use qt_lines::tell::{tell_sink, tell_want, tell_words};
use qt_outside::faults::PutFault;
use qt_outside::shelf::Shelf;
use qt_outside::sink::Sink;
use qt_words::request::request_of;
use std::alloc::Global;

/// Answers the words of a command line, without the program's name: `run NAME` puts the report of the program in the text
/// of that name to `out`, and `format NAME` its canonical text, each line by one put. The answer is then 0. No clause says how often
/// the sinks and the shelf are called: the cases of `qt_host_cases` count their calls.
///
/// The other statuses each put one line to `err`: 1 where the text is refused, 2 where the words ask for nothing that is served,
/// 4 where the shelf failed, 5 where `out` failed, 6 where memory ran out.
pub fn host<S: Shelf, O: Sink, E: Sink>(
    alloc: Global,
    words: &[String],
    shelf: &mut S,
    out: &mut O,
    err: &mut E,
) -> u8
    ensures statuses { (result ≡ 0) ⊎ (result ≡ 1) ⊎ (result ≡ 2) ⊎ (result ≡ 4) ⊎ (result ≡ 5) ⊎ (result ≡ 6) }

    // Where the shelf tells its texts: 0 and 1 are what is said of the words and texts.
    ensures answer { let before = seen O.bytes O.faults O.wants out.old in
        let after = seen O.bytes O.faults O.wants out.new in
        (texts : Texts) → S.holds shelf.old ≡ Some texts → result ≡ 0
        → Answered (map string_bytes words.now) texts before after }
    ensures refusal { let before = seen E.bytes E.faults E.wants err.old in
        let after = seen E.bytes E.faults E.wants err.new in
        (texts : Texts) → S.holds shelf.old ≡ Some texts → result ≡ 1
        → (line : List ℕ) × Said (map string_bytes words.now) texts (refused 1 line) × PutsLine before after line }

    // Whatever the shelf tells: 1 puts one line, which tells that the text of the name that was asked is refused.
    ensures refusal_line { let before = seen E.bytes E.faults E.wants err.old in
        let after = seen E.bytes E.faults E.wants err.new in
        result ≡ 1
        → (line : List ℕ) × IsLine line × TellsRefusal (named (map string_bytes words.now)) line × PutsLine before after line }

    // 2 comes only where the words ask for nothing that is served; they then have no other answer but want of memory.
    ensures words { result ≡ 2 → ¬ AreServed (map string_bytes words.now) }
    ensures words_heard { ¬ AreServed (map string_bytes words.now) → (result ≡ 2) ⊎ (result ≡ 6) }

    // 4 comes only where the shelf failed in this call, for the name that was asked.
    ensures shelf { result ≡ 4 → Rose (S.faults shelf.old) (S.faults shelf.new) }
    ensures shelf_name { result ≡ 4 → (mode : List ℕ) × Asks (map string_bytes words.now) mode (S.failed shelf.new) }
    ensures shelf_heard { S.faults shelf.old < S.faults shelf.new → (result ≡ 4) ⊎ (result ≡ 6) }

    // 5 comes only where `out` failed in this call, and then it holds a part of the answer; so it may with 6.
    ensures sink { result ≡ 5 → Rose (O.faults out.old) (O.faults out.new) }
    ensures sink_part { let before = seen O.bytes O.faults O.wants out.old in
        let after = seen O.bytes O.faults O.wants out.new in
        (texts : Texts) → S.holds shelf.old ≡ Some texts → result ≡ 5
        → AnsweredInPart (map string_bytes words.now) texts before after }
    ensures memory_part { let before = seen O.bytes O.faults O.wants out.old in
        let after = seen O.bytes O.faults O.wants out.new in
        (texts : Texts) → S.holds shelf.old ≡ Some texts → result ≡ 6
        → (out.new ≡ out.old)
        ⊎ (AnsweredInPart (map string_bytes words.now) texts before after × Rose before.wants after.wants) }
    ensures refused { (result ≡ 1) ⊎ (result ≡ 2) ⊎ (result ≡ 4) → out.new ≡ out.old }

    // One line tells of each status but 0.
    ensures quiet { result ≡ 0 → err.new ≡ err.old }
    ensures line { let before = seen E.bytes E.faults E.wants err.old in
        let after = seen E.bytes E.faults E.wants err.new in
        result ≢ 0 → result ≢ 1 → PutsLine before after (fault_line result (map string_bytes words.now)) }
{
    let Some(request) = request_of(words) else {
        return tell_words(alloc, words, err);
    };
    let text = match answer_at(alloc, shelf, request.mode, request.name) {
        Ok(text) => text,
        Err(refusal) => return tell(alloc, request.name, &refusal, err),
    };
    match put_lines(out, text.as_bytes()) {
        Ok(()) => 0,
        Err(PutFault::Failed) => tell_sink(err),
        Err(PutFault::OutOfMemory) => tell_want(err),
    }
}

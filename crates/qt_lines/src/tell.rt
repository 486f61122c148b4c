//! Putting the line that tells why there is no answer.

ghost use Rattle.std.specs.Prelude.{◌≡◌, ◌⊎◌, map, string_bytes};
ghost use Rattle.qt_words.specs.Lines.{unserved_line};
ghost use Rattle.qt_lines.specs.Lines.{memory_line, sink_line};
ghost use Rattle.qt_lines.specs.Puts.{seen, PutsLine};

use qt_outside::sink::Sink;
use qt_words::unserved::unserved_line;
use std::alloc::Global;

/// Puts one line, and gives up where the sink refuses it.
pub fn put_line<E: Sink>(err: &mut E, line: &str)
    ensures { PutsLine (seen E.bytes E.faults E.wants err.old) (seen E.bytes E.faults E.wants err.new) line.now }
{
    let _ = err.put(line.as_bytes());
}

/// Puts the line of want of memory, and gives its status.
pub fn tell_want<E: Sink>(err: &mut E) -> u8
    ensures status { result ≡ 6 }
    ensures line { PutsLine (seen E.bytes E.faults E.wants err.old) (seen E.bytes E.faults E.wants err.new) memory_line }
{
    put_line(err, "M1 memory\n");
    6
}

/// Puts the line of a sink that failed, and gives its status.
pub fn tell_sink<E: Sink>(err: &mut E) -> u8
    ensures status { result ≡ 5 }
    ensures line { PutsLine (seen E.bytes E.faults E.wants err.old) (seen E.bytes E.faults E.wants err.new) sink_line }
{
    put_line(err, "O1 sink\n");
    5
}

/// Puts the line of words that ask for nothing that is served, and gives its status; those of want of memory where there is none for it.
pub fn tell_words<E: Sink>(alloc: Global, words: &[String], err: &mut E) -> u8
    ensures status { (result ≡ 2) ⊎ (result ≡ 6) }
    ensures line { (result ≡ 2) → PutsLine
        (seen E.bytes E.faults E.wants err.old)
        (seen E.bytes E.faults E.wants err.new)
        (unserved_line (map string_bytes words.now)) }
    ensures want { (result ≡ 6) → PutsLine (seen E.bytes E.faults E.wants err.old) (seen E.bytes E.faults E.wants err.new) memory_line }
{
    match unserved_line(alloc, words) {
        Ok(line) => {
            put_line(err, line.as_str());
            2
        }
        Err(_) => tell_want(err),
    }
}

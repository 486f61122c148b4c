ghost use Rattle.std.specs.Prelude.{◌≡◌, ◌==◌, ◌<◌, ◌≤◌, length, OnOk, IfErr, IfSome};
ghost use Rattle.std.specs.List.{position};
ghost use Rattle.qt_lines.specs.Lines.{first_line_length};
ghost use Rattle.qt_lines.specs.Puts.{seen, Whole, IsCut};

use qt_outside::faults::PutFault;
use qt_outside::sink::Sink;

/// The place of the first line feed.
fn line_feed(text: &[u8]) -> Option<usize>
    ensures place { result ≡ position (λ byte. byte == 10) text.now }
    ensures within { IfSome result (λ place. place < length text.now) }
{
    text.iter().position(|byte| *byte == b'\n')
}

/// The length of the first line: it ends with the first line feed, or is the whole text where there is none.
fn first_line(text: &[u8]) -> usize
    requires { 0 < length text.now }
    ensures line_feed { result ≡ first_line_length text.now }
    ensures some { 0 < result }
    ensures within { result ≤ length text.now }
{
    match line_feed(text) {
        Some(place) => place + 1,
        None => text.len(),
    }
}

/// Puts a text out, each line by one put.
pub fn put_lines<O: Sink>(out: &mut O, text: &[u8]) -> Result<(), PutFault>
    ensures ok { OnOk result (Whole (seen O.bytes O.faults O.wants out.old) (seen O.bytes O.faults O.wants out.new) text.now) }
    ensures refused { IfErr result (IsCut text.now (seen O.bytes O.faults O.wants out.old) (seen O.bytes O.faults O.wants out.new)) }
{
    let mut rest = text;
    while !rest.is_empty() {
        let (line, behind) = rest.split_at(first_line(rest));
        if let Err(fault) = out.put(line) {
            return Err(fault);
        }
        rest = behind;
    }
    Ok(())
}

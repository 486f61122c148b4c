//! The line that tells why there is no answer.

ghost use Rattle.std.specs.Prelude.{◌≡◌, ℕ, List, [], ◌∷◌, string_bytes, IfOk};
ghost use Rattle.qt_lines.specs.Puts.{seen, PutsLine};
ghost use Rattle.qt_read.specs.Lines as texts;
ghost use Rattle.qt_host.specs.Steps as steps;
ghost use Rattle.qt_host.specs.Steps.{IsTold, line_of};

use crate::refusal::HostRefusal;
use qt_lines::line::{form_line, shelf_line};
use qt_lines::tell::{put_line, tell_want};
use qt_outside::faults::OutOfMemory;
use qt_outside::sink::Sink;
use qt_read::line::refusal_line;
use qt_tree::label::Label;
use qt_tree::refusal::TextRefusal;
use std::alloc::Global;
use std::slice;

/// The line of a refused text.
fn text_line(alloc: Global, name: &str, refusal: &TextRefusal) -> Result<String, OutOfMemory>
    ensures { IfOk result (λ line. string_bytes line ≡ texts.refusal_line (name.now ∷ []) refusal.now) }
{
    let name = Label::new(alloc, name)?;
    refusal_line(alloc, slice::from_ref(&name), refusal)
}

/// The line of a refusal.
fn line_of(alloc: Global, name: &str, refusal: &HostRefusal) -> Result<String, OutOfMemory>
    ensures { IfOk result (λ line. string_bytes line ≡ line_of name.now refusal.now) }
{
    match refusal {
        HostRefusal::Shelf(of) => shelf_line(alloc, of.text()),
        HostRefusal::Early(of) => form_line(alloc, of.text()),
        HostRefusal::Text(reason) => text_line(alloc, name, reason),
        HostRefusal::OutOfMemory => Ok(String::from_str(alloc, "M1 memory\n")?),
    }
}

fn status_of(refusal: &HostRefusal) -> u8
    ensures { result ≡ steps.status_of refusal.now }
{
    match refusal {
        HostRefusal::Shelf(_) => 4,
        HostRefusal::Early(_) | HostRefusal::Text(_) => 1,
        HostRefusal::OutOfMemory => 6,
    }
}

/// Puts the line of a refusal and gives its status; those of want of memory where there is none for the line.
pub fn tell<E: Sink>(alloc: Global, name: &str, refusal: &HostRefusal, err: &mut E) -> u8
    ensures { (line : List ℕ) × IsTold name.now refusal.now result line
        × PutsLine (seen E.bytes E.faults E.wants err.old) (seen E.bytes E.faults E.wants err.new) line }
{
    match line_of(alloc, name, refusal) {
        Ok(line) => {
            put_line(err, line.as_str());
            status_of(refusal)
        }
        Err(_) => tell_want(err),
    }
}

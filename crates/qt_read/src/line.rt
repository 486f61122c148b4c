//! The lines that tell why a text, a program or its settings are refused.

ghost use Rattle.std.specs.Prelude.{◌≡◌, ◌++◌, IfOk, OnOk};
ghost use Rattle.std.specs.String.{string_bytes};
ghost use Rattle.qt_read.specs.Lines.{name_of_text, placed, refusal_words, refusal_line};

use qt_outside::faults::OutOfMemory;
use qt_tree::label::Label;
use qt_tree::place::Place;
use qt_tree::refusal::TextRefusal;
use std::alloc::{AllocError, Global};

/// The line that tells a refusal, with its line feed. `names` are the names of the texts by their numbers: that of the main text
/// first, and then in the order in which they were fetched.
pub fn refusal_line(
    alloc: Global,
    names: &[Label],
    refusal: &TextRefusal,
) -> Result<String, OutOfMemory>
    ensures { IfOk result (λ line. string_bytes line ≡ refusal_line names.now refusal.now) }
{
    let mut line = String::new(alloc);
    push_refusal(&mut line, names, refusal)?;
    line.push('\n')?;
    Ok(line)
}

/// The name of the text with that number, or the empty text where there is no such.
fn name_of_text(names: &[Label], file: u16) -> &str
    ensures { result.now ≡ name_of_text names.now file }
{
    match names.get(usize::from(file)) {
        Some(name) => name.text(),
        None => "",
    }
}

/// A word, then `name:line:column`, then another word.
fn push_placed(
    line: &mut String,
    names: &[Label],
    before: &str,
    place: Place,
    behind: &str,
) -> Result<(), AllocError>
    ensures { OnOk result (string_bytes line.new ≡ string_bytes line.old ++ placed names.now before.now place behind.now) }
{
    line.push_str(before)?;
    line.push_str(name_of_text(names, place.file))?;
    let Place {
        line: row,
        column,
        ..
    } = place;
    write!(line, ":{row}:{column}")?;
    line.push_str(behind)
}

/// A refusal without its line feed.
fn push_refusal(line: &mut String, names: &[Label], refusal: &TextRefusal) -> Result<(), AllocError>
    ensures { OnOk result (string_bytes line.new ≡ string_bytes line.old ++ refusal_words names.now refusal.now) }
{
    match refusal {
        TextRefusal::E1(name, count) => {
            line.push_str("E1 ")?;
            line.push_str(name.text())?;
            write!(line, " utf8 {count}")
        }
        TextRefusal::E2(name) => {
            line.push_str("E2 ")?;
            line.push_str(name.text())?;
            line.push_str(" long")
        }
        TextRefusal::E3(place) => push_placed(line, names, "E3 ", *place, " token"),
        TextRefusal::E4(place) => push_placed(line, names, "E4 ", *place, " syntax"),
        TextRefusal::E5(place) => push_placed(line, names, "E5 ", *place, " nest"),
        TextRefusal::E6(place, feature) => {
            push_placed(line, names, "E6 ", *place, " profile ")?;
            line.push_str(feature.text())
        }
        TextRefusal::E7(place) => push_placed(line, names, "E7 ", *place, " version"),
        TextRefusal::E8(place, name) => {
            push_placed(line, names, "E8 ", *place, " name ")?;
            line.push_str(name.text())
        }
        TextRefusal::E9(place, name) => {
            push_placed(line, names, "E9 ", *place, " twice ")?;
            line.push_str(name.text())
        }
        TextRefusal::E10(place) => push_placed(line, names, "E10 ", *place, " type"),
        TextRefusal::E11(place, cause) => {
            push_placed(line, names, "E11 ", *place, " form ")?;
            line.push_str(cause.word())
        }
        TextRefusal::E12(place, cause) => {
            push_placed(line, names, "E12 ", *place, " const ")?;
            line.push_str(cause.word())
        }
        TextRefusal::E13(place, units) => {
            push_placed(line, names, "E13 ", *place, " angle ")?;
            write!(line, "{units}")
        }
        TextRefusal::E14(place, wanted, given) => {
            push_placed(line, names, "E14 ", *place, " arity ")?;
            write!(line, "{wanted} {given}")
        }
        TextRefusal::E15(total) => write!(line, "E15 qubits {total}"),
        TextRefusal::E16(total) => write!(line, "E16 slots {total}"),
        TextRefusal::E17(total) => write!(line, "E17 size {total}"),
        TextRefusal::E18(place) => push_placed(line, names, "E18 ", *place, " include"),
        TextRefusal::E19(name, cause) => {
            line.push_str("E19 ")?;
            line.push_str(name.text())?;
            line.push(' ')?;
            line.push_str(cause.word())
        }
        TextRefusal::OutOfMemory => line.push_str("M1 memory"),
    }
}

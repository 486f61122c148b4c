//! Rows of refusals: the lines that tell them.

use qt_read::line::refusal_line;
use qt_rows::answer::Answer;
use qt_rows::row::Row;
use qt_tree::label::Label;
use qt_tree::place::Place;
use qt_tree::refusal::{Cause, Feature, TextRefusal};
use std::alloc::Global;

const FEATURES: [(&str, Feature); 24] = [
    ("Float", Feature::Float),
    ("Complex", Feature::Complex),
    ("Duration", Feature::Duration),
    ("Stretch", Feature::Stretch),
    ("Delay", Feature::Delay),
    ("Box", Feature::Box),
    ("DurationOf", Feature::DurationOf),
    ("Cal", Feature::Cal),
    ("DefCal", Feature::DefCal),
    ("DefCalGrammar", Feature::DefCalGrammar),
    ("Extern", Feature::Extern),
    ("Pragma", Feature::Pragma),
    ("Euler", Feature::Euler),
    ("Switch", Feature::Switch),
    ("Case", Feature::Case),
    ("Default", Feature::Default),
    ("Decimal", Feature::Decimal),
    ("Timing", Feature::Timing),
    ("Imaginary", Feature::Imaginary),
    ("Hardware", Feature::Hardware),
    ("Wide", Feature::Wide),
    ("Dim", Feature::Dim),
    ("Hash", Feature::Hash),
    ("Annotation", Feature::Annotation),
];

const CAUSES: [(&str, Cause); 14] = [
    ("Loop", Cause::Loop),
    ("Return", Cause::Return),
    ("Target", Cause::Target),
    ("Qubit", Cause::Qubit),
    ("Register", Cause::Register),
    ("Call", Cause::Call),
    ("Dimensions", Cause::Dimensions),
    ("Variable", Cause::Variable),
    ("Divide", Cause::Divide),
    ("Exact", Cause::Exact),
    ("Range", Cause::Range),
    ("Missing", Cause::Missing),
    ("Bad", Cause::Bad),
    ("Unknown", Cause::Unknown),
];

/// The names of the texts 0 and 1. Others have none.
fn names(alloc: Global, answer: &mut Answer) -> Vec<Label> {
    let mut names = Vec::new(alloc);
    for name in ["p.qasm", "mine.inc"] {
        if let Some(name) = answer.given(Label::new(alloc, name)) {
            answer.require(names.push(name));
        }
    }
    names
}

/// Writes the line of a refusal without its line feed, and `no line feed` where it isn't ended by one.
pub fn write_line(alloc: Global, refusal: &TextRefusal, answer: &mut Answer) {
    let names = names(alloc, answer);
    if let Some(line) = answer.given(refusal_line(alloc, names.as_slice(), refusal)) {
        answer.push_str(line.strip_suffix('\n').unwrap_or("no line feed"));
    }
}

/// What a table has under the next word. Where it has nothing the row is refused.
fn listed_in<T: Copy + Drop>(table: &[(&str, T)], otherwise: T, row: &mut Row<'_>) -> T {
    let word = row.word();
    for (name, listed) in table {
        if *name == word {
            return *listed;
        }
    }
    row.refuse();
    otherwise
}

fn feature_in(row: &mut Row<'_>) -> Feature {
    listed_in(&FEATURES, Feature::Float, row)
}

fn cause_in(row: &mut Row<'_>) -> Cause {
    listed_in(&CAUSES, Cause::Loop, row)
}

fn place_in(row: &mut Row<'_>) -> Place {
    let (file, line, column) = (row.u16(), row.u32(), row.u32());
    Place { file, line, column }
}

/// A refusal of a place.
fn placed_in(variant: &str, row: &mut Row<'_>) -> TextRefusal {
    let place = place_in(row);
    match variant {
        "E3" => TextRefusal::E3(place),
        "E4" => TextRefusal::E4(place),
        "E5" => TextRefusal::E5(place),
        "E6" => TextRefusal::E6(place, feature_in(row)),
        "E7" => TextRefusal::E7(place),
        "E10" => TextRefusal::E10(place),
        "E11" => TextRefusal::E11(place, cause_in(row)),
        "E12" => TextRefusal::E12(place, cause_in(row)),
        "E13" => TextRefusal::E13(place, row.i64()),
        "E14" => TextRefusal::E14(place, row.u32(), row.u32()),
        "E18" => TextRefusal::E18(place),
        _ => {
            row.refuse();
            TextRefusal::OutOfMemory
        }
    }
}

/// A refusal without a name.
fn nameless_in(variant: &str, row: &mut Row<'_>) -> TextRefusal {
    match variant {
        "E15" => TextRefusal::E15(row.u32()),
        "E16" => TextRefusal::E16(row.u32()),
        "E17" => TextRefusal::E17(row.u64()),
        "OutOfMemory" => TextRefusal::OutOfMemory,
        _ => placed_in(variant, row),
    }
}

/// A refusal of a name, without a place.
fn named_in(
    alloc: Global,
    variant: &str,
    row: &mut Row<'_>,
    answer: &mut Answer,
) -> Option<TextRefusal> {
    let name = answer.given(Label::new(alloc, row.word()))?;
    Some(match variant {
        "E1" => TextRefusal::E1(name, row.u64()),
        "E2" => TextRefusal::E2(name),
        _ => TextRefusal::E19(name, cause_in(row)),
    })
}

/// A refusal of a place and a name.
fn misnamed_in(
    alloc: Global,
    variant: &str,
    row: &mut Row<'_>,
    answer: &mut Answer,
) -> Option<TextRefusal> {
    let place = place_in(row);
    let name = answer.given(Label::new(alloc, row.word()))?;
    Some(match variant {
        "E8" => TextRefusal::E8(place, name),
        _ => TextRefusal::E9(place, name),
    })
}

/// The refusal that a row writes.
fn refusal_in(alloc: Global, row: &mut Row<'_>, answer: &mut Answer) -> Option<TextRefusal> {
    let variant = row.word();
    match variant {
        "E1" | "E2" | "E19" => named_in(alloc, variant, row, answer),
        "E8" | "E9" => misnamed_in(alloc, variant, row, answer),
        _ => Some(nameless_in(variant, row)),
    }
}

/// `refusal VARIANT PART ..`: the line of a refusal. A place is the number of its text, its line and its column.
pub fn answer_refusal(alloc: Global, row: &mut Row<'_>, answer: &mut Answer) {
    if let Some(refusal) = refusal_in(alloc, row, answer) {
        write_line(alloc, &refusal, answer);
    }
}

//! Rows of labels, places and refusals.

use qt_outside::faults::OutOfMemory;
use qt_rows::answer::Answer;
use qt_rows::row::Row;
use qt_tree::label::{Label, Setting};
use qt_tree::lengths::Lengths;
use qt_tree::place::Place;
use qt_tree::refusal::{Cause, Feature, TextRefusal};
use sqlite_items::Boxed;
use std::alloc::Global;

const FEATURES: [Feature; 24] = [
    Feature::Float,
    Feature::Complex,
    Feature::Duration,
    Feature::Stretch,
    Feature::Delay,
    Feature::Box,
    Feature::DurationOf,
    Feature::Cal,
    Feature::DefCal,
    Feature::DefCalGrammar,
    Feature::Extern,
    Feature::Pragma,
    Feature::Euler,
    Feature::Switch,
    Feature::Case,
    Feature::Default,
    Feature::Decimal,
    Feature::Timing,
    Feature::Imaginary,
    Feature::Hardware,
    Feature::Wide,
    Feature::Dim,
    Feature::Hash,
    Feature::Annotation,
];

const CAUSES: [Cause; 14] = [
    Cause::Loop,
    Cause::Return,
    Cause::Target,
    Cause::Qubit,
    Cause::Register,
    Cause::Call,
    Cause::Dimensions,
    Cause::Variable,
    Cause::Divide,
    Cause::Exact,
    Cause::Range,
    Cause::Missing,
    Cause::Bad,
    Cause::Unknown,
];

fn place(line: u32, column: u32) -> Place {
    Place {
        file: 0,
        line,
        column,
    }
}

/// A setting of a name whose value is the copy of the name.
fn setting(alloc: Global, name: &str) -> Result<Setting, OutOfMemory> {
    let name = Label::new(alloc, name)?;
    let value = name.copied(alloc)?;
    Ok(Setting { name, value })
}

fn setting_told(setting: &Setting, other: &Label, answer: &mut Answer) {
    answer.push_str(setting.value.text());
    let alike = setting.name == setting.value;
    let same = setting.name == *other;
    write!(answer, ";{alike};{same}");
}

/// `labels NAME OTHER`: the copy of a name, whether a setting of the name and its copy has both alike, and whether the name is the
/// other.
fn labels(alloc: Global, row: &mut Row<'_>, answer: &mut Answer) {
    let (name, other) = (row.word(), row.word());
    if let Some(setting) = answer.given(setting(alloc, name)) {
        if let Some(other) = answer.given(Label::new(alloc, other)) {
            setting_told(&setting, &other, answer);
        }
    }
}

/// The numbers of a text.
fn numbers_in(alloc: Global, written: &str, answer: &mut Answer) -> Vec<u32> {
    let mut numbers = Vec::new(alloc);
    for word in written.split_whitespace() {
        if let Ok(number) = word.parse::<u32>() {
            answer.require(numbers.push(number));
        }
    }
    numbers
}

/// `lengths NUMBERS`: the numbers of a copy.
fn lengths(alloc: Global, written: &str, answer: &mut Answer) {
    let lengths = Lengths::from_vec(numbers_in(alloc, written, answer));
    if let Some(copy) = answer.given(lengths.copied(alloc)) {
        for number in copy.items() {
            write!(answer, "{number};");
        }
    }
}

fn place_in(row: &mut Row<'_>) -> Place {
    let (file, line, column) = (row.u16(), row.u32(), row.u32());
    Place { file, line, column }
}

/// `order FILE LINE COLUMN FILE LINE COLUMN`: whether the one place is before the other, and the other before the one.
fn order(row: &mut Row<'_>, answer: &mut Answer) {
    let (one, other) = (place_in(row), place_in(row));
    let (before, behind) = (one < other, other < one);
    write!(answer, "{before};{behind}");
}

/// `features`: each feature and the word that tells it.
fn features(answer: &mut Answer) {
    for feature in FEATURES {
        let word = feature.text();
        write!(answer, "{feature:?} {word};");
    }
}

/// `causes`: each cause and the word that tells it.
fn causes(answer: &mut Answer) {
    for cause in CAUSES {
        let word = cause.word();
        write!(answer, "{cause:?} {word};");
    }
}

/// A refusal of that name.
fn refused(alloc: Global, name: &str) -> Result<Boxed<TextRefusal>, OutOfMemory> {
    let name = Label::new(alloc, name)?;
    Ok(Boxed::new(alloc, TextRefusal::E8(place(3, 4), name))?)
}

fn is_same(one: &TextRefusal, other: TextRefusal) -> bool {
    *one == other
}

fn refusals_told(one: &TextRefusal, other: &TextRefusal, answer: &mut Answer) {
    let same = *one == *other;
    let typed = is_same(one, TextRefusal::E10(place(3, 4)));
    let want = is_same(one, TextRefusal::from(OutOfMemory));
    write!(answer, "{same};{typed};{want}");
}

/// `refusals NAME OTHER`: whether the refusals of two names are the same, and whether that of the one is a refusal of types, or one for
/// want of memory.
fn refusals(alloc: Global, row: &mut Row<'_>, answer: &mut Answer) {
    let (name, other) = (row.word(), row.word());
    if let Some(one) = answer.given(refused(alloc, name)) {
        if let Some(other) = answer.given(refused(alloc, other)) {
            refusals_told(one.get(), other.get(), answer);
        }
    }
}

/// The answer of a call on labels, places or refusals.
pub fn answer_labels(alloc: Global, call: &str, row: &mut Row<'_>, answer: &mut Answer) {
    match call {
        "labels" => labels(alloc, row, answer),
        "lengths" => lengths(alloc, row.rest, answer),
        "order" => order(row, answer),
        "features" => features(answer),
        "causes" => causes(answer),
        "refusals" => refusals(alloc, row, answer),
        _ => row.refuse(),
    }
}

//! Rows of inputs and settings.

use qt_rows::answer::Answer;
use qt_rows::row::Row;
use qt_settings::fit::inputs_fit;
use qt_tree::label::{Label, Setting};
use qt_tree::lengths::Lengths;
use qt_type_rows::types::type_in;
use qt_typed::program::TypedOutput;
use std::alloc::Global;

/// The inputs, and what is given for them.
#[derive(Drop)]
pub struct Given {
    settings: Vec<Setting>,
    inputs: Vec<TypedOutput>,
}

impl Given {
    pub fn none(alloc: Global) -> Given {
        Given {
            settings: Vec::new(alloc),
            inputs: Vec::new(alloc),
        }
    }
}

/// `input TYPE WIDTH NAME SLOT`
pub fn input(alloc: Global, given: &mut Given, row: &mut Row<'_>, answer: &mut Answer) {
    let kind = type_in(row);
    let (name, slot) = (row.word(), row.u32());
    if let Some(name) = answer.given(Label::new(alloc, name)) {
        let lengths = Lengths::from_vec(Vec::new(alloc));
        answer.require(
            given.inputs.push(TypedOutput {
                name,
                kind,
                slot,
                lengths,
            }),
        );
    }
}

/// `setting NAME VALUE`
pub fn setting(alloc: Global, given: &mut Given, row: &mut Row<'_>, answer: &mut Answer) {
    let (name, value) = (row.word(), row.word());
    let value = answer.given(Label::new(alloc, value));
    if let (Some(name), Some(value)) = (answer.given(Label::new(alloc, name)), value) {
        answer.require(given.settings.push(Setting { name, value }));
    }
}

/// `fit`: the slots with their values. The next row begins with no input and no setting.
pub fn fit(alloc: Global, given: &mut Given, answer: &mut Answer) {
    match inputs_fit(alloc, given.settings.as_slice(), given.inputs.as_slice()) {
        Ok(starts) => {
            for start in starts.as_slice() {
                let (slot, bits) = (start.slot, start.bits);
                write!(answer, "{slot}:{bits} ");
            }
        }
        Err(refusal) => write!(answer, "{refusal:?}"),
    }
    given.settings.clear();
    given.inputs.clear();
}

//! Rows of targets.

use crate::expressions::parsed;
use crate::names::HERE;
use qt_check_qubits::qubits::qubits_named;
use qt_check_targets::targets::{measured_target, target_at};
use qt_rows::answer::Answer;
use qt_rows::row::Row;
use qt_tree::expression::Expr;
use qt_tree::label::Label;
use qt_tree::refusal::TextRefusal;
use qt_tree::statement::Target;
use qt_typed::expression::{TypedTarget, TypedVariable};
use qt_typing::names::Names;
use sqlite_items::Boxed;
use std::alloc::Global;

/// The type of what is stored, the first slot, the indexes of an element, and the steps to bits.
fn tell_target(target: &TypedTarget, answer: &mut Answer) {
    let kind = target.kind;
    let (slot, indexes) = match &target.variable {
        TypedVariable::Slot { slot, .. } => (*slot, 0),
        TypedVariable::Element { slot, indexes, .. } => (*slot, indexes.len()),
    };
    let steps = target.steps.len();
    write!(
        answer,
        "{kind:?} slot {slot} indexes {indexes} steps {steps}"
    );
}

fn told(found: Result<Boxed<TypedTarget>, TextRefusal>, answer: &mut Answer) {
    match found {
        Ok(target) => tell_target(target.get(), answer),
        Err(refusal) => write!(answer, "{refusal:?}"),
    }
}

/// The target that is written as an expression.
fn target_in(alloc: Global, row: &mut Row<'_>, answer: &mut Answer) -> Option<Boxed<Target>> {
    let expr = parsed(alloc, row.rest, answer)?;
    match expr.into_inner() {
        Expr::Name { name, brackets } => answer.given(Boxed::new(alloc, Target { name, brackets })),
        _ => {
            answer.push_str("no name");
            None
        }
    }
}

/// `target NAME` or `target NAME[INDEX, ..]..`
pub fn target(alloc: Global, names: &Names, row: &mut Row<'_>, answer: &mut Answer) {
    if let Some(target) = target_in(alloc, row, answer) {
        told(target_at(alloc, names, HERE, target.get()), answer);
    }
}

/// `measured NAME TARGET`: the target of the outcomes of a name's qubits.
pub fn measured(alloc: Global, names: &Names, row: &mut Row<'_>, answer: &mut Answer) {
    let Some(name) = answer.given(Label::new(alloc, row.word())) else {
        return;
    };
    let Some(target) = target_in(alloc, row, answer) else {
        return;
    };
    match qubits_named(alloc, names, HERE, &name) {
        Ok(of) => told(
            measured_target(alloc, names, HERE, of.get(), target.get()),
            answer,
        ),
        Err(refusal) => write!(answer, "{refusal:?}"),
    }
}

//! How expressions are typed, in words: the outermost form.

use qt_rows::answer::Answer;
use qt_typed::expression::{TypedExpr, TypedPhase};
use qt_typing::operand::Operand;

/// The outermost form of an expression.
fn form_name(form: &TypedExpr) -> &'static str {
    match form {
        TypedExpr::Constant { .. } => "constant",
        TypedExpr::Slot { .. } => "slot",
        TypedExpr::Element { .. } => "element",
        TypedExpr::Bit { .. } => "bit",
        TypedExpr::Slice { .. } => "slice",
        TypedExpr::Convert { .. } => "convert",
        TypedExpr::Unary { .. } => "unary",
        TypedExpr::Binary { .. } => "binary",
        TypedExpr::ExactQuotient { .. } => "exact quotient",
        TypedExpr::Logical { .. } => "logical",
    }
}

/// The outermost form of a phase.
fn phase_name(form: &TypedPhase) -> &'static str {
    match form {
        TypedPhase::Fixed { .. } => "fixed",
        TypedPhase::Angle { .. } => "angle",
        TypedPhase::Neg { .. } => "neg",
        TypedPhase::Add { .. } => "add",
        TypedPhase::Sub { .. } => "sub",
        TypedPhase::Times { .. } => "times",
        TypedPhase::Scaled { .. } => "scaled",
        TypedPhase::Over { .. } => "over",
    }
}

/// A value of a constant, or the outermost form.
pub fn tell_form(form: &TypedExpr, answer: &mut Answer) {
    let name = form_name(form);
    answer.push_str(name);
    if let TypedExpr::Constant { value } = form {
        let bits = value.bits();
        write!(answer, " {bits}");
    }
}

/// The type of an expression and its outermost form.
pub fn tell_operand(operand: &Operand, answer: &mut Answer) {
    match operand {
        Operand::Value { kind, form } => {
            write!(answer, "{kind:?} ");
            tell_form(form.get(), answer);
        }
        Operand::Phase { form } => {
            answer.push_str("phase ");
            answer.push_str(phase_name(form.get()));
        }
    }
}

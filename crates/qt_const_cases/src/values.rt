//! Rows of expressions and of angles.

ghost use Rattle.std.specs.Prelude.{◌≡◌, IfSome, IsTrue};
ghost use Rattle.qt_value.specs.Types.{has_size};
ghost use Rattle.qt_value.specs.declared.types.ValueType.TheVariants as kind;

use crate::phases::phase_in;
use qt_const::angles::angle_of;
use qt_const::consts::Consts;
use qt_const::value::{const_value, exponent_value, scalar_type};
use qt_expr::parse_expr::parse_expr;
use qt_lex::lexer::lex;
use qt_lookahead::refusal::ParseRefusal;
use qt_rows::answer::Answer;
use qt_rows::row::Row;
use qt_tree::expression::{Expr, Scalar};
use qt_tree::place::Place;
use qt_value::types::ValueType;
use sqlite_items::Boxed;
use std::alloc::Global;
use std::fmt::Debug;

/// The longest expression of a row, in bytes.
const LONGEST: usize = 65536;

/// Where the expressions stand.
const HERE: Place = Place {
    file: 0,
    line: 3,
    column: 4,
};

fn write_debug<T: Debug>(value: &T, answer: &mut Answer) {
    write!(answer, "{value:?}");
}

fn show<T: Debug + Drop>(value: T, answer: &mut Answer) {
    write_debug(&value, answer);
}

/// What was read. Where nothing was, the answer is the refusal.
fn found<T>(read: Result<T, ParseRefusal>, answer: &mut Answer) -> Option<T> {
    match read {
        Ok(found) => Some(found),
        Err(refusal) => {
            write_debug(&refusal, answer);
            None
        }
    }
}

/// What was read before the last of so many tokens, in a box. Where something else was, the answer says so.
fn whole<T: Drop>(
    alloc: Global,
    read: Result<(T, usize), ParseRefusal>,
    count: usize,
    answer: &mut Answer,
) -> Option<Boxed<T>> {
    let (whole, behind) = found(read, answer)?;
    if behind.saturating_add(1) == count {
        return answer.given(Boxed::new(alloc, whole));
    }
    answer.push_str("more than an expression");
    None
}

/// The expression of a text, of which each token but the end belongs to it. Where it has none, the answer says why.
fn expression_in(alloc: Global, text: &str, answer: &mut Answer) -> Option<Boxed<Expr>> {
    if text.len() > LONGEST {
        answer.push_str("too long");
        return None;
    }
    match lex(alloc, text, 0) {
        Ok(tokens) => whole(
            alloc,
            parse_expr(alloc, text, &tokens, 0, 0),
            tokens.len(),
            answer,
        ),
        Err(_) => {
            answer.push_str("no tokens");
            None
        }
    }
}

/// `value EXPRESSION`
pub fn value(alloc: Global, text: &str, consts: &Consts, answer: &mut Answer) {
    if let Some(expr) = expression_in(alloc, text, answer) {
        show(const_value(alloc, expr.get(), consts, HERE), answer);
    }
}

/// `exponent EXPRESSION`
pub fn exponent(alloc: Global, text: &str, consts: &Consts, answer: &mut Answer) {
    if let Some(expr) = expression_in(alloc, text, answer) {
        show(exponent_value(alloc, expr.get(), consts, HERE), answer);
    }
}

/// The type that a cast is written with.
fn cast_type(expr: &Expr) -> Option<&Scalar> {
    match expr {
        Expr::Cast { to, .. } => Some(to),
        _ => None,
    }
}

/// `type CAST`
pub fn type_of_cast(alloc: Global, text: &str, consts: &Consts, answer: &mut Answer) {
    if let Some(expr) = expression_in(alloc, text, answer) {
        match cast_type(expr.get()) {
            Some(to) => show(scalar_type(alloc, to, consts, HERE), answer),
            None => answer.push_str("no cast"),
        }
    }
}

/// A width of an angle.
fn width_in(row: &mut Row<'_>) -> Option<u8>
    ensures { IfSome result (λ width. IsTrue (has_size (kind.Angle width))) }
{
    let width = row.u8();
    if ValueType::Angle(width).has_size() {
        return Some(width);
    }
    row.refuse();
    None
}

/// `angle WIDTH UNITS`
pub fn angle(row: &mut Row<'_>, answer: &mut Answer) {
    if let Some(width) = width_in(row) {
        show(angle_of(width, phase_in(row)), answer);
    }
}

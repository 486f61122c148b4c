//! Rows that type expressions.

use crate::names::HERE;
use crate::shown::{tell_form, tell_operand};
use qt_check_operands::expression::{typed, value_at};
use qt_const::modes::Mode;
use qt_expr::parse_expr::parse_expr;
use qt_lex::lexer::lex;
use qt_rows::answer::Answer;
use qt_rows::row::Row;
use qt_tree::expression::Expr;
use qt_type_rows::types::type_in;
use qt_typing::names::Names;
use qt_value::types::ValueType;
use sqlite_items::Boxed;
use std::alloc::Global;

/// The longest expression of a row, in bytes.
const LONGEST: usize = 65536;

/// The expression of a text, or the answer that it has none.
pub fn parsed(alloc: Global, text: &str, answer: &mut Answer) -> Option<Boxed<Expr>> {
    if text.len() > LONGEST {
        answer.push_str("too long");
        return None;
    }
    let Ok(tokens) = lex(alloc, text, 0) else {
        answer.push_str("no tokens");
        return None;
    };
    match parse_expr(alloc, text, &tokens, 0, 0) {
        Ok((expr, end)) if end.saturating_add(1) == tokens.len() => {
            answer.given(Boxed::new(alloc, expr))
        }
        _ => {
            answer.push_str("no expression");
            None
        }
    }
}

fn tell_typed(alloc: Global, names: &Names, expr: &Expr, answer: &mut Answer) {
    match typed(alloc, names, Mode::Plain, HERE, expr) {
        Ok(operand) => tell_operand(&operand, answer),
        Err(refusal) => write!(answer, "{refusal:?}"),
    }
}

fn tell_value(alloc: Global, names: &Names, to: ValueType, expr: &Expr, answer: &mut Answer) {
    match value_at(alloc, names, HERE, to, expr) {
        Ok(form) => tell_form(form.get(), answer),
        Err(refusal) => write!(answer, "{refusal:?}"),
    }
}

/// `typed EXPRESSION`
pub fn typed_row(alloc: Global, names: &Names, row: &mut Row<'_>, answer: &mut Answer) {
    if let Some(expr) = parsed(alloc, row.rest, answer) {
        tell_typed(alloc, names, expr.get(), answer);
    }
}

/// `value TYPE WIDTH EXPRESSION`
pub fn value_row(alloc: Global, names: &Names, row: &mut Row<'_>, answer: &mut Answer) {
    let to = type_in(row);
    if let Some(expr) = parsed(alloc, row.rest, answer) {
        tell_value(alloc, names, to, expr.get(), answer);
    }
}

//! Expressions as trees.

use crate::tree::{Tree, write_named};
use qt_rows::answer::Answer;
use qt_tree::expression::{Expr, Index, Range, Scalar};
use sqlite_items::{Boxed, Items};

impl Tree for Expr {
    fn write(&self, answer: &mut Answer) {
        write_expr(self, answer);
    }
}

impl Tree for Scalar {
    fn write(&self, answer: &mut Answer) {
        write_scalar(self, answer);
    }
}

impl Tree for Index {
    fn write(&self, answer: &mut Answer) {
        write_index(self, answer);
    }
}

#[cycle(expression)]
pub fn write_expr(expr: &Expr, answer: &mut Answer) {
    match expr {
        Expr::Whole { value } => write!(answer, " (Whole {value}"),
        Expr::BitText { value, length } => write!(answer, " (BitText {value} {length}"),
        Expr::Pi => answer.push_str(" (Pi"),
        Expr::Tau => answer.push_str(" (Tau"),
        Expr::Bool { value } => write!(answer, " (Bool {value}"),
        Expr::Parenthesized { inner } => {
            answer.push_str(" (Parenthesized");
            write_expr(inner.get(), answer);
        }
        Expr::Name { name, brackets } => {
            write_named(" (Name", name, answer);
            write_brackets(brackets.as_slice(), answer);
        }
        Expr::Call { name, arguments } => {
            write_named(" (Call", name, answer);
            write_exprs(arguments.as_slice(), answer);
        }
        Expr::Cast { to, operand } => {
            answer.push_str(" (Cast");
            write_scalar(to, answer);
            write_expr(operand.get(), answer);
        }
        Expr::SizeOf { name, dimension } => {
            write_named(" (SizeOf", name, answer);
            write_boxed(dimension, answer);
        }
        Expr::Unary { operator, operand } => {
            write!(answer, " (Unary {operator:?}");
            write_expr(operand.get(), answer);
        }
        Expr::Binary {
            operator,
            left,
            right,
        } => {
            write!(answer, " (Binary {operator:?}");
            write_expr(left.get(), answer);
            write_expr(right.get(), answer);
        }
    }
    answer.push_str(")");
}

#[cycle(expression)]
pub fn write_exprs(exprs: &[Expr], answer: &mut Answer) {
    answer.push_str(" [");
    for expr in exprs {
        write_expr(expr, answer);
    }
    answer.push_str(" ]");
}

#[cycle(expression)]
fn write_boxed(part: &Option<Boxed<Expr>>, answer: &mut Answer) {
    match part {
        Some(expr) => write_expr(expr.get(), answer),
        None => answer.push_str(" none"),
    }
}

#[cycle(expression)]
fn write_end(end: &Option<Expr>, answer: &mut Answer) {
    match end {
        Some(expr) => write_expr(expr, answer),
        None => answer.push_str(" none"),
    }
}

#[cycle(expression)]
pub fn write_scalar(scalar: &Scalar, answer: &mut Answer) {
    let (name, size) = match scalar {
        Scalar::Bool => return answer.push_str(" (Bool)"),
        Scalar::Bit { size } => (" (Bit", size),
        Scalar::Int { size } => (" (Int", size),
        Scalar::Uint { size } => (" (Uint", size),
        Scalar::Angle { size } => (" (Angle", size),
    };
    answer.push_str(name);
    write_boxed(size, answer);
    answer.push_str(")");
}

/// The indexes of each pair of brackets behind a name.
#[cycle(expression)]
pub fn write_brackets(brackets: &[Items<Index>], answer: &mut Answer) {
    answer.push_str(" [");
    for indexes in brackets {
        write_indexes(indexes.as_slice(), answer);
    }
    answer.push_str(" ]");
}

#[cycle(expression)]
fn write_indexes(indexes: &[Index], answer: &mut Answer) {
    answer.push_str(" [");
    for index in indexes {
        write_index(index, answer);
    }
    answer.push_str(" ]");
}

#[cycle(expression)]
fn write_index(index: &Index, answer: &mut Answer) {
    match index {
        Index::At { place } => {
            answer.push_str(" (At");
            write_expr(place, answer);
        }
        Index::Range { range } => return write_range(range, answer),
        Index::Set { places } => {
            answer.push_str(" (Set");
            write_exprs(places.as_slice(), answer);
        }
    }
    answer.push_str(")");
}

#[cycle(expression)]
pub fn write_range(range: &Range, answer: &mut Answer) {
    answer.push_str(" (Range");
    write_end(&range.start, answer);
    write_end(&range.step, answer);
    write_end(&range.end, answer);
    answer.push_str(")");
}

//! Numbers, sizes and types of rows, as parts of a text's tree.

use qt_rows::answer::Answer;
use qt_rows::row::Row;
use qt_tree::expression::{Expr, Scalar};
use sqlite_items::Boxed;
use std::alloc::Global;

/// A number as it is written.
pub fn whole(alloc: Global, value: u64, answer: &mut Answer) -> Option<Boxed<Expr>> {
    answer.given(Boxed::new(alloc, Expr::Whole { value }))
}

/// A number that a row has.
pub fn number_in(alloc: Global, row: &mut Row<'_>, answer: &mut Answer) -> Option<Boxed<Expr>> {
    let value = row.u64();
    whole(alloc, value, answer)
}

/// A size; none for `-`.
pub fn size_in(alloc: Global, row: &mut Row<'_>, answer: &mut Answer) -> Option<Boxed<Expr>> {
    match row.word() {
        "-" => None,
        word => match word.parse::<u64>() {
            Ok(value) => whole(alloc, value, answer),
            Err(_) => {
                row.refuse();
                None
            }
        },
    }
}

/// The expression that is held, if any is.
pub fn held(size: &Option<Boxed<Expr>>) -> Option<&Expr> {
    match size {
        Some(size) => Some(size.get()),
        None => None,
    }
}

/// `TYPE SIZE`
pub fn scalar_in(alloc: Global, row: &mut Row<'_>, answer: &mut Answer) -> Scalar {
    let name = row.word();
    let size = size_in(alloc, row, answer);
    match name {
        "bool" => Scalar::Bool,
        "bit" => Scalar::Bit { size },
        "int" => Scalar::Int { size },
        "uint" => Scalar::Uint { size },
        "angle" => Scalar::Angle { size },
        _ => {
            row.refuse();
            Scalar::Bool
        }
    }
}
